// Carriers and pilots (4.5).
// A carrier is counted in three ways, and each argument and answer says in which: an active index, 0 to 1704; a signed
// index, active - 852; a bin, signed modulo 2,048. A phase of the scattered pilots is taken modulo 4.
ghost use Rattle.std.specs.Prelude.{◌≡◌, ◌%◌, length};
ghost use Rattle.ground.specs.Answer.{fill_answer, fill_leaves, number_of, count_of};
ghost use Rattle.ground.specs.Refusal.{code};
ghost use Rattle.carriers.specs.Mode.{mode2k};
ghost use Rattle.carriers.specs.Sequence.{wk_from};
ghost use Rattle.carriers.specs.Carriers.{scattered, data_bins, static_bins, continual_bins, tps_bins};
ghost use Rattle.carriers.specs.Answers.{active_to_signed_answer, signed_to_bin_answer, bin_to_active_answer};
ghost use Rattle.carriers.specs.Answers.{boosted_answer};
ghost use Rattle.carriers.specs.Answers.{reference_answer, reference_bins_leaves, reference_values_leaves};
ghost use Rattle.saltkernel.specs.Numbers.{Says};
ghost use Rattle.saltkernel.specs.Carriers.{SaysActive, SaysSigned, SaysBin, SaysBoosted};

use super::constellation::point_numbers_of;
use super::{SaltCounted, SaltMapped, number_and, numbers_of, sizes};
use carriers::{Active, Bin, Signed};
use ground::Refusal;

// An active index or a bin, or a refusal's number and the index 0.
#[repr(C)]
#[derive(Clone, Copy)]
pub struct SaltCarrier {
    pub number: u8,
    pub index: u16,
}

// A signed index, or a refusal's number and the index 0.
#[repr(C)]
#[derive(Clone, Copy)]
pub struct SaltSigned {
    pub number: u8,
    pub index: i16,
}

// The continual carriers, in rising active order.
#[repr(C)]
#[derive(Clone, Copy)]
pub struct SaltContinual {
    pub carriers: [u16; sizes::CONTINUAL_CARRIERS],
}

// The TPS carriers, in rising active order.
#[repr(C)]
#[derive(Clone, Copy)]
pub struct SaltTps {
    pub carriers: [u16; sizes::TPS_CARRIERS],
}

// A signed index as numbers.
fn signed_numbers_of(answer: Result<Signed, Refusal>) -> SaltSigned
    ensures { SaysSigned result answer }
{
    let (number, index) = number_and(answer.map(|signed| signed.0), 0);
    SaltSigned { number, index }
}

// An active index or a bin as numbers.
fn carrier_numbers_of(answer: Result<u16, Refusal>) -> SaltCarrier
    ensures number { result.number ≡ code (number_of answer) }
    ensures index { result.index ≡ count_of answer }
{
    let (number, index) = number_and(answer, 0);
    SaltCarrier { number, index }
}

// The signed index of an active one.
// Refusals: 1 LENGTH (past 1704).
#[unsafe(no_mangle)]
pub extern "C" fn salt_active_to_signed(active: u16) -> SaltSigned
    ensures { SaysSigned result (active_to_signed_answer mode2k active) }
{
    signed_numbers_of(carriers::active_to_signed(Active(active)))
}

// The bin of a signed index.
// Refusals: 1 LENGTH (outside -852 to 852).
#[unsafe(no_mangle)]
pub extern "C" fn salt_signed_to_bin(signed: i16) -> SaltCarrier
    ensures { SaysBin result (signed_to_bin_answer mode2k signed) }
{
    carrier_numbers_of(carriers::signed_to_bin(Signed(signed)).map(|bin| bin.0))
}

// The active index of a bin.
// Refusals: 1 LENGTH (no active carrier has this bin).
#[unsafe(no_mangle)]
pub extern "C" fn salt_bin_to_active(bin: u16) -> SaltCarrier
    ensures { SaysActive result (bin_to_active_answer mode2k bin) }
{
    carrier_numbers_of(carriers::bin_to_active(Bin(bin)).map(|active| active.0))
}

// Fills the output with the pilot sequence w from its start, a bit a byte; the bit of an active carrier stands at its
// index.
#[unsafe(no_mangle)]
pub extern "C" fn salt_wk_prbs(out: &mut [u8])
    ensures { out.new ≡ wk_from 0 (length out.old) }
{
    carriers::wk_prbs(out);
}

// The boosted pilot of a bit of the pilot sequence: +4/3 for 0 and -4/3 for 1, imaginary part +0.0.
// Refusals: 2 NOT A BIT.
#[unsafe(no_mangle)]
pub extern "C" fn salt_boosted_pilot_value(wk: u8) -> SaltMapped
    ensures { SaysBoosted result (boosted_answer wk) }
{
    point_numbers_of(carriers::boosted_pilot_value(wk))
}

// The active indices of the 45 continual carriers.
#[unsafe(no_mangle)]
pub extern "C" fn salt_continual_pilot_indices() -> SaltContinual
    ensures { result.carriers ≡ mode2k.continual }
{
    SaltContinual {
        carriers: carriers::inner::continual_pilot_indices(),
    }
}

// The bins of the 45 continual carriers.
#[unsafe(no_mangle)]
pub extern "C" fn salt_continual_pilot_bins() -> SaltContinual
    ensures { result.carriers ≡ continual_bins mode2k }
{
    SaltContinual {
        carriers: carriers::inner::continual_pilot_bins(),
    }
}

// The active indices of the 17 TPS carriers.
#[unsafe(no_mangle)]
pub extern "C" fn salt_tps_carrier_indices() -> SaltTps
    ensures { result.carriers ≡ mode2k.tps }
{
    SaltTps {
        carriers: carriers::inner::tps_carrier_indices(),
    }
}

// The bins of the 17 TPS carriers.
#[unsafe(no_mangle)]
pub extern "C" fn salt_tps_carrier_bins() -> SaltTps
    ensures { result.carriers ≡ tps_bins mode2k }
{
    SaltTps {
        carriers: carriers::inner::tps_carrier_bins(),
    }
}

// The active indices of a phase's scattered carriers: 3p, 3p + 12, .. up to 1704. Answers how many: 143 in phase 0,
// else 142.
// Refusals: 3 OUTPUT SHORT.
#[unsafe(no_mangle)]
pub extern "C" fn salt_scattered_pilot_indices(phase: usize, out: &mut [u16]) -> SaltCounted
    ensures answer { Says result (fill_answer (length (scattered mode2k (phase % 4))) out.old) }
    ensures output { out.new
        ≡ fill_leaves (length (scattered mode2k (phase % 4))) (scattered mode2k (phase % 4)) out.old }
{
    numbers_of(carriers::scattered_pilot_indices(phase, out))
}

// The bins of a phase's 1,512 data carriers, in rising active order. Answers 1,512.
// Refusals: 3 OUTPUT SHORT.
#[unsafe(no_mangle)]
pub extern "C" fn salt_data_bins(phase: usize, out: &mut [u16]) -> SaltCounted
    ensures answer { Says result (fill_answer mode2k.data_count out.old) }
    ensures output { out.new
        ≡ fill_leaves mode2k.data_count (data_bins mode2k (phase % 4)) out.old }
{
    numbers_of(carriers::data_bins(phase, out))
}

// The bins of the static grid's 1,660 data carriers, in rising active order. Answers 1,660.
// Refusals: 3 OUTPUT SHORT.
#[unsafe(no_mangle)]
pub extern "C" fn salt_static_data_bins(out: &mut [u16]) -> SaltCounted
    ensures answer { Says result (fill_answer mode2k.static_count out.old) }
    ensures output { out.new
        ≡ fill_leaves mode2k.static_count (static_bins mode2k) out.old }
{
    numbers_of(carriers::static_data_bins(out))
}

// The bins and the boosted values (176 cells) of a phase's reference pilots, in rising active order; TPS carriers
// aren't among them. Answers 176.
// Refusals: 3 OUTPUT SHORT (either).
#[unsafe(no_mangle)]
pub extern "C" fn salt_reference_pilot_bins(
    phase: usize,
    bins: &mut [u16],
    values: &mut [f32],
) -> SaltCounted
    ensures answer { Says result (reference_answer mode2k bins.old values.old) }
    ensures bins { bins.new
        ≡ reference_bins_leaves mode2k (phase % 4) bins.old values.old }
    ensures values { values.new
        ≡ reference_values_leaves mode2k (phase % 4) bins.old values.old }
{
    numbers_of(carriers::reference_pilot_bins(phase, bins, values))
}
