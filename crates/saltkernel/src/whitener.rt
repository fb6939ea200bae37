// The whitener of energy dispersal (4.3.1).
ghost use Rattle.std.specs.Prelude.{◌≡◌};
ghost use Rattle.dispersal.specs.Register.{start, steps};
ghost use Rattle.dispersal.specs.Whitener.{register_of, feed_in_place_answer, feed_in_place_leaves};
ghost use Rattle.dispersal.specs.Whitener.{feed_answer, feed_leaves};
ghost use Rattle.saltkernel.specs.Numbers.{SaysWhitened};

use super::{SaltCounted, numbers_of};
use dispersal::{DvbTEnergyDispersal, Fed};

// A whitener, and the count or the refusal.
#[repr(C)]
#[derive(Clone, Copy)]
pub struct SaltFed {
    pub whitener: DvbTEnergyDispersal,
    pub answer: SaltCounted,
}

impl From<Fed> for SaltFed {
    ghost from_gives = { λ fed result. SaysWhitened result fed };

    fn from(fed: Fed) -> Self {
        Self {
            whitener: fed.whitener,
            answer: numbers_of(fed.answer),
        }
    }
}

// A whitener at the start, register 0x4A80.
#[unsafe(no_mangle)]
pub extern "C" fn salt_dvb_t_energy_dispersal_new() -> DvbTEnergyDispersal
    ensures { result.reg ≡ start }
{
    DvbTEnergyDispersal::new()
}

// The whitener at the start again.
#[unsafe(no_mangle)]
pub extern "C" fn salt_dvb_t_energy_dispersal_reset(
    whitener: DvbTEnergyDispersal,
) -> DvbTEnergyDispersal
    ensures { result.reg ≡ start }
{
    whitener.reset()
}

// The whitener eight steps on, as over a byte that stays as it is.
#[unsafe(no_mangle)]
pub extern "C" fn salt_dvb_t_energy_dispersal_advance_byte(
    whitener: DvbTEnergyDispersal,
) -> DvbTEnergyDispersal
    ensures { result.reg ≡ steps 8 (register_of whitener) }
{
    whitener.advance_byte()
}

// Whitens bytes in place, high bit first, and returns the whitener behind them.
#[unsafe(no_mangle)]
pub extern "C" fn salt_dvb_t_energy_dispersal_feed_in_place(
    whitener: DvbTEnergyDispersal,
    bytes: &mut [u8],
) -> DvbTEnergyDispersal
    ensures answer { result ≡ feed_in_place_answer whitener bytes.old }
    ensures bytes { bytes.new ≡ feed_in_place_leaves whitener bytes.old }
{
    whitener.feed_in_place(bytes)
}

// Whitens bytes into an output. Answers the bytes written and the whitener behind them.
// Refusals: 3 OUTPUT SHORT.
#[unsafe(no_mangle)]
pub extern "C" fn salt_dvb_t_energy_dispersal_feed(
    whitener: DvbTEnergyDispersal,
    bytes: &[u8],
    out: &mut [u8],
) -> SaltFed
    ensures fed { SaysWhitened result (feed_answer whitener bytes.now out.old) }
    ensures out { out.new ≡ feed_leaves whitener bytes.now out.old }
{
    whitener.feed(bytes, out).into()
}
