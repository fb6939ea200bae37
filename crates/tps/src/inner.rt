// For the crates above: the codes of a word, cells out of a slice and bits as they are held.
ghost use Rattle.std.specs.Prelude.{◌≡◌, ◌≤◌, min, length};
ghost use Rattle.ground.specs.Cells.{flat};
ghost use Rattle.carriers.specs.Mode.{mode2k, tps_size};
ghost use Rattle.tps.specs.Codes.{constellation_of, rate_of, guard_of, codes_of, word_of};
ghost use Rattle.tps.specs.Word.{SYMBOLS};
ghost use Rattle.tps.specs.Receive.{first_cells, held_bits};

use super::TPS_SYMBOLS_PER_FRAME;
use super::word::{GuardInterval, PunctureRate, TpsWord};
use carriers::{TPS_CARRIER_COUNT, TPS_FLOATS};
use ground::{Cell, ConstellationOrder, Refusal};

// ---- the codes of a word

// The codes of a word's fields, and its frame number and cell id.
#[derive(Clone, Copy, Debug, PartialEq, Eq)]
pub struct Codes {
    pub frame: u8,
    pub constellation: u8,
    pub rate: u8,
    pub guard: u8,
    pub cell: u8,
}

impl From<TpsWord> for Codes {
    ghost from_gives = { λ word codes. codes ≡ codes_of word };

    // The codes of a word.
    fn from(word: TpsWord) -> Self {
        Codes {
            frame: word.frame_number,
            constellation: word.constellation as u8,
            rate: word.code_rate_hp as u8,
            guard: word.guard as u8,
            cell: word.cell_id,
        }
    }
}

// The constellation of a code; 3 is reserved. No `TryFrom`: the type is ground's, which knows no code.
fn constellation_from_code(code: u8) -> Result<ConstellationOrder, Refusal>
    ensures { result ≡ constellation_of code }
{
    match code {
        0 => Ok(ConstellationOrder::Qpsk),
        1 => Ok(ConstellationOrder::Qam16),
        2 => Ok(ConstellationOrder::Qam64),
        _ => Err(Refusal::Reserved),
    }
}

impl TryFrom<u8> for PunctureRate {
    type Error = Refusal;

    ghost try_from_gives = { λ code rate. rate ≡ rate_of code };

    // The rate of a code; 5, 6 and 7 are reserved.
    fn try_from(code: u8) -> Result<Self, Refusal> {
        match code {
            0 => Ok(PunctureRate::R1_2),
            1 => Ok(PunctureRate::R2_3),
            2 => Ok(PunctureRate::R3_4),
            3 => Ok(PunctureRate::R5_6),
            4 => Ok(PunctureRate::R7_8),
            _ => Err(Refusal::Reserved),
        }
    }
}

impl TryFrom<u8> for GuardInterval {
    type Error = Refusal;

    ghost try_from_gives = { λ code guard. guard ≡ guard_of code };

    // The guard interval of a code; two bits say no more than 3.
    fn try_from(code: u8) -> Result<Self, Refusal> {
        match code {
            0 => Ok(GuardInterval::G1_32),
            1 => Ok(GuardInterval::G1_16),
            2 => Ok(GuardInterval::G1_8),
            3 => Ok(GuardInterval::G1_4),
            _ => Err(Refusal::Reserved),
        }
    }
}

impl TryFrom<Codes> for TpsWord {
    type Error = Refusal;

    ghost try_from_gives = { λ codes word. word ≡ word_of codes };

    // The word that codes say, or that one of them stands for nothing.
    fn try_from(codes: Codes) -> Result<Self, Refusal> {
        Ok(TpsWord {
            frame_number: codes.frame,
            constellation: constellation_from_code(codes.constellation)?,
            code_rate_hp: PunctureRate::try_from(codes.rate)?,
            guard: GuardInterval::try_from(codes.guard)?,
            cell_id: codes.cell,
        })
    }
}

// ---- what a receiver holds

// How many symbols stand, a count above 68 counting as 68.
pub fn standing_count(count: usize) -> usize
    ensures { result ≡ min SYMBOLS count }
{
    count.min(TPS_SYMBOLS_PER_FRAME)
}

// The first cells of a slice, one for each TPS carrier. That the slice is long enough stays a clause here and at two
// more functions: as an array by `first_chunk` (tried) each caller owes a law on what stands in front.
pub fn first_cells(cells: &[f32]) -> [Cell; TPS_CARRIER_COUNT]
    requires { tps_size mode2k ≤ length cells.now }
    ensures { result ≡ first_cells mode2k.tps_count cells.now }
{
    let mut first = [Cell { re: 0.0, im: 0.0 }; TPS_CARRIER_COUNT];
    for (k, cell) in first.iter_mut().enumerate() {
        *cell = ground::inner::cell_at(cells, k);
    }
    first
}

// The floats of a receiver's previous cells, re and im of each in turn.
pub(crate) fn floats_of(cells: &[Cell; TPS_CARRIER_COUNT]) -> [f32; TPS_FLOATS]
    ensures { result ≡ flat cells.now }
{
    let mut floats = [0.0f32; TPS_FLOATS];
    for (k, cell) in cells.iter().enumerate() {
        ground::inner::put_cell(&mut floats, k, *cell);
    }
    floats
}

// The first n bits as they are held, one above 1 counting as 1, and 0 behind them; n + 127 - i is 128 or more where i
// stands.
pub fn held_bits(bits: [u8; TPS_SYMBOLS_PER_FRAME], n: usize) -> [u8; TPS_SYMBOLS_PER_FRAME]
    requires { n ≤ SYMBOLS }
    ensures { result ≡ held_bits n bits }
{
    let above = n as u8 + 127;
    let mut held = [0u8; TPS_SYMBOLS_PER_FRAME];
    for (i, bit) in bits.iter().enumerate() {
        held[i] = if *bit == 0 {
            0
        } else {
            (above - i as u8) / 128
        };
    }
    held
}
