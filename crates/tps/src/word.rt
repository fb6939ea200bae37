// The word: the parameters that a frame signals, packed into 68 bits and unpacked (EN 300 744, 4.6.2).
ghost use Rattle.std.specs.Prelude.{◌≡◌, ◌-◌, ◌≤◌, ◌<◌, length, take, drop};
ghost use Rattle.ground.specs.Bits.{Bits};
ghost use Rattle.ground.specs.Digits.{value_of};
ghost use Rattle.tps.specs.Word.{sync_of, information_of, codes_in};
ghost use Rattle.tps.specs.Packing.{pack_answer, pack_leaves, Unpacks};

use super::TPS_SYMBOLS_PER_FRAME;
use super::inner::Codes;
use bch::{Decoder, Mended};
use ground::{ConstellationOrder, Refusal};

// The rate of the inner code, by its 3-bit code (EN 300 744, 4.6.2.7).
#[derive(Clone, Copy, Debug, PartialEq, Eq)]
pub enum PunctureRate {
    R1_2 = 0,
    R2_3 = 1,
    R3_4 = 2,
    R5_6 = 3,
    R7_8 = 4,
}

// The guard interval, as a part of the symbol, by its 2-bit code (EN 300 744, 4.6.2.8).
#[derive(Clone, Copy, Debug, PartialEq, Eq)]
pub enum GuardInterval {
    G1_32 = 0,
    G1_16 = 1,
    G1_8 = 2,
    G1_4 = 3,
}

// The parameters that a frame signals (EN 300 744, 4.6.2).
#[derive(Clone, Copy, Debug, PartialEq, Eq)]
pub struct TpsWord {
    pub frame_number: u8,
    pub constellation: ConstellationOrder,
    pub code_rate_hp: PunctureRate,
    pub guard: GuardInterval,
    pub cell_id: u8,
}

// A word and the bits of s1..s67 that were changed to read it, place i being s(i+1).
#[derive(Clone, Copy, Debug, PartialEq, Eq)]
pub struct MendedWord {
    pub word: TpsWord,
    pub mended: Mended,
}

// The synchronization word of a frame (EN 300 744, 4.6.2.2).
fn sync_word(frame_number: u8) -> u64
    ensures { (result ≡ sync_of frame_number) × (result < 65536) }
{
    if frame_number % 2 == 0 {
        0x35EE
    } else {
        0xCA11
    }
}

// The number that the bits from one place up to another say.
fn field(information: &[u8], from: usize, to: usize) -> u8
    requires { Bits information.now × (length information.now ≡ 53)
        × (from ≤ to) × (to ≤ 53) × (to - from ≤ 8) }
    ensures { result ≡ value_of 0 (take (to - from) (drop from information.now)) }
{
    ground::inner::packed(&information[from..to]) as u8
}

// The codes of the fields that unpacking reads (EN 300 744, 4.6.2, table 9).
fn read_codes(information: &[u8]) -> Codes
    requires { Bits information.now × (length information.now ≡ 53) }
    ensures { result ≡ codes_in information.now }
{
    Codes {
        frame: field(information, 22, 24),
        constellation: field(information, 24, 26),
        rate: field(information, 29, 32),
        guard: field(information, 35, 37),
        cell: field(information, 39, 47),
    }
}

impl TpsWord {
    // The bits s1..s53 as one number (EN 300 744, 4.6.2, table 9).
    fn information(self) -> u64
        ensures { result ≡ value_of 0 (information_of self) }
    {
        let codes = Codes::from(self);
        let frame = (sync_word(codes.frame) * 64 + 31) * 4 + u64::from(codes.frame % 4);
        let points = frame * 4 + u64::from(codes.constellation);
        let rate = (points * 64 + u64::from(codes.rate)) * 8;
        let cell = (rate * 4 + u64::from(codes.guard)) * 1024 + u64::from(codes.cell);
        cell * 64
    }

    // The 68 bits s0..s67 of the word, written to the lent output (EN 300 744, 4.6.2).
    pub fn pack(self, out: &mut [u8]) -> Result<usize, Refusal>
        ensures answer { result ≡ pack_answer out.old }
        ensures output { out.new ≡ pack_leaves self out.old }
    {
        if out.len() < TPS_SYMBOLS_PER_FRAME {
            return Err(Refusal::OutputShort);
        }
        let information = self.information();
        let parity = bch::inner::parity_of(information);
        out[0] = 0;
        ground::inner::put_digits(information, &mut out[1..54]);
        ground::inner::put_digits(parity, &mut out[54..TPS_SYMBOLS_PER_FRAME]);
        Ok(TPS_SYMBOLS_PER_FRAME)
    }

    // The word of the codeword within distance two of s1..s67, and the bits that were changed, by either decoder
    // (EN 300 744, 4.6.2).
    pub fn unpack_by(decoder: Decoder, bits: &[u8]) -> Result<MendedWord, Refusal>
        ensures { Unpacks bits.now result }
    {
        if bits.len() != TPS_SYMBOLS_PER_FRAME {
            return Err(Refusal::Length);
        }
        if 1 < bits[0] {
            return Err(Refusal::NotABit);
        }
        let code = &bits[1..];
        if !ground::inner::all_bits(code) {
            return Err(Refusal::NotABit);
        }
        let mut information = [0u8; 53];
        let mended = bch::tps_bch_decode_by(decoder, code, &mut information)?;
        let word = TpsWord::try_from(read_codes(&information))?;
        Ok(MendedWord { word, mended })
    }

    // The same by the fast decoder.
    pub fn unpack(bits: &[u8]) -> Result<MendedWord, Refusal>
        ensures { Unpacks bits.now result }
    {
        TpsWord::unpack_by(Decoder::Fast, bits)
    }
}
