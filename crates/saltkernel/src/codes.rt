// The code of the TPS words (4.6.2.11).
ghost use Rattle.std.specs.Prelude.{◌≡◌};
ghost use Rattle.bch.specs.Promise.{encode_answer, encode_leaves};
ghost use Rattle.saltkernel.specs.Numbers.{Says};
ghost use Rattle.saltkernel.specs.Codes.{SaysDecoded, DecodesAs};

use super::sizes::{NO_PLACE, TPS_INFORMATION_BITS};
use super::{SaltCounted, numbers_of};
use bch::{Decoder, Mended};
use ground::Refusal;

// A count of information bits and the bits that were changed, or a refusal's number, the counts 0 and no place.
#[repr(C)]
#[derive(Clone, Copy)]
pub struct SaltDecoded {
    pub number: u8,
    pub mended: u8, // how many of the 67 bits were changed, 0 to 2
    pub first: u8, // their places, 0 to 66 and rising, or SALT_NO_PLACE
    pub second: u8,
    pub count: usize,
}

// An answer of the decoder as numbers.
fn decoded_numbers_of(answer: Result<Mended, Refusal>) -> SaltDecoded
    ensures { SaysDecoded result answer }
{
    match answer {
        Ok(mended) => SaltDecoded {
            number: 0,
            mended: mended.count,
            first: mended.first,
            second: mended.second,
            count: TPS_INFORMATION_BITS,
        },
        Err(refusal) => SaltDecoded {
            number: u8::from(refusal),
            mended: 0,
            first: NO_PLACE,
            second: NO_PLACE,
            count: 0,
        },
    }
}

// The codeword of 53 information bits: these, then 14 bits of parity. Answers 67.
// Refusals: 1 LENGTH (not 53), 2 NOT A BIT, 3 OUTPUT SHORT.
#[unsafe(no_mangle)]
pub extern "C" fn salt_tps_bch_encode(info: &[u8], out: &mut [u8]) -> SaltCounted
    ensures answer { Says result (encode_answer info.now out.old) }
    ensures output { out.new ≡ encode_leaves info.now out.old }
{
    numbers_of(bch::tps_bch_encode(info, out))
}

// The 53 information bits of the codeword within distance two of 67 bits. Answers 53, and the bits that were changed.
// Refusals: 1 LENGTH (not 67), 2 NOT A BIT, 3 OUTPUT SHORT, 4 NO WORD.
#[unsafe(no_mangle)]
pub extern "C" fn salt_tps_bch_decode(code: &[u8], out: &mut [u8]) -> SaltDecoded
    ensures { DecodesAs code.now out.old result out.new }
{
    decoded_numbers_of(bch::tps_bch_decode_by(Decoder::Fast, code, out))
}

// The same by the slow decoder, which tries the bits as they are, each single change and each pair.
// Refusals: 1 LENGTH (not 67), 2 NOT A BIT, 3 OUTPUT SHORT, 4 NO WORD.
#[unsafe(no_mangle)]
pub extern "C" fn salt_tps_bch_decode_slow(code: &[u8], out: &mut [u8]) -> SaltDecoded
    ensures { DecodesAs code.now out.old result out.new }
{
    decoded_numbers_of(bch::tps_bch_decode_by(Decoder::Slow, code, out))
}
