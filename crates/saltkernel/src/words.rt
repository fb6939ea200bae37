// The TPS word (4.6.2).
ghost use Rattle.std.specs.Prelude.{◌≡◌};
ghost use Rattle.tps.specs.Codes.{codes_of};
ghost use Rattle.tps.specs.Packing.{Unpacks};
ghost use Rattle.saltkernel.specs.Numbers.{Says};
ghost use Rattle.saltkernel.specs.Words.{codes_for, word_in, pack_answer, pack_leaves, SaysUnpacked, SaysOneThat};

use super::sizes::{NO_PLACE, TPS_WORD_BITS};
use super::{SaltCounted, numbers_of};
use ground::Refusal;
use tps::inner::Codes;
use tps::{MendedWord, TpsWord};

// The parameters that a frame signals; constellation, rate and guard interval by their codes.
#[repr(C)]
#[derive(Clone, Copy)]
pub struct SaltTpsWord {
    pub frame_number: u8, // its low two bits are sent
    pub constellation: u8, // 0 QPSK, 1 16-QAM, 2 64-QAM
    pub code_rate_hp: u8, // 0 to 4 for 1/2, 2/3, 3/4, 5/6, 7/8
    pub guard: u8, // 0 to 3 for 1/32, 1/16, 1/8, 1/4
    pub cell_id: u8,
}

// A word and the bits that were changed to read it, or a refusal's number, zeros and no place.
#[repr(C)]
#[derive(Clone, Copy)]
pub struct SaltUnpacked {
    pub number: u8,
    pub word: SaltTpsWord,
    pub mended: u8, // how many of s1 to s67 were changed, 0 to 2
    pub first: u8, // their places, rising, from 0 for s1 to 66 for s67, or SALT_NO_PLACE
    pub second: u8,
}

impl From<TpsWord> for SaltTpsWord {
    ghost from_gives = { λ word codes. codes ≡ codes_for (codes_of word) };

    // The codes of a word.
    fn from(word: TpsWord) -> Self {
        let codes = Codes::from(word);
        SaltTpsWord {
            frame_number: codes.frame,
            constellation: codes.constellation,
            code_rate_hp: codes.rate,
            guard: codes.guard,
            cell_id: codes.cell,
        }
    }
}

impl TryFrom<SaltTpsWord> for TpsWord {
    type Error = Refusal;

    ghost try_from_gives = { λ codes word. word ≡ word_in codes };

    // The word that codes say, or that one of them stands for nothing.
    fn try_from(word: SaltTpsWord) -> Result<Self, Refusal> {
        TpsWord::try_from(Codes {
            frame: word.frame_number,
            constellation: word.constellation,
            rate: word.code_rate_hp,
            guard: word.guard,
            cell: word.cell_id,
        })
    }
}

// A word and its mended bits as numbers.
pub(crate) fn unpacked_numbers_of(answer: Result<MendedWord, Refusal>) -> SaltUnpacked
    ensures { SaysUnpacked result answer }
{
    match answer {
        Ok(MendedWord { word, mended }) => SaltUnpacked {
            number: 0,
            word: SaltTpsWord::from(word),
            mended: mended.count,
            first: mended.first,
            second: mended.second,
        },
        Err(refusal) => SaltUnpacked {
            number: u8::from(refusal),
            word: SaltTpsWord {
                frame_number: 0,
                constellation: 0,
                code_rate_hp: 0,
                guard: 0,
                cell_id: 0,
            },
            mended: 0,
            first: NO_PLACE,
            second: NO_PLACE,
        },
    }
}

// The 68 bits of the word that codes say, written to the lent output.
fn packed(word: SaltTpsWord, out: &mut [u8]) -> Result<usize, Refusal>
    ensures answer { result ≡ pack_answer word out.old }
    ensures output { out.new ≡ pack_leaves word out.old }
{
    if out.len() < TPS_WORD_BITS {
        return Err(Refusal::OutputShort);
    }
    TpsWord::try_from(word)?.pack(out)
}

// The 68 bits s0 to s67 of a word: s0 is zero, then the codeword, whose s33 to s35 are 000. Answers 68.
// Refusals: 3 OUTPUT SHORT, 5 RESERVED (constellation above 2, rate above 4 or guard above 3).
#[unsafe(no_mangle)]
pub extern "C" fn salt_tps_word_pack(word: SaltTpsWord, out: &mut [u8]) -> SaltCounted
    ensures answer { Says result (pack_answer word out.old) }
    ensures output { out.new ≡ pack_leaves word out.old }
{
    numbers_of(packed(word, out))
}

// The word that 68 received bits s0 to s67 say, with up to two wrong bits mended; s0 is ignored. The frame number is 0
// to 3.
// Refusals: 1 LENGTH (not 68), 2 NOT A BIT, 4 NO WORD, 5 RESERVED.
#[unsafe(no_mangle)]
pub extern "C" fn salt_tps_word_unpack(bits: &[u8]) -> SaltUnpacked
    ensures { SaysOneThat (Unpacks bits.now) result }
{
    unpacked_numbers_of(TpsWord::unpack(bits))
}
