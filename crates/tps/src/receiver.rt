// The receiver: the bits of a frame's symbols, and the word of 68 of them (EN 300 744, 4.6.3).
// C reads and writes a `TpsDecoder`, and lends its parts, so its bits stand beside their count.
ghost use Rattle.std.specs.Prelude.{◌≡◌, leb};
ghost use Rattle.carriers.specs.Mode.{mode2k};
ghost use Rattle.tps.specs.Word.{SYMBOLS};
ghost use Rattle.tps.specs.Receive.{fresh_decoder, feed_answer, bits_answer, bits_leaves, Words};

use super::word::{MendedWord, TpsWord};
use super::{TPS_SYMBOLS_PER_FRAME, inner, lent};
use carriers::TPS_CARRIER_COUNT;
use ground::{Cell, Refusal};

// The receiver: the previous symbol's cells, the bits, and how many symbols stand. A count above 68 is read as 68, and
// a held bit above 1 as 1, which a feed makes it; it makes bits that don't stand 0.
#[repr(C)]
#[derive(Clone, Copy)]
pub struct TpsDecoder {
    pub prev: [Cell; TPS_CARRIER_COUNT],
    pub bits: [u8; TPS_SYMBOLS_PER_FRAME],
    pub count: usize,
}

// The bit of a symbol, or the refusal, and the receiver after the call; the clauses over C (`SaysFed`) name its fields.
#[derive(Clone, Copy)]
pub struct Fed {
    pub answer: Result<u8, Refusal>,
    pub decoder: TpsDecoder,
}

impl TpsDecoder {
    // A receiver at the start of a frame.
    pub fn new() -> Self
        ensures { result ≡ fresh_decoder mode2k }
    {
        Self {
            prev: [Cell { re: 0.0, im: 0.0 }; TPS_CARRIER_COUNT],
            bits: [0u8; TPS_SYMBOLS_PER_FRAME],
            count: 0,
        }
    }

    // The receiver at the start of a frame again.
    pub fn reset(self) -> Self
        ensures { result ≡ fresh_decoder mode2k }
    {
        Self::new()
    }

    // The bit of one symbol's cells, re and im in turn, in rising active order (EN 300 744, 4.6.3). By the lent feed on
    // parts of a copy it would be slower (measured).
    pub fn feed_symbol(self, cells: &[f32]) -> Fed
        ensures { result ≡ feed_answer mode2k self cells.now }
    {
        let count = self.count;
        let answer = lent::next_bit(count, cells, &inner::floats_of(&self.prev));
        let Ok(bit) = answer else {
            return Fed {
                answer,
                decoder: self,
            };
        };
        let prev = inner::first_cells(cells);
        let mut bits = inner::held_bits(self.bits, count);
        bits[count] = bit;
        Fed {
            answer,
            decoder: TpsDecoder {
                prev,
                bits,
                count: count + 1,
            },
        }
    }

    // Whether 68 symbols stand.
    pub fn is_complete(self) -> bool
        ensures { result ≡ leb SYMBOLS self.count }
    {
        TPS_SYMBOLS_PER_FRAME <= self.count
    }

    // The received bits s0.., one for each symbol that stands, written to the lent output.
    pub fn bits(self, out: &mut [u8]) -> Result<usize, Refusal>
        ensures answer { result ≡ bits_answer self out.old }
        ensures output { out.new ≡ bits_leaves self out.old }
    {
        let standing = inner::standing_count(self.count);
        if out.len() < standing {
            return Err(Refusal::OutputShort);
        }
        let held = inner::held_bits(self.bits, TPS_SYMBOLS_PER_FRAME);
        out[..standing].copy_from_slice(&held[..standing]);
        Ok(standing)
    }

    // The word of 68 received bits.
    pub fn word(self) -> Result<MendedWord, Refusal>
        ensures { Words self result }
    {
        if self.count < TPS_SYMBOLS_PER_FRAME {
            return Err(Refusal::Incomplete);
        }
        TpsWord::unpack(&inner::held_bits(self.bits, TPS_SYMBOLS_PER_FRAME))
    }
}
