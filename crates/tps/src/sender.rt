// The sender: the cells of a frame's symbols, one bit a symbol (EN 300 744, 4.6.3).
ghost use Rattle.std.specs.Prelude.{◌≡◌, map, ◌≤◌, length};
ghost use Rattle.ground.specs.Answer.{written};
ghost use Rattle.ground.specs.Cells.{flat};
ghost use Rattle.carriers.specs.Mode.{mode2k, tps_size};
ghost use Rattle.tps.specs.Send.{sign_cell, start_signs, fresh_encoder, signs_of, send_answer, send_leaves};

use carriers::{TPS_CARRIER_COUNT, TPS_FLOATS};
use ground::{Cell, Refusal};
use std::array;

// The mark below is a byte and no bool, because C lends and reads this very struct.

// The sender: each carrier's sign, and whether the frame's first symbol is sent, which any number but 0 says.
#[repr(C)]
#[derive(Clone, Copy)]
pub struct TpsEncoder {
    pub signs: [f32; TPS_CARRIER_COUNT],
    pub started: u8,
}

// How many cells were written, or the refusal, and the sender after the call; the clauses over C (`SaysSent`) name its
// fields.
#[derive(Clone, Copy)]
pub struct Sent {
    pub answer: Result<usize, Refusal>,
    pub encoder: TpsEncoder,
}

// The signs of w at the TPS carriers (EN 300 744, 4.6.3).
fn tps_reference_signs() -> [f32; TPS_CARRIER_COUNT]
    ensures { result ≡ start_signs mode2k }
{
    [
        1.0, -1.0, -1.0, 1.0, 1.0, 1.0, -1.0, -1.0, 1.0, 1.0, 1.0, -1.0, 1.0, 1.0, -1.0, 1.0, -1.0,
    ]
}

// The cells of the signs, written to the lent output.
fn put_signs(signs: [f32; TPS_CARRIER_COUNT], out: &mut [f32])
    requires { tps_size mode2k ≤ length out.old }
    ensures { out.new ≡ written (flat (map sign_cell signs)) out.old }
{
    for (k, re) in signs.iter().enumerate() {
        ground::inner::put_cell(out, k, Cell { re: *re, im: 0.0 });
    }
}

impl TpsEncoder {
    // A sender at the start of a frame.
    pub fn new() -> Self
        ensures { result ≡ fresh_encoder mode2k }
    {
        Self {
            signs: tps_reference_signs(),
            started: 0,
        }
    }

    // The sender at the start of a frame again.
    pub fn reset(self) -> Self
        ensures { result ≡ fresh_encoder mode2k }
    {
        Self::new()
    }

    // The signs with which the next bit is sent (EN 300 744, 4.6.3).
    fn next_signs(self, bit: u8) -> [f32; TPS_CARRIER_COUNT]
        ensures { result ≡ signs_of mode2k self bit }
    {
        if self.started == 0 {
            return tps_reference_signs();
        }
        if bit == 1 {
            return array::from_fn(|k| -self.signs[k]);
        }
        self.signs
    }

    // The cells of the next symbol, in rising active order, written to the lent output (EN 300 744, 4.6.3).
    pub fn next_symbol(self, bit: u8, out: &mut [f32]) -> Sent
        ensures answer { result ≡ send_answer mode2k self bit out.old }
        ensures output { out.new ≡ send_leaves mode2k self bit out.old }
    {
        if 1 < bit {
            return Sent {
                answer: Err(Refusal::NotABit),
                encoder: self,
            };
        }
        if out.len() < TPS_FLOATS {
            return Sent {
                answer: Err(Refusal::OutputShort),
                encoder: self,
            };
        }
        let signs = self.next_signs(bit);
        put_signs(signs, out);
        Sent {
            answer: Ok(TPS_CARRIER_COUNT),
            encoder: TpsEncoder { signs, started: 1 },
        }
    }
}
