// The cases of TPS's sender and receiver: the 17 cells of a symbol stand as 34 floats, re and im of each in turn.
ghost use Rattle.std.specs.Prelude.{◌<◌};

use ground::Refusal;
use stored::inner::Room;
use tps::{TpsDecoder, TpsEncoder};

// The sender after a bit, whose cells are laid as symbol k.
fn sent(encoder: TpsEncoder, bit: u8, k: usize, room: &mut Room) -> TpsEncoder
    requires { k < 68 }
{
    let mut cells = [0.5f32; 34];
    let sent = encoder.next_symbol(bit, &mut cells);
    stored::inner::lay_floats(&cells, 136 * k, room);
    sent.encoder
}

// TpsEncoder: the cells of a run of bits from a new sender, where they have room.
pub(crate) fn send(input: &[u8], room: &mut Room) -> Option<Result<usize, Refusal>> {
    if 68 < input.len() {
        return None;
    }
    let mut encoder = TpsEncoder::new();
    for (k, bit) in input.iter().enumerate() {
        encoder = sent(encoder, *bit, k, room);
    }
    Some(Ok(136 * input.len()))
}

// TpsDecoder: the bits of a run of whole symbols' cells into a new receiver.
pub(crate) fn receive(input: &[u8], room: &mut Room) -> Option<Result<usize, Refusal>> {
    if input.len() % 136 != 0 {
        return None;
    }
    let mut decoder = TpsDecoder::new();
    for symbol in input.chunks_exact(136) {
        let cells = stored::inner::floats_at(symbol, 0);
        decoder = decoder.feed_symbol(&cells).decoder;
    }
    Some(decoder.bits(room))
}
