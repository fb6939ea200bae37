// A payload made into whitened packets, packet by packet, with the register's outputs of a group made before.
ghost use Rattle.std.specs.Prelude.{◌≡◌, ◌*◌, ◌≤◌, length};
ghost use Rattle.dispersal.specs.Inner.{xored};
ghost use Rattle.ts.specs.Packets.{count, padded, packet, packetized};
ghost use Rattle.ts.specs.Dispersal.{dispersed_packet, dispersed};

use super::outputs::GroupOutputs;
use super::{TS_PACKET_LEN, TS_PAYLOAD_LEN, TS_SYNC_BYTE, dispersing};

// Puts at most 187 bytes of payload behind a packet's first byte and zeros behind them, all whitened.
fn put_tail(outputs: &[u8], payload: &[u8], tail: &mut [u8])
    requires { (length outputs.now ≡ 187) × (length payload.now ≤ 187) × (length tail.old ≡ 187) }
    ensures { tail.new ≡ xored (padded payload.now) outputs.now }
{
    let len = payload.len();
    dispersal::inner::whiten_into(&outputs[..len], payload, &mut tail[..len]);
    tail[len..].copy_from_slice(&outputs[len..]);
}

// Makes packet i of at most 187 bytes of payload, whitened.
fn put_packet(i: usize, outputs: GroupOutputs, payload: &[u8], out: &mut [u8])
    requires { (length payload.now ≤ 187) × (length out.old ≡ 188) }
    ensures { out.new ≡ dispersed_packet i (packet payload.now) }
{
    out[0] = dispersing::sync(i, TS_SYNC_BYTE);
    put_tail(outputs.behind_sync(i), payload, &mut out[1..]);
}

// Makes the packets of a payload, whitened, each group of eight from the outputs' beginning: first the full ones, then
// one of what is left. In one loop with the last, whose length is its own, each takes a quarter longer (measured).
pub(crate) fn put_packets(outputs: GroupOutputs, payload: &[u8], out: &mut [u8])
    requires { length out.old ≡ 188 * count (length payload.now) }
    ensures { out.new ≡ dispersed (packetized payload.now) }
{
    let full = payload.len() / TS_PAYLOAD_LEN;
    // By ranges: with `chunks_exact_mut` (tried) a proof knows how long a written part is, and no byte of it.
    for i in 0..full {
        let from = TS_PAYLOAD_LEN * i;
        let to = from + TS_PAYLOAD_LEN;
        let base = TS_PACKET_LEN * i;
        let end = base + TS_PACKET_LEN;
        put_packet(i, outputs, &payload[from..to], &mut out[base..end]);
    }
    let rest = TS_PAYLOAD_LEN * full;
    let last = TS_PACKET_LEN * full;
    if last < out.len() {
        put_packet(full, outputs, &payload[rest..], &mut out[last..]);
    }
}
