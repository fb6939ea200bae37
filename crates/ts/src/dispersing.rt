// Energy dispersal, packet by packet, with the register's outputs of a group made before.
ghost use Rattle.std.specs.Prelude.{◌≡◌, ◌%◌, length};
ghost use Rattle.dispersal.specs.Inner.{stream};
ghost use Rattle.ts.specs.Dispersal.{register_at, sync, dispersed_packet, dispersed};

use super::TS_PACKET_LEN;
use super::outputs::{GroupOutputs, TS_DISPERSAL_GROUP};

// The first byte of packet i: flipped at the first place of a group.
pub(crate) fn sync(i: usize, byte: u8) -> u8
    ensures { result ≡ sync i byte }
{
    if i % TS_DISPERSAL_GROUP == 0 {
        byte ^ 0xFF
    } else {
        byte
    }
}

// Disperses packet i.
fn disperse_packet(i: usize, outputs: GroupOutputs, packet: &mut [u8])
    requires { length packet.old ≡ 188 }
    ensures { packet.new ≡ dispersed_packet i packet.old }
{
    packet[0] = sync(i, packet[0]);
    dispersal::inner::whiten(outputs.behind_sync(i), &mut packet[1..]);
}

// Disperses whole packets, each group of eight from the outputs' beginning.
pub(crate) fn disperse_packets(outputs: GroupOutputs, packets: &mut [u8])
    requires { length packets.old % 188 ≡ 0 }
    ensures { packets.new ≡ dispersed packets.old }
{
    let n = packets.len() / TS_PACKET_LEN;
    // By ranges: with `chunks_exact_mut` (tried) a proof knows how long a written part is, and no byte of it.
    for i in 0..n {
        let base = TS_PACKET_LEN * i;
        let end = base + TS_PACKET_LEN;
        disperse_packet(i, outputs, &mut packets[base..end]);
    }
}
