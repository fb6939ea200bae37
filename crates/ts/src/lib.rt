// Transport packets, null packets and stuffing, and energy dispersal over packets (EN 300 744, 4.3.1).
#![tactic(auto)]

ghost use Rattle.std.specs.Prelude.{◌≡◌, ◌/◌, ◌%◌, length};
ghost use Rattle.ts.specs.Packets.{count, depacketize_answer, depacketize_leaves};
ghost use Rattle.ts.specs.Stuffing.{null, nulls, stuff_answer, stuff_leaves};
ghost use Rattle.ts.specs.Dispersal.{disperse_answer, disperse_leaves};
ghost use Rattle.ts.specs.PacketizeDispersed.{packetize_dispersed_answer, packetize_dispersed_leaves};

use ground::Refusal;
use outputs::{GroupOutputs, TS_GROUP_LEN};

mod dispersing;
mod outputs;
mod packetizing;

// A packet's length in bytes.
pub const TS_PACKET_LEN: usize = 188;
// The bytes of payload in a packet.
pub const TS_PAYLOAD_LEN: usize = 187;
// A packet's first byte.
pub const TS_SYNC_BYTE: u8 = 0x47;

// How many packets a payload of len bytes makes.
fn packets_for(len: usize) -> usize
    ensures { result ≡ count len }
{
    len.div_ceil(TS_PAYLOAD_LEN).max(1)
}

// Makes whole packets of a payload, whitened, and answers the bytes written; OUTPUT SHORT where they don't fit.
pub fn ts_packetize_dispersed(payload: &[u8], out: &mut [u8]) -> Result<usize, Refusal>
    ensures answer { result ≡ packetize_dispersed_answer payload.now out.old }
    ensures output { out.new ≡ packetize_dispersed_leaves payload.now out.old }
{
    let n = packets_for(payload.len());
    if out.len() / TS_PACKET_LEN < n {
        return Err(Refusal::OutputShort);
    }
    let made = TS_PACKET_LEN * n;
    let mut room = [0; TS_GROUP_LEN];
    let outputs = GroupOutputs::made(&mut room);
    packetizing::put_packets(outputs, payload, &mut out[..made]);
    Ok(made)
}

// Takes whole packets apart and answers the bytes written; LENGTH for none or a ragged length, OUTPUT SHORT where the
// payloads don't fit.
pub fn ts_depacketize(packets: &[u8], out: &mut [u8]) -> Result<usize, Refusal>
    ensures answer { result ≡ depacketize_answer packets.now out.old }
    ensures output { out.new ≡ depacketize_leaves packets.now out.old }
{
    let n = packets.len() / TS_PACKET_LEN;
    if packets.is_empty() {
        return Err(Refusal::Length);
    }
    if packets.len() % TS_PACKET_LEN != 0 {
        return Err(Refusal::Length);
    }
    if out.len() < TS_PAYLOAD_LEN * n {
        return Err(Refusal::OutputShort);
    }
    // By ranges: with `chunks_exact_mut` (tried) a proof knows how long a written part is, and no byte of it.
    for i in 0..n {
        let from = TS_PACKET_LEN * i + 1;
        let to = from + TS_PAYLOAD_LEN;
        let base = TS_PAYLOAD_LEN * i;
        let end = base + TS_PAYLOAD_LEN;
        ground::inner::copy(&packets[from..to], &mut out[base..end]);
    }
    Ok(TS_PAYLOAD_LEN * n)
}

// The null packet.
pub fn ts_null_packet() -> [u8; 188]
    ensures { result ≡ null }
{
    let mut packet = [0xFFu8; 188];
    packet[0] = TS_SYNC_BYTE;
    packet[1] = 0x1F;
    packet[3] = 0x10;
    packet
}

// Fills whole packets with null packets.
fn put_null_packets(out: &mut [u8])
    requires { length out.old % 188 ≡ 0 }
    ensures { out.new ≡ nulls (length out.old / 188) }
{
    let packet = ts_null_packet();
    let n = out.len() / TS_PACKET_LEN;
    // By ranges: with `chunks_exact_mut` (tried) a proof knows how long a written part is, and no byte of it.
    for i in 0..n {
        let base = TS_PACKET_LEN * i;
        let end = base + TS_PACKET_LEN;
        out[base..end].copy_from_slice(&packet);
    }
}

// Appends null packets to the packets in use, up to a target in packets, and answers the bytes then in use; LENGTH
// where those in use aren't whole packets or are more than the buffer, OUTPUT SHORT where the target doesn't fit.
pub fn ts_stuff_null_packets(ts: &mut [u8], used: usize, target: usize) -> Result<usize, Refusal>
    ensures answer { result ≡ stuff_answer used target ts.old }
    ensures buffer { ts.new ≡ stuff_leaves used target ts.old }
{
    if ts.len() < used {
        return Err(Refusal::Length);
    }
    if used % TS_PACKET_LEN != 0 {
        return Err(Refusal::Length);
    }
    if target <= used / TS_PACKET_LEN {
        return Ok(used);
    }
    if ts.len() / TS_PACKET_LEN < target {
        return Err(Refusal::OutputShort);
    }
    let end = TS_PACKET_LEN * target;
    put_null_packets(&mut ts[used..end]);
    Ok(end)
}

// Whitens whole packets where they stand, or undoes it, and answers how many they are; LENGTH for a ragged length.
pub fn ts_energy_disperse(packets: &mut [u8]) -> Result<usize, Refusal>
    ensures answer { result ≡ disperse_answer packets.old }
    ensures buffer { packets.new ≡ disperse_leaves packets.old }
{
    let n = packets.len() / TS_PACKET_LEN;
    if packets.len() % TS_PACKET_LEN != 0 {
        return Err(Refusal::Length);
    }
    let mut room = [0; TS_GROUP_LEN];
    let outputs = GroupOutputs::made(&mut room);
    dispersing::disperse_packets(outputs, packets);
    Ok(n)
}
