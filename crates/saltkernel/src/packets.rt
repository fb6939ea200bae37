// Transport packets, and energy dispersal over them (4.3.1).
ghost use Rattle.std.specs.Prelude.{◌≡◌};
ghost use Rattle.ts.specs.Packets.{depacketize_answer, depacketize_leaves};
ghost use Rattle.ts.specs.Stuffing.{null, stuff_answer, stuff_leaves};
ghost use Rattle.ts.specs.Dispersal.{disperse_answer, disperse_leaves};
ghost use Rattle.ts.specs.PacketizeDispersed.{packetize_dispersed_answer, packetize_dispersed_leaves};
ghost use Rattle.saltkernel.specs.Numbers.{Says};

use super::{SaltCounted, numbers_of, sizes};

// The bytes of a packet.
#[repr(C)]
#[derive(Clone, Copy)]
pub struct SaltPacket {
    pub bytes: [u8; sizes::PACKET_BYTES],
}

// Puts a payload into packets and whitens them: each is 0x47 and 187 bytes of the payload, the last one filled with
// zeros, and then what salt_ts_energy_disperse makes of it, so that nothing is sent clear. An empty payload gives one
// packet. Answers the bytes written, 188 max(1, ceil(payload_length / 187)).
// Refusals: 3 OUTPUT SHORT.
#[unsafe(no_mangle)]
pub extern "C" fn salt_ts_packetize_dispersed(payload: &[u8], out: &mut [u8]) -> SaltCounted
    ensures answer { Says result (packetize_dispersed_answer payload.now out.old) }
    ensures output { out.new ≡ packetize_dispersed_leaves payload.now out.old }
{
    numbers_of(ts::ts_packetize_dispersed(payload, out))
}

// Takes packets apart: the 187 bytes behind each first byte, which isn't checked. Answers the bytes written, 187 a
// packet.
// Refusals: 1 LENGTH (no byte, or not whole packets), 3 OUTPUT SHORT.
#[unsafe(no_mangle)]
pub extern "C" fn salt_ts_depacketize(packets: &[u8], out: &mut [u8]) -> SaltCounted
    ensures answer { Says result (depacketize_answer packets.now out.old) }
    ensures output { out.new ≡ depacketize_leaves packets.now out.old }
{
    numbers_of(ts::ts_depacketize(packets, out))
}

// The null packet: 47 1F FF 10, then 184 bytes FF.
#[unsafe(no_mangle)]
pub extern "C" fn salt_ts_null_packet() -> SaltPacket
    ensures { result.bytes ≡ null }
{
    let bytes = ts::ts_null_packet();
    SaltPacket { bytes }
}

// Writes null packets behind the `used` bytes in use at the front of the buffer, up to a target in packets; a target
// at or below what is there writes nothing. The null packets are clear, as those in use have to be: whitened ones are
// whitened again first, and all of them behind it. Answers the bytes then in use.
// Refusals: 1 LENGTH (used is past the buffer, or not whole packets), 3 OUTPUT SHORT (the target is past the buffer).
#[unsafe(no_mangle)]
pub extern "C" fn salt_ts_stuff_null_packets(
    ts: &mut [u8],
    used: usize,
    target: usize,
) -> SaltCounted
    ensures answer { Says result (stuff_answer used target ts.old) }
    ensures buffer { ts.new ≡ stuff_leaves used target ts.old }
{
    numbers_of(ts::ts_stuff_null_packets(ts, used, target))
}

// Whitens packets in place, or gives whitened ones back: in every group of eight the register restarts at the first
// packet, whose first byte is XORed with 0xFF; the other first bytes stay. Answers the packets; an empty buffer has 0.
// Refusals: 1 LENGTH (not whole packets).
#[unsafe(no_mangle)]
pub extern "C" fn salt_ts_energy_disperse(packets: &mut [u8]) -> SaltCounted
    ensures answer { Says result (disperse_answer packets.old) }
    ensures buffer { packets.new ≡ disperse_leaves packets.old }
{
    numbers_of(ts::ts_energy_disperse(packets))
}
