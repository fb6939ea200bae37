// The cases of transport packets and of the whitener.
ghost use Rattle.std.specs.Prelude.{◌≤◌, length};

use dispersal::DvbTEnergyDispersal;
use ground::Refusal;
use stored::inner::Room;

// ts_null_packet.
pub(crate) fn null(room: &mut Room) -> Result<usize, Refusal> {
    let packet = ts::ts_null_packet();
    Ok(stored::inner::lay(&packet, 0, room))
}

// ts_stuff_null_packets.
pub(crate) fn stuff(target: usize, input: &[u8], room: &mut Room) -> Result<usize, Refusal>
    requires { length input.now ≤ 16384 }
{
    stored::inner::lay(input, 0, room);
    ts::ts_stuff_null_packets(room, input.len(), target)
}

// ts_energy_disperse.
pub(crate) fn disperse(input: &[u8], room: &mut Room) -> Result<usize, Refusal>
    requires { length input.now ≤ 16384 }
{
    let laid = stored::inner::lay(input, 0, room);
    let _ = ts::ts_energy_disperse(&mut room[..input.len()]);
    Ok(laid)
}

// The whitener moved over a number of bytes.
fn moved(bytes: usize) -> DvbTEnergyDispersal {
    let mut whitener = DvbTEnergyDispersal::new();
    for _i in 0..bytes {
        whitener = whitener.advance_byte();
    }
    whitener
}

// DvbTEnergyDispersal: bytes whitened behind a number of others.
pub(crate) fn whiten(before: usize, input: &[u8], room: &mut Room) -> Result<usize, Refusal> {
    moved(before).feed(input, room).answer
}
