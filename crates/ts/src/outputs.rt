// The register's outputs over a group of eight packets, made once a call.
ghost use Rattle.std.specs.Prelude.{◌≡◌};
ghost use Rattle.dispersal.specs.Register.{start};
ghost use Rattle.dispersal.specs.Inner.{stream};
ghost use Rattle.ts.specs.Dispersal.{register_at};

use super::{TS_PACKET_LEN, TS_PAYLOAD_LEN};

// The packets of a group: at the first of them the register restarts.
pub(crate) const TS_DISPERSAL_GROUP: usize = 8;
// The bytes of a group.
pub(crate) const TS_GROUP_LEN: usize = TS_PACKET_LEN * TS_DISPERSAL_GROUP;

// The register's outputs from the beginning of a group to its end, eight a byte, in the memory of a caller.
#[derive(Clone, Copy)]
pub(crate) struct GroupOutputs<'a> {
    bytes: &'a [u8],
    ghost from_start: { bytes.now ≡ stream 1504 start },
}

impl GroupOutputs<'_> {
    // The outputs, made in room for them.
    pub(crate) fn made(room: &mut [u8; TS_GROUP_LEN]) -> GroupOutputs<'_> {
        dispersal::inner::fill_outputs(room);
        GroupOutputs { bytes: room }
    }

    // The outputs for what is behind the first byte of packet i.
    pub(crate) fn behind_sync(&self, i: usize) -> &[u8]
        ensures { result.now ≡ stream 187 (register_at i) }
    {
        let from = TS_PACKET_LEN * (i % TS_DISPERSAL_GROUP);
        let to = from + TS_PAYLOAD_LEN;
        &self.bytes[from..to]
    }
}
