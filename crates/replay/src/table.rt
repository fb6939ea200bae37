// The table: the functions that are replayed, their names, as the lines and the report have them, and their cases.
ghost use Rattle.std.specs.Prelude.{◌≤◌, length};

use crate::{constellation, packets, sessions, signals, symbols, words};
use ground::Refusal;
use std::io;
use std::io::Print;
use stored::inner::Room;

// A function that is replayed.
#[derive(Clone, Copy, Debug, PartialEq, Eq)]
pub(crate) enum Function {
    PacketizeDispersed,
    Depacketize,
    NullPacket,
    StuffNullPackets,
    EnergyDisperse,
    EnergyDispersal,
    MapSymbol,
    DemapSymbol,
    SoftLlr,
    BchEncode,
    BchDecode,
    WordPack,
    WordUnpack,
    Encoder,
    Decoder,
    Extractor,
    Mapper,
    Session,
}

impl Function {
    // All functions, in the order of the report.
    const ALL: [Function; 18] = [
        Function::PacketizeDispersed,
        Function::Depacketize,
        Function::NullPacket,
        Function::StuffNullPackets,
        Function::EnergyDisperse,
        Function::EnergyDispersal,
        Function::MapSymbol,
        Function::DemapSymbol,
        Function::SoftLlr,
        Function::BchEncode,
        Function::BchDecode,
        Function::WordPack,
        Function::WordUnpack,
        Function::Encoder,
        Function::Decoder,
        Function::Extractor,
        Function::Mapper,
        Function::Session,
    ];

    // The name, in 24 columns.
    fn name(self) -> &'static [u8; 24] {
        match self {
            Function::PacketizeDispersed => b"ts_packetize_dispersed  ",
            Function::Depacketize => b"ts_depacketize          ",
            Function::NullPacket => b"ts_null_packet          ",
            Function::StuffNullPackets => b"ts_stuff_null_packets   ",
            Function::EnergyDisperse => b"ts_energy_disperse      ",
            Function::EnergyDispersal => b"DvbTEnergyDispersal     ",
            Function::MapSymbol => b"dvb_t_map_symbol        ",
            Function::DemapSymbol => b"dvb_t_demap_symbol      ",
            Function::SoftLlr => b"dvb_t_soft_llr          ",
            Function::BchEncode => b"tps_bch_encode          ",
            Function::BchDecode => b"tps_bch_decode          ",
            Function::WordPack => b"TpsWord::pack           ",
            Function::WordUnpack => b"TpsWord::unpack         ",
            Function::Encoder => b"TpsEncoder              ",
            Function::Decoder => b"TpsDecoder              ",
            Function::Extractor => b"ScatteredPilotExtractor ",
            Function::Mapper => b"ScatteredPilotMapper    ",
            Function::Session => b"Session                 ",
        }
    }

    // The function of a name, where there is one.
    pub(crate) fn named(name: &[u8]) -> Option<Function> {
        let all = Function::ALL;
        all.iter()
            .copied()
            .find(|function| function.name().as_slice() == name)
    }

    // The answer of the function, where it can be called on the input; the bytes that it gives are laid at the front of
    // the room. The arms take different arguments, so that they are no table of functions; an
    // input and a room go as two, since a type of both would be made for one call each.
    pub(crate) fn answer(
        self,
        number: usize,
        input: &[u8],
        room: &mut Room,
    ) -> Option<Result<usize, Refusal>>
        requires { length input.now ≤ 16384 }
    {
        let answer = match self {
            Function::PacketizeDispersed => ts::ts_packetize_dispersed(input, room),
            Function::Depacketize => ts::ts_depacketize(input, room),
            Function::NullPacket => packets::null(room),
            Function::StuffNullPackets => packets::stuff(number, input, room),
            Function::EnergyDisperse => packets::disperse(input, room),
            Function::EnergyDispersal => packets::whiten(number, input, room),
            Function::MapSymbol => constellation::map(input, room),
            Function::DemapSymbol => return constellation::demap(number, input, room),
            Function::SoftLlr => return constellation::soft(number, input, room),
            Function::BchEncode => bch::tps_bch_encode(input, room),
            Function::BchDecode => words::decode(input, room),
            Function::WordPack => return words::pack(input, room),
            Function::WordUnpack => words::unpack(input, room),
            Function::Encoder => return signals::send(input, room),
            Function::Decoder => return signals::receive(input, room),
            Function::Extractor => symbols::extract(number, room),
            Function::Mapper => symbols::map(number, room),
            Function::Session => sessions::session(input, room),
        };
        Some(answer)
    }
}

// What a line of the list is found to be: met, or, where it is wrong on purpose, found different, or gone wrong.
#[derive(Clone, Copy, Debug, PartialEq, Eq)]
pub(crate) enum Row {
    Met(Function),
    Turned,
    Wrong,
}

// How many lines are found to be each, of the functions by their own number, which is no plainer by a map.
#[derive(Drop)]
pub(crate) struct Tally {
    met: [u64; 18],
    turned: u64,
    wrong: u64,
}

// Writes a row of the report.
fn put_row(rt: &HostRuntime, name: &[u8; 24], lines: u64) -> io::Result<()> {
    rt.stdout().write_all(name)?;
    println!(rt; "{lines}")
}

impl Tally {
    // No line yet.
    pub(crate) fn new() -> Tally {
        Tally {
            met: [0; 18],
            turned: 0,
            wrong: 0,
        }
    }

    // Counts a line.
    pub(crate) fn count(&mut self, row: Row) {
        match row {
            Row::Met(function) => {
                let lines = &mut self.met[function as usize];
                *lines = lines.wrapping_add(1);
            }
            Row::Turned => self.turned = self.turned.wrapping_add(1),
            Row::Wrong => self.wrong = self.wrong.wrapping_add(1),
        }
    }

    // Writes the rows, each with its number of lines.
    pub(crate) fn say(&self, rt: &HostRuntime) -> io::Result<()> {
        let all = Function::ALL;
        for (function, lines) in all.iter().zip(self.met.iter()) {
            put_row(rt, function.name(), *lines)?;
        }
        put_row(rt, b"turned, found different ", self.turned)?;
        put_row(rt, b"wrong                   ", self.wrong)
    }
}
