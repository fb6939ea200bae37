// tpsreport: reads received TPS words from standard input, one a line, and writes the report to standard output. With
// the argument --slow the lines are read by the slow decoder.
#![tactic(auto)]

use bch::Decoder;
use ground::Refusal;
use programs::inner::Report;
use report::Reader;
use std::io;

// The report, by its reader, and the decoder by which its lines are read.
#[derive(Clone, Copy)]
struct WordReport {
    decoder: Decoder,
    reader: Reader,
}

impl Report for WordReport {
    fn put_heading(&self, out: &mut [u8]) -> Result<usize, Refusal> {
        report::put_heading(out)
    }

    fn feed(&mut self, part: &[u8], out: &mut [u8]) -> Result<usize, Refusal> {
        let fed = self.reader.feed(self.decoder, part, out);
        self.reader = fed.reader;
        fed.answer
    }

    fn close(&self, out: &mut [u8]) -> Result<usize, Refusal> {
        self.reader.close(self.decoder, out)
    }
}

fn main(rt: HostRuntime) -> io::Result<()> {
    let Some(slow) = programs::inner::only_flag(&rt, b"--slow") else {
        return eprintln!(rt; "tpsreport: --slow is the only argument");
    };
    let mut report = WordReport {
        decoder: if slow { Decoder::Slow } else { Decoder::Fast },
        reader: Reader::new(),
    };
    programs::inner::run(&rt, "tpsreport", &mut report)
}
