// tpsdesk: reads received TPS words from standard input, one a line, hands them to the desk, and writes the desk's
// report to standard output.
#![tactic(auto)]

use deskreport::inner::Reader;
use ground::Refusal;
use programs::inner::Report;
use std::io;

// The desk's report, by its reader.
#[derive(Clone, Copy)]
struct DeskReport {
    reader: Reader,
}

impl Report for DeskReport {
    fn put_heading(&self, out: &mut [u8]) -> Result<usize, Refusal> {
        deskreport::inner::put_heading(out)
    }

    fn feed(&mut self, part: &[u8], out: &mut [u8]) -> Result<usize, Refusal> {
        let fed = self.reader.feed(part, out);
        self.reader = fed.reader;
        fed.answer
    }

    fn close(&self, out: &mut [u8]) -> Result<usize, Refusal> {
        self.reader.close(out)
    }
}

fn main(rt: HostRuntime) -> io::Result<()> {
    let mut report = DeskReport {
        reader: Reader::new(),
    };
    programs::inner::run(&rt, "tpsdesk", &mut report)
}
