// The report on received TPS words: what a line of digits says, the text of its line, and the whole report of an input
// that comes in parts of any size.
// C reads and writes a `Reader`, so it keeps the open line as C has it: an array and a count beside it.
#![tactic(auto)]

ghost use Rattle.std.specs.Prelude.{◌≡◌};
ghost use Rattle.report.specs.Reading.{read_answer};
ghost use Rattle.report.specs.Stream.{fresh, line_of, counts_of};
ghost use Rattle.report.specs.Calls.{heading_answer, heading_leaves, line_answer, line_leaves};
ghost use Rattle.report.specs.Calls.{feed_answer, feed_leaves, close_answer, close_leaves};

use ground::Refusal;
use inner::{OpenLine, Text};
use stream::Counts;
use tps::{Decoder, MendedWord, TpsWord};

pub mod inner;
mod reading;
mod stream;
mod text;

// The heading's length in bytes.
const HEADING_LEN: usize = 41;
// Room in bytes for every line of the report.
const LINE_ROOM: usize = 60;

// What is held of the input so far: the open line's first 17 characters, how many it has, 18 where they are more, how
// many lines ended, and how many of those were refused; behind 2^64 - 1 a count starts again. Of a reader that is made
// by hand a count above 17 is read as 18.
#[repr(C)]
#[derive(Clone, Copy)]
pub struct Reader {
    pub held: [u8; 17],
    pub count: usize,
    pub lines: u64,
    pub refused: u64,
}

// How many bytes of text were written, or the refusal, and the reader after the call; the clauses over C
// (`SaysReaderFed`) name its fields.
#[derive(Clone, Copy)]
pub struct Fed {
    pub answer: Result<usize, Refusal>,
    pub reader: Reader,
}

// What a line says: the word of its 17 digits and the bits that were changed, or the refusal; by either decoder.
pub(crate) fn read_line_by(decoder: Decoder, line: &[u8]) -> Result<MendedWord, Refusal>
    ensures { result ≡ read_answer line.now }
{
    let bits = reading::bits_of(line)?;
    TpsWord::unpack_by(decoder, &bits)
}

// The same by the fast decoder.
pub fn read_line(line: &[u8]) -> Result<MendedWord, Refusal>
    ensures { result ≡ read_answer line.now }
{
    read_line_by(Decoder::Fast, line)
}

// Writes the report's heading.
pub fn put_heading(out: &mut [u8]) -> Result<usize, Refusal>
    ensures answer { result ≡ heading_answer out.old }
    ensures output { out.new ≡ heading_leaves out.old }
{
    if out.len() < HEADING_LEN {
        return Err(Refusal::OutputShort);
    }
    let mut text = Text::new(out);
    text.put(b"line frame points rate guard cell mended\n");
    Ok(text.len())
}

// Writes the line of the report for a line's number and its answer; a count of changed bits above 2 is written as 2.
pub fn put_line(
    number: u64,
    answer: Result<MendedWord, u8>,
    out: &mut [u8],
) -> Result<usize, Refusal>
    ensures answer { result ≡ line_answer number answer out.old }
    ensures output { out.new ≡ line_leaves number answer out.old }
{
    if out.len() < LINE_ROOM {
        return Err(Refusal::OutputShort);
    }
    let mut text = Text::new(out);
    text.put_answer(number, answer);
    Ok(text.len())
}

impl Reader {
    // A reader at the beginning of the input.
    pub fn new() -> Self
        ensures { result ≡ fresh }
    {
        Self {
            held: [0u8; 17],
            count: 0,
            lines: 0,
            refused: 0,
        }
    }

    // The line that is open.
    fn line(self) -> OpenLine
        ensures { result ≡ line_of self }
    {
        let held = self.held;
        OpenLine {
            held,
            count: self.count,
        }
    }

    // The counts.
    fn counts(self) -> Counts
        ensures { result ≡ counts_of self }
    {
        Counts {
            lines: self.lines,
            refused: self.refused,
        }
    }

    // Takes a part of the input, and writes the lines of the report for the lines that end in it, by either decoder.
    pub fn feed(self, decoder: Decoder, part: &[u8], out: &mut [u8]) -> Fed
        ensures answer { result ≡ feed_answer self part.now out.old }
        ensures output { out.new ≡ feed_leaves self part.now out.old }
    {
        if out.len() / LINE_ROOM < part.len() {
            return Fed {
                answer: Err(Refusal::OutputShort),
                reader: self,
            };
        }
        let mut text = Text::new(out);
        let mut counts = self.counts();
        let line = inner::put_part(decoder, self.line(), &mut counts, part, &mut text);
        let held = line.held;
        Fed {
            answer: Ok(text.len()),
            reader: Reader {
                held,
                count: line.count,
                lines: counts.lines,
                refused: counts.refused,
            },
        }
    }

    // Ends the input: writes the line of a line that is open there, read by either decoder, and the closing line.
    pub fn close(self, decoder: Decoder, out: &mut [u8]) -> Result<usize, Refusal>
        ensures answer { result ≡ close_answer self out.old }
        ensures output { out.new ≡ close_leaves self out.old }
    {
        if out.len() < 2 * LINE_ROOM {
            return Err(Refusal::OutputShort);
        }
        let mut text = Text::new(out);
        inner::put_close(decoder, self.line(), &mut self.counts(), &mut text);
        Ok(text.len())
    }
}
