// For the program tpsdesk: the desk's report of an input that comes in parts of any size.
ghost use Rattle.std.specs.Prelude.{◌≡◌};
ghost use Rattle.deskreport.specs.Stream.{fresh};
ghost use Rattle.deskreport.specs.Calls.{heading_answer, heading_leaves};
ghost use Rattle.deskreport.specs.Calls.{feed_answer, feed_leaves, close_answer, close_leaves};

use desk::Desk;
use ground::Refusal;
use report::inner::{OpenLine, Text, put_close, put_part};
use tps::Decoder;

// The heading's length in bytes.
const HEADING_LEN: usize = 26;
// Room in bytes for the text of every line.
const LINE_ROOM: usize = 60;
// Room in bytes for the end: the text of an open line, and the closing line.
const CLOSE_ROOM: usize = 150;

// What is kept between lines: how many ended, how many completed a super-frame and how many were refused, by the
// reading or by the desk, and the desk; behind 2^64 - 1 a count starts again.
#[derive(Clone, Copy, Debug, Default, PartialEq, Eq)]
pub struct Tally {
    pub lines: u64,
    pub complete: u64,
    pub refused: u64,
    pub desk: Desk,
}

// What is held of the input so far: the line that is open, and what is kept of those before it.
#[derive(Clone, Copy)]
pub struct Reader {
    pub line: OpenLine,
    pub tally: Tally,
}

// How many bytes of text were written, or the refusal, and the reader after the call; `told-whole` names its fields.
#[derive(Clone, Copy)]
pub struct Fed {
    pub answer: Result<usize, Refusal>,
    pub reader: Reader,
}

// Writes the heading. A function for this and report's would take all but one of its lines as an argument.
pub fn put_heading(out: &mut [u8]) -> Result<usize, Refusal>
    ensures answer { result ≡ heading_answer out.old }
    ensures output { out.new ≡ heading_leaves out.old }
{
    if out.len() < HEADING_LEN {
        return Err(Refusal::OutputShort);
    }
    let mut text = Text::new(out);
    text.put(b"line id points rate guard\n");
    Ok(text.len())
}

// The C interface hands report's Reader over by its fields, so that the two aren't one generic reader: the calls stand
// here once more, and what they do in the same way is report's put_part and put_close.
impl Reader {
    // A reader at the beginning of the input, with a new desk.
    pub fn new() -> Self
        ensures { result ≡ fresh }
    {
        let line = OpenLine {
            held: [0u8; 17],
            count: 0,
        };
        Self {
            line,
            tally: Tally::default(),
        }
    }

    // Takes a part of the input, and writes the texts of the lines that end in it.
    pub fn feed(self, part: &[u8], out: &mut [u8]) -> Fed
        ensures answer { result ≡ feed_answer self part.now out.old }
        ensures output { out.new ≡ feed_leaves self part.now out.old }
    {
        if out.len() / LINE_ROOM < part.len() {
            return Fed {
                answer: Err(Refusal::OutputShort),
                reader: self,
            };
        }
        let mut text = Text::new(out);
        let mut tally = self.tally;
        let line = put_part(Decoder::Fast, self.line, &mut tally, part, &mut text);
        Fed {
            answer: Ok(text.len()),
            reader: Reader { line, tally },
        }
    }

    // Ends the input: writes the text of a line that is open there, and the closing line.
    pub fn close(self, out: &mut [u8]) -> Result<usize, Refusal>
        ensures answer { result ≡ close_answer self out.old }
        ensures output { out.new ≡ close_leaves self out.old }
    {
        if out.len() < CLOSE_ROOM {
            return Err(Refusal::OutputShort);
        }
        let mut text = Text::new(out);
        let mut tally = self.tally;
        put_close(Decoder::Fast, self.line, &mut tally, &mut text);
        Ok(text.len())
    }
}
