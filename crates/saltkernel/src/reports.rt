// The report on received words.
// Its input is lines, each a word in 17 hexadecimal digits of lower case, the first digit's high bit s0; its output is
// text: a heading, a line for each line of the input, numbered from 1 on, and a closing line with the counts of lines
// and of refused lines. A line ends at a newline or the end of the input; an empty line counts, and no line follows a
// final newline. In whatever parts the input is fed, the report is the same.
ghost use Rattle.std.specs.Prelude.{◌≡◌};
ghost use Rattle.report.specs.Reading.{read_answer};
ghost use Rattle.report.specs.Stream.{fresh};
ghost use Rattle.report.specs.Calls.{heading_answer, heading_leaves, feed_answer, feed_leaves, close_answer};
ghost use Rattle.report.specs.Calls.{close_leaves};
ghost use Rattle.saltkernel.specs.Numbers.{Says};
ghost use Rattle.saltkernel.specs.Words.{SaysUnpacked};
ghost use Rattle.saltkernel.specs.Reports.{answer_read, line_answer, line_leaves, SaysReaderFed};

use super::sizes::LINE_ROOM;
use super::words::{SaltUnpacked, unpacked_numbers_of};
use super::{SaltCounted, numbers_of};
use ground::Refusal;
use report::{Fed, Reader};
use tps::{Decoder, Mended, MendedWord, TpsWord};

// The bytes written or the refusal, and the reader behind the part or, refused, as it went in.
#[repr(C)]
#[derive(Clone, Copy)]
pub struct SaltReaderFed {
    pub answer: SaltCounted,
    pub reader: Reader,
}

impl From<Fed> for SaltReaderFed {
    ghost from_gives = { λ fed numbers. SaysReaderFed numbers fed };

    // The numbers and the reader of a feed.
    fn from(fed: Fed) -> Self {
        SaltReaderFed {
            answer: numbers_of(fed.answer),
            reader: fed.reader,
        }
    }
}

// The answer that the numbers say, or that a code of its word stands for nothing.
fn answer_of(answer: SaltUnpacked) -> Result<Result<MendedWord, u8>, Refusal>
    ensures { result ≡ answer_read answer }
{
    if answer.number != 0 {
        return Ok(Err(answer.number));
    }
    let word = TpsWord::try_from(answer.word)?;
    let mended = Mended {
        count: answer.mended,
        first: answer.first,
        second: answer.second,
    };
    Ok(Ok(MendedWord { word, mended }))
}

// Writes the report's line for a line's number and its answer.
fn put_line(number: u64, answer: SaltUnpacked, out: &mut [u8]) -> Result<usize, Refusal>
    ensures answer { result ≡ line_answer number answer out.old }
    ensures output { out.new ≡ line_leaves number answer out.old }
{
    if out.len() < LINE_ROOM {
        return Err(Refusal::OutputShort);
    }
    report::put_line(number, answer_of(answer)?, out)
}

// The word that a line says, given without its newline, with up to two wrong bits mended; s0 is ignored.
// Refusals: 9 BAD LINE, 4 NO WORD, 5 RESERVED.
#[unsafe(no_mangle)]
pub extern "C" fn salt_read_line(line: &[u8]) -> SaltUnpacked
    ensures { SaysUnpacked result (read_answer line.now) }
{
    unpacked_numbers_of(report::read_line(line))
}

// Writes the heading, `line frame points rate guard cell mended` and a newline. Answers 41.
// Refusals: 3 OUTPUT SHORT.
#[unsafe(no_mangle)]
pub extern "C" fn salt_put_heading(out: &mut [u8]) -> SaltCounted
    ensures answer { Says result (heading_answer out.old) }
    ensures output { out.new ≡ heading_leaves out.old }
{
    numbers_of(report::put_heading(out))
}

// Writes the report's line for a line's number and its answer: a word where the answer's number is 0, else that
// refusal. A count of mended bits above 2 is written as 2, and their places aren't written. Answers the bytes written.
// Refusals: 3 OUTPUT SHORT (room for fewer than 60), 5 RESERVED (a word whose constellation is above 2, rate above 4
// or guard above 3).
#[unsafe(no_mangle)]
pub extern "C" fn salt_put_line(number: u64, answer: SaltUnpacked, out: &mut [u8]) -> SaltCounted
    ensures answer { Says result (line_answer number answer out.old) }
    ensures output { out.new ≡ line_leaves number answer out.old }
{
    numbers_of(put_line(number, answer, out))
}

// A reader at the start of the input.
#[unsafe(no_mangle)]
pub extern "C" fn salt_reader_new() -> Reader
    ensures { result ≡ fresh }
{
    Reader::new()
}

// Takes a part of the input, of any size, and writes the report's lines for the lines that end in it. Answers the
// bytes written.
// Refusals: 3 OUTPUT SHORT (room for fewer than 60 a byte of the part).
#[unsafe(no_mangle)]
pub extern "C" fn salt_reader_feed(reader: Reader, part: &[u8], out: &mut [u8]) -> SaltReaderFed
    ensures answer { SaysReaderFed result (feed_answer reader part.now out.old) }
    ensures output { out.new ≡ feed_leaves reader part.now out.old }
{
    SaltReaderFed::from(reader.feed(Decoder::Fast, part, out))
}

// The same by the slow decoder, with the same text.
// Refusals: 3 OUTPUT SHORT (room for fewer than 60 a byte of the part).
#[unsafe(no_mangle)]
pub extern "C" fn salt_reader_feed_slow(
    reader: Reader,
    part: &[u8],
    out: &mut [u8],
) -> SaltReaderFed
    ensures answer { SaysReaderFed result (feed_answer reader part.now out.old) }
    ensures output { out.new ≡ feed_leaves reader part.now out.old }
{
    SaltReaderFed::from(reader.feed(Decoder::Slow, part, out))
}

// Ends the input: writes the report's line for a line that is open there, and the closing line. Answers the bytes
// written.
// Refusals: 3 OUTPUT SHORT (room for fewer than 120).
#[unsafe(no_mangle)]
pub extern "C" fn salt_reader_close(reader: Reader, out: &mut [u8]) -> SaltCounted
    ensures answer { Says result (close_answer reader out.old) }
    ensures output { out.new ≡ close_leaves reader out.old }
{
    numbers_of(reader.close(Decoder::Fast, out))
}

// The same by the slow decoder, with the same text.
// Refusals: 3 OUTPUT SHORT (room for fewer than 120).
#[unsafe(no_mangle)]
pub extern "C" fn salt_reader_close_slow(reader: Reader, out: &mut [u8]) -> SaltCounted
    ensures answer { Says result (close_answer reader out.old) }
    ensures output { out.new ≡ close_leaves reader out.old }
{
    numbers_of(reader.close(Decoder::Slow, out))
}
