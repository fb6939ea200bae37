// The lines of the report, and its closing line.
ghost use Rattle.std.specs.Prelude.{◌≡◌, ◌+◌, ◌≤◌, [], ◌∷◌};
ghost use Rattle.report.specs.Text.{mended_text, line_text, closing};
ghost use Rattle.report.specs.Calls.{line_room};
ghost use Rattle.report.specs.Inner.{Room, Puts};

use super::inner::Text;
use tps::MendedWord;

// The digit of a count of mended bits.
#[tactic(auto, unfolding(crate::specs::Text::mended_text))]
fn mended_digit(count: u8) -> u8
    ensures { result ∷ [] ≡ mended_text count }
{
    match count {
        0 => b'0',
        1 => b'1',
        _ => b'2',
    }
}

impl Text<'_> {
    // Writes the line of a word.
    fn put_word(&mut self, number: u64, read: MendedWord)
        requires { Room self.old line_room }
        ensures text { Puts self.old (line_text number (Ok read)) self.new }
        ensures room { self.new.len ≤ self.old.len + line_room }
    {
        let word = read.word;
        self.put_decimal(number);
        self.put(b" ");
        self.put_decimal(u64::from(word.frame_number));
        self.put_columns(word.constellation, word.code_rate_hp, word.guard);
        self.put(b" ");
        self.put_cell(word.cell_id);
        self.put(&[b' ', mended_digit(read.mended.count), b'\n'])
    }

    // Writes the line of an answer.
    pub(crate) fn put_answer(&mut self, number: u64, answer: Result<MendedWord, u8>)
        requires { Room self.old line_room }
        ensures text { Puts self.old (line_text number answer) self.new }
        ensures room { self.new.len ≤ self.old.len + line_room }
    {
        match answer {
            Ok(read) => self.put_word(number, read),
            Err(refusal) => self.put_refused(number, refusal),
        }
    }

    // Writes the closing line.
    pub(crate) fn put_closing(&mut self, lines: u64, refused: u64)
        requires { Room self.old line_room }
        ensures text { Puts self.old (closing lines refused) self.new }
        ensures room { self.new.len ≤ self.old.len + line_room }
    {
        self.put(b"read ");
        self.put_decimal(lines);
        self.put(b" refused ");
        self.put_decimal(refused);
        self.put(b"\n")
    }
}
