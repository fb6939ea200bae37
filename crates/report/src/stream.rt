// The report of an input in parts: what is kept between lines, and the line of the report for each that ends.
ghost use Rattle.report.specs.Stream.{teller};
ghost use Rattle.report.specs.Calls.{line_room};

use super::inner::{Tells, Text};
use ground::Refusal;
use tps::MendedWord;

// The counts of lines and of refused lines; behind 2^64 - 1 a count starts again.
#[derive(Clone, Copy)]
pub(crate) struct Counts {
    pub lines: u64,
    pub refused: u64,
}

impl Tells for Counts {
    ghost teller = { teller };

    ghost closing_room = { line_room };

    fn tell(&mut self, answer: Result<MendedWord, Refusal>, text: &mut Text) {
        self.lines = self.lines.wrapping_add(1);
        self.refused = self.refused.wrapping_add(u64::from(answer.is_err()));
        text.put_answer(self.lines, answer.map_err(u8::from))
    }

    fn put_closing(&self, text: &mut Text) {
        text.put_closing(self.lines, self.refused)
    }
}
