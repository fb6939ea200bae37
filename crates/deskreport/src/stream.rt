// How the desk's report is told: what a line that ends does to what is kept between lines, and its text.
ghost use Rattle.std.specs.Prelude.{◌≡◌};
ghost use Rattle.deskreport.specs.Telling.{line_taken, completions, refusals, teller};
ghost use Rattle.deskreport.specs.Calls.{closing_room};

use super::inner::Tally;
use super::text;
use desk::{Desk, SuperFrame, Taken};
use ground::Refusal;
use report::inner::{Tells, Text};
use tps::MendedWord;

// What the desk says to a line's answer: its word is taken; a line that is refused leaves the desk as it is.
fn line_taken(desk: Desk, answer: Result<MendedWord, Refusal>) -> Taken
    ensures { result ≡ line_taken desk answer }
{
    match answer {
        Ok(mended) => desk.take(mended.word),
        Err(refusal) => Taken {
            answer: Err(refusal),
            desk,
        },
    }
}

// How many complete super-frames an answer is.
fn completions_of(answer: Result<Option<SuperFrame>, Refusal>) -> u64
    ensures { result ≡ completions answer }
{
    u64::from(matches!(answer, Ok(Some(_))))
}

// How many refusals an answer is.
fn refusals_of(answer: Result<Option<SuperFrame>, Refusal>) -> u64
    ensures { result ≡ refusals answer }
{
    u64::from(answer.is_err())
}

impl Tells for Tally {
    ghost teller = { teller };

    ghost closing_room = { closing_room };

    fn tell(&mut self, answer: Result<MendedWord, Refusal>, text: &mut Text) {
        let taken = line_taken(self.desk, answer);
        self.lines = self.lines.wrapping_add(1);
        self.complete = self.complete.wrapping_add(completions_of(taken.answer));
        self.refused = self.refused.wrapping_add(refusals_of(taken.answer));
        self.desk = taken.desk;
        text::put_answer(text, self.lines, taken.answer)
    }

    fn put_closing(&self, text: &mut Text) {
        text::put_closing(text, *self)
    }
}
