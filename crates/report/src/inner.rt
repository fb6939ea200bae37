// For the crates above: a text that is written, the open line of an input that comes in parts and its answer, and what
// reports do in the same way over what each keeps between lines.
ghost use Rattle.std.specs.Prelude.{◌≡◌, ℕ, ◌+◌, ◌<◌, ◌≤◌, ◌∷◌, length};
ghost use Rattle.report.specs.Characters.{space};
ghost use Rattle.report.specs.Text.{decimal, hexadecimal, cell_text, points_text, rate_text, guard_text, line_text};
ghost use Rattle.report.specs.OpenLine.{open_line, open_answer, grown, last_answers};
ghost use Rattle.report.specs.Telling.{Teller, rest_text};
ghost use Rattle.report.specs.Calls.{line_room, part_room};
ghost use Rattle.report.specs.Inner.{Begun, Room, Puts, columns_text, EndsBy, PartTold};

use ground::{ConstellationOrder, Refusal};
use tps::{Decoder, GuardInterval, MendedWord, PunctureRate};

// A text at the front of a lent output, and how many of its bytes stand.
#[derive(Drop)]
pub struct Text<'a> {
    out: &'a mut [u8],
    len: usize,
}

// The columns and digits below are bytes and no `Display`: `write!` promises what it wrote of a `String` alone, which
// is on the heap. Each method of a text asks for its own room and says how much it took, since callers add up these
// numbers.

// A space and the column of a constellation.
#[tactic(auto, unfolding(crate::specs::Text::points_text))]
fn points_column(constellation: ConstellationOrder) -> &'static [u8]
    ensures text { result.now ≡ space ∷ points_text constellation }
    ensures room { length result.now ≤ 3 }
{
    match constellation {
        ConstellationOrder::Qpsk => b" 4",
        ConstellationOrder::Qam16 => b" 16",
        ConstellationOrder::Qam64 => b" 64",
    }
}

// A space and the column of a rate.
#[tactic(auto, unfolding(crate::specs::Text::rate_text))]
fn rate_column(rate: PunctureRate) -> &'static [u8]
    ensures text { result.now ≡ space ∷ rate_text rate }
    ensures room { length result.now ≤ 5 }
{
    match rate {
        PunctureRate::R1_2 => b" 1/2",
        PunctureRate::R2_3 => b" 2/3",
        PunctureRate::R3_4 => b" 3/4",
        PunctureRate::R5_6 => b" 5/6",
        PunctureRate::R7_8 => b" 7/8",
    }
}

// A space and the column of a guard interval.
#[tactic(auto, unfolding(crate::specs::Text::guard_text))]
fn guard_column(guard: GuardInterval) -> &'static [u8]
    ensures text { result.now ≡ space ∷ guard_text guard }
    ensures room { length result.now ≤ 5 }
{
    match guard {
        GuardInterval::G1_32 => b" 1/32",
        GuardInterval::G1_16 => b" 1/16",
        GuardInterval::G1_8 => b" 1/8",
        GuardInterval::G1_4 => b" 1/4",
    }
}

// A hexadecimal digit in lower case.
#[tactic(auto, unfolding(crate::specs::Text::hexadecimal))]
fn hexadecimal_digit(digit: u8) -> u8
    requires { digit < 16 }
    ensures { result ≡ hexadecimal digit }
{
    if digit < 10 {
        return b'0' + digit;
    }
    b'a' + (digit - 10)
}

impl<'a> Text<'a> {
    // No text yet, at the front of an output.
    pub fn new(out: &'a mut [u8]) -> Self
        ensures same { result.out.ghost_name ≡ out.entry.ghost_name }
        ensures empty { Begun result out.old }
    {
        Text { out, len: 0 }
    }

    // How many of its bytes stand.
    pub fn len(&self) -> usize
        ensures { result ≡ self.now.len }
    {
        self.len
    }

    // Writes characters.
    pub fn put(&mut self, characters: &[u8])
        requires { Room self.old (length characters.now) }
        ensures { Puts self.old characters.now self.new }
    {
        let end = self.len + characters.len();
        self.out[self.len..end].copy_from_slice(characters);
        self.len = end;
    }

    // Writes a number in decimal.
    pub fn put_decimal(&mut self, number: u64)
        requires { Room self.old 20 }
        ensures text { Puts self.old (decimal number) self.new }
        ensures room { self.new.len ≤ self.old.len + 20 }
    {
        let mut digits = [0u8; 20];
        let count = io::decimal(number, &mut digits);
        self.put(&digits[..count])
    }

    // Writes the columns of a constellation, a rate and a guard interval, a space before each.
    pub fn put_columns(
        &mut self,
        constellation: ConstellationOrder,
        rate: PunctureRate,
        guard: GuardInterval,
    )
        requires { Room self.old 13 }
        ensures text { Puts self.old (columns_text constellation rate guard) self.new }
        ensures room { self.new.len ≤ self.old.len + 13 }
    {
        self.put(points_column(constellation));
        self.put(rate_column(rate));
        self.put(guard_column(guard))
    }

    // Writes a cell id, or another byte, in two hexadecimal digits.
    #[tactic(auto, unfolding(crate::specs::Text::cell_text))]
    pub fn put_cell(&mut self, cell_id: u8)
        requires { Room self.old 2 }
        ensures text { Puts self.old (cell_text cell_id) self.new }
        ensures room { self.new.len ≤ self.old.len + 2 }
    {
        self.put(&[
            hexadecimal_digit(cell_id / 16),
            hexadecimal_digit(cell_id % 16),
        ])
    }

    // Writes the line of a refusal.
    pub fn put_refused(&mut self, number: u64, refusal: u8)
        requires { Room self.old line_room }
        ensures text { Puts self.old (line_text number (Err refusal)) self.new }
        ensures room { self.new.len ≤ self.old.len + line_room }
    {
        self.put_decimal(number);
        self.put(b" refused ");
        self.put_decimal(u64::from(refusal));
        self.put(b"\n")
    }
}

// A line that hasn't ended: its first 17 characters, and how many it has, 18 where they are more. The C interface needs
// an array and a count: a reader is read as it, and C may hand in any count.
#[derive(Clone, Copy)]
pub struct OpenLine {
    pub held: [u8; 17],
    pub count: usize,
}

// What a report keeps between lines: the answer to a line moves it on and has a text, and behind the last line stands
// a closing text.
pub trait Tells {
    ghost teller: { Teller Self };

    ghost closing_room: { ℕ };

    // Takes the answer to a line that has ended, and writes its text.
    fn tell(&mut self, answer: Result<MendedWord, Refusal>, text: &mut Text)
        requires { Room text.old line_room }
        ensures { EndsBy teller answer self.old text.old self.new text.new };

    // Writes the closing text.
    fn put_closing(&self, text: &mut Text)
        requires { Room text.old closing_room }
        ensures text { Puts text.old (teller.closing self.now) text.new }
        ensures room { text.new.len ≤ text.old.len + closing_room };
}

// Takes a character more of a line into what is held of it, where there is room, and counts it. The count is a number
// of its own here, since beside an array that is written by place it stays in memory, and a long line takes twice as
// long.
#[tactic(auto, unfolding(crate::specs::OpenLine::grown))]
fn hold(held: &mut [u8; 17], count: usize, character: u8) -> usize
    ensures { open_line held.new result ≡ grown (open_line held.old count) character }
{
    if count < 17 {
        held[count] = character;
        return count + 1;
    }
    18
}

// Takes a part of the input, and writes the texts of the lines that end in it; the line that is open behind it.
pub fn put_part<K: Tells>(
    decoder: Decoder,
    line: OpenLine,
    kept: &mut K,
    part: &[u8],
    text: &mut Text,
) -> OpenLine
    requires { Room text.old (part_room part.now) }
    ensures { PartTold K.teller line kept.old part.now text.old result kept.new text.new }
{
    let mut held = line.held;
    let mut count = line.count;
    for character in part {
        if *character == b'\n' {
            kept.tell(OpenLine { held, count }.answer_by(decoder), text);
            count = 0;
        } else {
            count = hold(&mut held, count, *character);
        }
    }
    OpenLine { held, count }
}

// Ends the input: writes the text of a line that is open there, and the closing text.
pub fn put_close<K: Tells>(decoder: Decoder, line: OpenLine, kept: &mut K, text: &mut Text)
    requires { Room text.old (line_room + K.closing_room) }
    ensures text { Puts text.old (rest_text K.teller kept.old (last_answers line)) text.new }
    ensures room { text.new.len ≤ text.old.len + (line_room + K.closing_room) }
{
    if line.count != 0 {
        kept.tell(line.answer_by(decoder), text);
    }
    kept.put_closing(text)
}

impl OpenLine {
    // The answer to the line, where it ends here, by either decoder.
    #[tactic(auto, unfolding(crate::specs::OpenLine::open_answer))]
    pub fn answer_by(self, decoder: Decoder) -> Result<MendedWord, Refusal>
        ensures { result ≡ open_answer self }
    {
        if self.count != 17 {
            return Err(Refusal::BadLine);
        }
        super::read_line_by(decoder, &self.held)
    }
}
