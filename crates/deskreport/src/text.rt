// The texts of the desk's report.
ghost use Rattle.std.specs.Prelude.{◌+◌, ◌≤◌};
ghost use Rattle.report.specs.Calls.{line_room};
ghost use Rattle.report.specs.Inner.{Room, Puts};
ghost use Rattle.deskreport.specs.Text.{frame_text, answer_text, closing};
ghost use Rattle.deskreport.specs.Inner.{id_column};
ghost use Rattle.deskreport.specs.Calls.{closing_room};

use super::inner::Tally;
use desk::SuperFrame;
use ground::Refusal;
use report::inner::Text;

// Writes the column of a cell id, a space before it.
fn put_id(text: &mut Text, id: u16)
    requires { Room text.old 5 }
    ensures text { Puts text.old (id_column id) text.new }
    ensures room { text.new.len ≤ text.old.len + 5 }
{
    let [high, low] = id.to_be_bytes();
    text.put(b" ");
    text.put_cell(high);
    text.put_cell(low)
}

// Writes the line of a complete super-frame.
fn put_frame(text: &mut Text, number: u64, frame: SuperFrame)
    requires { Room text.old line_room }
    ensures text { Puts text.old (frame_text number frame) text.new }
    ensures room { text.new.len ≤ text.old.len + line_room }
{
    text.put_decimal(number);
    put_id(text, frame.cell_id);
    text.put_columns(frame.constellation, frame.code_rate_hp, frame.guard);
    text.put(b"\n")
}

// Writes the text of the desk's answer to a line: none where its word is gathered.
pub(crate) fn put_answer(text: &mut Text, number: u64, answer: Result<Option<SuperFrame>, Refusal>)
    requires { Room text.old line_room }
    ensures text { Puts text.old (answer_text number answer) text.new }
    ensures room { text.new.len ≤ text.old.len + line_room }
{
    match answer {
        Ok(None) => {}
        Ok(Some(frame)) => put_frame(text, number, frame),
        Err(refusal) => text.put_refused(number, u8::from(refusal)),
    }
}

// Writes the closing line.
pub(crate) fn put_closing(text: &mut Text, tally: Tally)
    requires { Room text.old closing_room }
    ensures text { Puts text.old (closing tally) text.new }
    ensures room { text.new.len ≤ text.old.len + closing_room }
{
    text.put(b"read ");
    text.put_decimal(tally.lines);
    text.put(b" complete ");
    text.put_decimal(tally.complete);
    text.put(b" refused ");
    text.put_decimal(tally.refused);
    text.put(b"\n")
}
