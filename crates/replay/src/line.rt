// One line of the list: a space, or ~ where the answer is wrong on purpose; a name of the table in 24 columns; in
// hexadecimal a number of two bytes, the refusal's number or 0, and the input; a > and the output in hexadecimal.
ghost use Rattle.std.specs.Prelude.{◌+◌, ◌<◌, ◌≤◌, length};

use crate::table::{Function, Row};
use stored::inner::Room;

// What stands where nothing is written.
const UNTOUCHED: u8 = 0xA5;

// Whether what a function answers to the bytes given, and all of the room that it is lent, is the stored answer.
fn is_met(function: Function, given: &[u8], wanted: &Room, count: usize) -> bool
    requires { (3 ≤ length given.now) × (length given.now ≤ 16384) }
{
    let mut room = [UNTOUCHED; 16384];
    let number = usize::from(stored::inner::number_at(given, 0));
    match function.answer(number, &given[3..], &mut room) {
        Some(answer) => stored::inner::is_answer(answer, given[2], count) && room == *wanted,
        None => false,
    }
}

// The row of a line of a function.
fn row_for(function: Function, text: &[u8]) -> Row
    requires { 25 ≤ length text.now }
{
    let mut given = [0; 16384];
    let n = stored::inner::put_bytes(&text[25..], &mut given);
    let from = 26 + 2 * n;
    let Some(digits) = text.get(from..) else {
        return Row::Wrong;
    };
    let mut wanted = [UNTOUCHED; 16384];
    let count = stored::inner::put_bytes(digits, &mut wanted);
    if n < 3 || digits.len() != 2 * count {
        return Row::Wrong;
    }
    match (is_met(function, &given[..n], &wanted, count), text[0]) {
        (true, b' ') => Row::Met(function),
        (false, b'~') => Row::Turned,
        _ => Row::Wrong,
    }
}

// The row of a line.
pub(crate) fn row_of(text: &[u8]) -> Row {
    if text.len() < 25 {
        return Row::Wrong;
    }
    match Function::named(&text[1..25]) {
        Some(function) => row_for(function, text),
        None => Row::Wrong,
    }
}
