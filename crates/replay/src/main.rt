// Replays a list of orion-sdr's stored answers, read from standard input, and writes how many lines of each function
// are met. A line that begins with ~ has an answer that is wrong on purpose, mostly by one bit, and has to be found
// different.
#![tactic(auto)]

ghost use Rattle.std.specs.Prelude.{◌≡◌, length};

use std::io;
use table::{Row, Tally};

mod constellation;
mod line;
mod packets;
mod sessions;
mod signals;
mod symbols;
mod table;
mod words;

// Room for the whole list; made in place, the check of its caller runs out of its stack.
fn room() -> [u8; 1310720]
    ensures { 1310720 ≡ length result }
{
    [0; 1310720]
}

// How many lines of the list are found to be what; each line that went wrong is written.
fn tally(rt: &HostRuntime, list: &[u8]) -> io::Result<Tally> {
    let mut tally = Tally::new();
    for (before, line) in list.split_inclusive(|byte| *byte == b'\n').enumerate() {
        let row = line::row_of(line.strip_suffix(b"\n").unwrap_or(line));
        tally.count(row);
        if row == Row::Wrong {
            let at = before.wrapping_add(1);
            println!(rt; "a line went wrong: {at}")?;
        }
    }
    Ok(tally)
}

fn main(rt: HostRuntime) -> io::Result<()> {
    let mut list = room();
    let n = programs::inner::fill(&rt, &mut list)?;
    if n == 1310720 {
        return println!(rt; "the list is longer than its room");
    }
    tally(&rt, &list[..n])?.say(&rt)
}
