// For the programs: what each says of a read or a write that failed, and how one writes a report on its input.
ghost use Rattle.std.specs.Prelude.{◌≡◌, ◌≤◌, length, IfOk};
ghost use Rattle.programs.specs.declared.inner.Stop.TheVariants.{Refused};

use ground::Refusal;
use std::env::{Env, FillError};
use std::io;
use std::io::{ErrorKind, Print, Read};

// Why a program stops before its input's end.
#[derive(Clone, Copy)]
pub enum Stop {
    // The input can't be read.
    Unread(io::Error),
    // The library refuses a part of it.
    Refused(Refusal),
    // The output can't be written.
    Unwritten(io::Error),
}

impl From<Refusal> for Stop {
    ghost from_gives = { λ refusal stop. stop ≡ Refused refusal };

    fn from(refusal: Refusal) -> Stop {
        Stop::Refused(refusal)
    }
}

// A report on an input that it takes in parts. Each call writes a text at the front of its output, and answers how
// many bytes it has.
pub trait Report {
    // Writes the heading.
    fn put_heading(&self, out: &mut [u8]) -> Result<usize, Refusal>;

    // Takes a part of the input, and writes the text of the lines that end in it.
    fn feed(&mut self, part: &[u8], out: &mut [u8]) -> Result<usize, Refusal>;

    // Ends the input, and writes the text of its end.
    fn close(&self, out: &mut [u8]) -> Result<usize, Refusal>;
}

// The words of an error's text, without the number that it ends with.
fn words_of(told: &str) -> &str {
    match told.split_once(" (os error ") {
        Some((words, _)) => words,
        None => told,
    }
}

// Says on standard error that a read or a write failed, and why.
fn say_failed(rt: &HostRuntime, program: &str, what: &str, error: io::Error) -> io::Result<()> {
    let told = format!(in rt.alloc(); "{error}")?;
    let words = words_of(told.as_str());
    eprintln!(rt; "{program}: {what}: {words}")
}

// Says on standard error why a program stops; where nobody reads the output any more, nothing is said, so that this is
// no `Display` of a Stop.
pub fn say(rt: &HostRuntime, program: &str, stop: Stop) -> io::Result<()> {
    match stop {
        Stop::Unread(error) => say_failed(rt, program, "input", error),
        Stop::Refused(_) => eprintln!(rt; "{program}: output: no room for the text"),
        Stop::Unwritten(error) if error.kind() == ErrorKind::BrokenPipe => Ok(()),
        Stop::Unwritten(error) => say_failed(rt, program, "output", error),
    }
}

// Reads until a buffer is full, the input ends or a read fails, and counts what stands at the buffer's front.
pub fn fill(rt: &HostRuntime, input: &mut [u8]) -> io::Result<usize>
    ensures { IfOk result (λ n. n ≤ length input.new) }
{
    let mut count = 0;
    // The input comes in parts of any length, so there are no items for a `for`.
    while count < input.len() {
        let more = rt.stdin().read(&mut input[count..])?;
        if more == 0 {
            return Ok(count);
        }
        count += more;
    }
    Ok(count)
}

// Writes the bytes that a call left at the front of its output.
pub fn write_front(rt: &HostRuntime, count: usize, out: &[u8]) -> Result<(), Stop>
    ensures { IfOk result (λ done. count ≤ length out.now) }
{
    let Some(front) = out.get(..count) else {
        return Err(Stop::Unwritten(io::Error::other("no room for the output")));
    };
    rt.stdout().write_all(front).map_err(Stop::Unwritten)
}

// Writes the heading and goes on until the input ends; no run uses up its turns.
fn run_in<R: Report>(
    rt: &HostRuntime,
    report: &mut R,
    part: &mut [u8],
    out: &mut [u8],
) -> Result<(), Stop> {
    let heading = report.put_heading(out)?;
    write_front(rt, heading, out)?;
    for _ in 0..u64::MAX {
        let count = rt.stdin().read(part).map_err(Stop::Unread)?;
        if count == 0 {
            let end = report.close(out)?;
            return write_front(rt, end, out);
        }
        let text = report.feed(&part[..count], out)?;
        write_front(rt, text, out)?;
    }
    Ok(())
}

// Writes a report on standard input to standard output, until the input ends or the program stops and says why.
pub fn run<R: Report>(rt: &HostRuntime, program: &str, report: &mut R) -> io::Result<()> {
    // Room for a part of the input, and 60 bytes of text for each of its bytes.
    let mut part = [0u8; 8192];
    let mut out = [0u8; 491520];
    run_in(rt, report, &mut part, &mut out).or_else(|stop| say(rt, program, stop))
}

// Whether there is no argument at a place.
fn is_absent(rt: &HostRuntime, place: usize) -> bool {
    matches!(rt.arg(place, &mut []), Err(FillError::NotPresent))
}

// Whether a flag is the program's one argument, or there is none; else nothing.
pub fn only_flag(rt: &HostRuntime, flag: &[u8]) -> Option<bool> {
    if is_absent(rt, 1) {
        return Some(false);
    }
    let mut word = [0u8; 8];
    let count = rt.arg(1, &mut word).ok()?;
    (&word[..count] == flag && is_absent(rt, 2)).then_some(true)
}
