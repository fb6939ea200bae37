// The desk.
// It takes words that were read, in order, and names the super-frame: the words of four frames whose numbers are 0,
// 1, 2 and 3, with one high byte of the cell id in 0 and 2, one low byte in 1 and 3, and the same parameters
// throughout. A word that is refused by 10 or 11 drops what was gathered, and one with number 0 starts afresh, the
// refused one too: unlike all others these two refusals change the state. Behind a complete super-frame, and at the
// start, number 0 is wanted.
ghost use Rattle.std.specs.Prelude.{◌≡◌};
ghost use Rattle.desk.specs.Desk.{fresh};
ghost use Rattle.saltkernel.specs.Desks.{frame_codes, incomplete, take_answer, SaysTaken};

use super::words::SaltTpsWord;
use desk::{Desk, Parameters, SuperFrame, Taken};
use tps::TpsWord;

// The answer to a word, and the desk after it. Where `complete` is 1 a super-frame is complete, with its cell id and
// its parameters by their codes; else these are 0.
#[repr(C)]
#[derive(Clone, Copy)]
pub struct SaltDeskTaken {
    pub number: u8,
    pub complete: u8, // 1 where the word completes a super-frame, else 0
    pub cell_id: u16,
    pub parameters: Parameters,
    pub desk: Desk,
}

// The codes of a super-frame's parameters, which `frame_codes` of this crate's promise says, so that it is no `From` of
// crate desk's.
fn codes_of(frame: SuperFrame) -> Parameters
    ensures { result ≡ frame_codes frame }
{
    Parameters {
        constellation: frame.constellation as u8,
        code_rate_hp: frame.code_rate_hp as u8,
        guard: frame.guard as u8,
    }
}

// An answer in which no super-frame is complete, as numbers.
fn incomplete(number: u8, desk: Desk) -> SaltDeskTaken
    ensures { result ≡ incomplete number desk }
{
    SaltDeskTaken {
        number,
        complete: 0,
        cell_id: 0,
        parameters: Parameters::default(),
        desk,
    }
}

// The answer to a word as numbers: a flag and zeros stand for an Option, and a number for a refusal, as C has them.
fn taken_numbers_of(taken: Taken) -> SaltDeskTaken
    ensures { SaysTaken result taken }
{
    match taken.answer {
        Ok(None) => incomplete(0, taken.desk),
        Ok(Some(frame)) => SaltDeskTaken {
            number: 0,
            complete: 1,
            cell_id: frame.cell_id,
            parameters: codes_of(frame),
            desk: taken.desk,
        },
        Err(refusal) => incomplete(u8::from(refusal), taken.desk),
    }
}

// A desk with nothing gathered.
#[unsafe(no_mangle)]
pub extern "C" fn salt_desk_new() -> Desk
    ensures { result ≡ fresh }
{
    Desk::new()
}

// Takes the next word that was read: it is gathered, or completes a super-frame.
// Refusals: 5 RESERVED (constellation above 2, rate above 4 or guard above 3; the desk stays as it was), 10 OUT OF
// STEP (not the number wanted), 11 MISMATCH (the first word at which a byte of the cell id or a parameter differs).
#[unsafe(no_mangle)]
pub extern "C" fn salt_desk_take(desk: Desk, word: SaltTpsWord) -> SaltDeskTaken
    ensures { SaysTaken result (take_answer desk word) }
{
    match TpsWord::try_from(word) {
        Ok(known) => taken_numbers_of(desk.take(known)),
        Err(refusal) => incomplete(u8::from(refusal), desk),
    }
}
