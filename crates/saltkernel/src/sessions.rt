// The receive session.
// The extractor and the TPS decoder joined, with a journal of two frames that steps back. With n symbols standing in
// frame c, the frames since the reset being counted from 0, the phase is n mod 4, and where n is below 68 the 34
// floats of the journal from 2,312 (c mod 2) + 34 n on are the next symbol's. A feed with 68 standing begins the
// next frame, and the frame before the previous one can't be gone back to any more. The caller lends one journal for
// each session, always the same, and writes nothing to it in between.
ghost use Rattle.std.specs.Prelude.{◌≡◌};
ghost use Rattle.carriers.specs.Mode.{mode2k};
ghost use Rattle.session.specs.Session.{fresh, next_phase, feed_answer, feed_data_leaves, feed_journal_leaves};
ghost use Rattle.session.specs.Session.{step_back_answer, Words};
ghost use Rattle.saltkernel.specs.Words.{SaysOneThat};
ghost use Rattle.saltkernel.specs.Sessions.{SaysSessionFed, SaysStepped};

use super::number_and;
use super::words::{SaltUnpacked, unpacked_numbers_of};
use session::{Fed, Session, SteppedBack};

// The symbol's TPS bit and the session behind it; or a refusal's number, the bit 0 and the session as it went in.
#[repr(C)]
#[derive(Clone, Copy)]
pub struct SaltSessionFed {
    pub number: u8,
    pub bit: u8,
    pub session: Session,
}

// The session before its latest symbol; or a refusal's number and the session as it went in.
#[repr(C)]
#[derive(Clone, Copy)]
pub struct SaltSessionStepped {
    pub number: u8,
    pub session: Session,
}

// A session with no symbol standing, in frame 0; its journal may hold anything.
#[unsafe(no_mangle)]
pub extern "C" fn salt_session_new() -> Session
    ensures { result ≡ fresh mode2k }
{
    Session::new()
}

// The session with no symbol standing again.
#[unsafe(no_mangle)]
pub extern "C" fn salt_session_reset(session: Session) -> Session
    ensures { result ≡ fresh mode2k }
{
    session.reset()
}

// Takes one symbol: its 1,512 data cells to the output, its 17 TPS cells to their place of the journal, both in rising
// active order, and its TPS bit. With 68 standing it is the first symbol of the next frame.
// Refusals: 1 LENGTH (fewer than 4,096 floats of symbol), 3 OUTPUT SHORT (room for fewer than 3,024 floats, or a
// journal under 4,624), 6 FULL (68 stand and 1,000,000 frames are before them).
#[unsafe(no_mangle)]
pub extern "C" fn salt_session_feed(
    session: Session,
    symbol: &[f32],
    out: &mut [f32],
    journal: &mut [f32],
) -> SaltSessionFed
    ensures answer { SaysSessionFed result (feed_answer mode2k session symbol.now out.old
        journal.old) }
    ensures output { out.new
        ≡ feed_data_leaves mode2k session symbol.now out.old journal.old }
    ensures journal { journal.new
        ≡ feed_journal_leaves mode2k session symbol.now out.old journal.old }
{
    let Fed { answer, session } = session.feed(symbol, out, journal);
    let (number, bit) = number_and(answer, 0);
    SaltSessionFed {
        number,
        bit,
        session,
    }
}

// Takes the latest standing symbol back; the first of a later frame leaves the 68 of the frame before standing. The
// journal is only read.
// Refusals: 3 OUTPUT SHORT (a journal under 4,624), 7 EMPTY (none stands; or a third frame was begun, the current one
// is the one before the furthest begun, and one symbol stands in it).
#[unsafe(no_mangle)]
pub extern "C" fn salt_session_step_back(session: Session, journal: &[f32]) -> SaltSessionStepped
    ensures { SaysStepped result (step_back_answer mode2k session journal.now) }
{
    let SteppedBack { answer, session } = session.step_back(journal);
    let (number, ()) = number_and(answer, ());
    SaltSessionStepped { number, session }
}

// The phase of the session's next symbol, 0 to 3.
#[unsafe(no_mangle)]
pub extern "C" fn salt_session_phase(session: Session) -> usize
    ensures { result ≡ next_phase session }
{
    session.phase()
}

// The word of the 68 standing symbols of the current frame.
// Refusals: 8 INCOMPLETE, 4 NO WORD, 5 RESERVED.
#[unsafe(no_mangle)]
pub extern "C" fn salt_session_word(session: Session) -> SaltUnpacked
    ensures { SaysOneThat (Words session) result }
{
    unpacked_numbers_of(session.word())
}
