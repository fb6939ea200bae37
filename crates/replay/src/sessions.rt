// The case of the receive session: a script of calls on a new session, a byte each, where 255 resets, 254 steps back,
// and any lower byte feeds the symbol of its number. The answer is what the last feed gives, which is its data, its
// phase, its bit, how many symbols stand and how many frames are before, and all bits.
use ground::Refusal;
use session::{Fed, Session};
use stored::inner::Room;

// Lays the phase in which a symbol is fed, its bit, or 255, and how many symbols stand and frames are before then.
fn put_fed(phase: usize, fed: &Fed, room: &mut Room) {
    let told = [
        (phase % 256) as u8,
        fed.answer.unwrap_or(255),
        (fed.session.count % 256) as u8,
        (fed.session.frames % 256) as u8,
    ];
    stored::inner::lay(&told, 12096, room);
}

// The session after the symbol of a number.
fn fed(
    session: Session,
    number: u8,
    journal: &mut [f32; session::JOURNAL_FLOATS],
    room: &mut Room,
) -> Session {
    let symbol = stored::inner::symbol_of(number);
    let mut data = [0.5; carriers::DATA_FLOATS];
    let fed = session.feed(&symbol, &mut data, journal);
    stored::inner::lay_floats(&data, 0, room);
    put_fed(session.phase(), &fed, room);
    fed.session
}

// The session after a call.
fn called(
    session: Session,
    call: u8,
    journal: &mut [f32; session::JOURNAL_FLOATS],
    room: &mut Room,
) -> Session {
    match call {
        255 => session.reset(),
        254 => session.step_back(journal).session,
        number => fed(session, number, journal, room),
    }
}

// Session.
pub(crate) fn session(script: &[u8], room: &mut Room) -> Result<usize, Refusal> {
    let mut journal = [0.5; session::JOURNAL_FLOATS];
    let mut session = Session::new();
    for call in script {
        session = called(session, *call, &mut journal, room);
    }
    Ok(stored::inner::lay(&session.bits, 12100, room))
}
