// The receive session: the extractor and the TPS decoder joined, with a journal of two frames that steps back.
// C reads and writes a `Session`, so it keeps what stands there as C has it: a byte that says whether, and bits beside
// their count.
#![tactic(auto)]

ghost use Rattle.std.specs.Prelude.{◌≡◌, ◌-◌, ◌≤◌, ◌<◌, length};
ghost use Rattle.carriers.specs.Mode.{mode2k};
ghost use Rattle.tps.specs.Word.{SYMBOLS};
ghost use Rattle.session.specs.Journal.{journal_size};
ghost use Rattle.session.specs.Session.{standing, frame_of, next_phase, decoder_of, session_in, start_of};
ghost use Rattle.session.specs.Session.{refused, fresh, full, open_of, fed_by, Feeds};
ghost use Rattle.session.specs.Session.{crosses, back_to, back_over, step_back_answer, Words};

use carriers::{DATA_FLOATS, SYMBOL_FLOATS, TPS_CARRIER_COUNT, TPS_FLOATS};
use grid::ScatteredPilotExtractor;
use ground::{Cell, Refusal};
use tps::{MendedWord, TPS_SYMBOLS_PER_FRAME, TpsDecoder};

mod halves;

// The f32 of a journal: a place for the TPS cells of each symbol of two frames.
pub const JOURNAL_FLOATS: usize = 2 * TPS_SYMBOLS_PER_FRAME * TPS_FLOATS;

// The largest count of frames before the current one.
pub const LAST_FRAME: usize = 1000000;

// The session: the previous symbol's TPS cells, the bits and how many symbols stand in the current frame, how many
// frames are before it since the reset, and whether a later one was begun, which any number but 0 says. A count above
// 68 is read as 68, one of frames above 1,000,000 as that, a held bit above 1 as 1, and a bit that doesn't stand as 0.
#[repr(C)]
#[derive(Clone, Copy)]
pub struct Session {
    pub prev: [Cell; TPS_CARRIER_COUNT],
    pub bits: [u8; TPS_SYMBOLS_PER_FRAME],
    pub count: usize,
    pub frames: usize,
    pub behind: u8,
}

// What a call answers, and the session after it.
#[derive(Clone, Copy)]
pub struct Called<T> {
    pub answer: Result<T, Refusal>,
    pub session: Session,
}

// The TPS bit of a symbol, or the refusal, and the session after the call.
pub type Fed = Called<u8>;

// Whether a step back was done, and the session after it.
pub type SteppedBack = Called<()>;

// The session as a TPS decoder.
impl From<Session> for TpsDecoder {
    ghost from_gives = { λ session decoder. decoder ≡ decoder_of session };

    fn from(session: Session) -> TpsDecoder {
        let Session {
            prev,
            bits,
            count,
            ..
        } = session;
        TpsDecoder { prev, bits, count }
    }
}

impl Session {
    // A session at the start of its first frame.
    pub fn new() -> Self
        ensures { result ≡ fresh mode2k }
    {
        Session::start(0)
    }

    // The session at the start of its first frame again.
    pub fn reset(self) -> Self
        ensures { result ≡ fresh mode2k }
    {
        Session::new()
    }

    // A session at the start of a frame, the furthest begun.
    fn start(frame: usize) -> Self
        ensures { result ≡ start_of mode2k frame }
    {
        Session::from_decoder(frame, 0, TpsDecoder::new())
    }

    // A TPS decoder as a session in a frame, and no `From`, since a decoder doesn't say which frame.
    fn from_decoder(frames: usize, behind: u8, decoder: TpsDecoder) -> Self
        ensures { result ≡ session_in frames behind decoder }
    {
        let TpsDecoder { prev, bits, count } = decoder;
        Session {
            prev,
            bits,
            count,
            frames,
            behind,
        }
    }

    // The phase of the next symbol.
    pub fn phase(self) -> usize
        ensures { result ≡ next_phase self }
    {
        tps::inner::standing_count(self.count) % 4
    }

    // Where the next symbol goes: the start of the next frame where 68 stand, else the session itself.
    #[tactic(auto, unfolding(crate::specs::Session::open_of))]
    fn opened(self) -> Self
        ensures session { result ≡ open_of mode2k self }
        ensures room { result.count < SYMBOLS }
    {
        let frames = halves::frame_count(self.frames);
        if TPS_SYMBOLS_PER_FRAME <= self.count {
            return Session::start(frames + 1);
        }
        Session { frames, ..self }
    }

    // The answer to a symbol's TPS cells, with the session after it.
    #[tactic(auto, unfolding(crate::specs::Session::fed_by))]
    fn take_bit(self, cells: &[f32]) -> Fed
        ensures { result ≡ fed_by mode2k self cells.now }
    {
        let fed = TpsDecoder::from(self).feed_symbol(cells);
        Fed {
            answer: fed.answer,
            session: Session::from_decoder(self.frames, self.behind, fed.decoder),
        }
    }

    // The refusal of a call, which leaves the session as it is.
    fn refused<T>(self, refusal: Refusal) -> Called<T>
        ensures { result ≡ refused refusal self }
    {
        Called {
            answer: Err(refusal),
            session: self,
        }
    }

    // Whether all of the last frame stands.
    fn is_full(self) -> bool
        ensures { result ≡ full (frame_of self) (standing self) }
    {
        LAST_FRAME <= self.frames && TPS_SYMBOLS_PER_FRAME <= self.count
    }

    // One symbol of 2,048 cells: its data cells to the lent output, its TPS cells to the journal, and its TPS bit.
    #[tactic(auto, unfolding(crate::specs::Session::feed_no_of))]
    pub fn feed(self, symbol: &[f32], out: &mut [f32], journal: &mut [f32]) -> Fed
        ensures { Feeds mode2k self symbol.now out.old journal.old result
            out.new journal.new }
    {
        if symbol.len() < SYMBOL_FLOATS {
            return self.refused(Refusal::Length);
        }
        if out.len() < DATA_FLOATS || journal.len() < JOURNAL_FLOATS {
            return self.refused(Refusal::OutputShort);
        }
        if self.is_full() {
            return self.refused(Refusal::Full);
        }
        let session = self.opened();
        let n = session.count;
        // The lengths suffice, so the extractor refuses nothing.
        let _ = ScatteredPilotExtractor { phase: n }.extract_symbol(symbol, out);
        let cells = halves::tps_cells(symbol);
        halves::put_cells(&cells, session.frames, n, journal);
        session.take_bit(&cells)
    }

    // Whether the latest symbol is the first of a later frame, so that taking it back leads to the frame before.
    fn crosses(self) -> bool
        ensures { result ≡ crosses (frame_of self) (standing self) }
    {
        self.count == 1 && 1 <= self.frames
    }

    // The session with n standing in its frame, of one with more.
    #[tactic(auto, unfolding(crate::specs::Session::back_to))]
    fn back_to(self, n: usize, journal: &[f32]) -> Self
        requires { (n < SYMBOLS) × (journal_size mode2k ≤ length journal.now) }
        ensures { result ≡ back_to mode2k n self journal.now }
    {
        let frames = halves::frame_count(self.frames);
        Session {
            prev: halves::cells_before(n, halves::frame_in(frames, journal)),
            bits: tps::inner::held_bits(self.bits, n),
            count: n,
            frames,
            ..self
        }
    }

    // The session with all of the frame before standing, out of the journal.
    #[tactic(auto, unfolding(crate::specs::Session::back_over))]
    fn back_over(self, journal: &[f32]) -> Self
        requires { (1 ≤ self.frames) × (journal_size mode2k ≤ length journal.now) }
        ensures { result ≡ back_over mode2k (frame_of self - 1) journal.now }
    {
        let before = halves::frame_count(self.frames) - 1;
        let decoder = halves::replay(halves::frame_in(before, journal));
        Session::from_decoder(before, 1, decoder)
    }

    // The latest standing symbol is taken back: the session with the one before it as the latest, in the frame before
    // where it was the first of a later one.
    #[tactic(auto, unfolding(crate::specs::Session::step_back_no_of, crate::specs::Session::back_of))]
    pub fn step_back(self, journal: &[f32]) -> SteppedBack
        ensures { result ≡ step_back_answer mode2k self journal.now }
    {
        if journal.len() < JOURNAL_FLOATS {
            return self.refused(Refusal::OutputShort);
        }
        let count = tps::inner::standing_count(self.count);
        let crosses = self.crosses();
        if count == 0 || (crosses && self.behind != 0) {
            return self.refused(Refusal::Empty);
        }
        let session = if crosses {
            self.back_over(journal)
        } else {
            self.back_to(count - 1, journal)
        };
        SteppedBack {
            answer: Ok(()),
            session,
        }
    }

    // The word of the current frame's 68 symbols.
    pub fn word(self) -> Result<MendedWord, Refusal>
        ensures { Words self result }
    {
        TpsDecoder::from(self).word()
    }
}
