// The desk: the whole cell id of a super-frame, out of the words of its four frames (document 02, E3; EN 300 744,
// 4.6.2.4 and 4.6.2.10). A word is what crate tps has read; nothing of a signal is known here.
#![tactic(auto)]

ghost use Rattle.std.specs.Prelude.{◌≡◌};
ghost use Rattle.desk.specs.Desk.{fresh, parameters_of, as_read, started, afresh, agrees};
ghost use Rattle.desk.specs.Desk.{gone_on, accepted, refused, take_answer};

use ground::{ConstellationOrder, Refusal};
use tps::{GuardInterval, PunctureRate, TpsWord};

// The number of a super-frame's last word.
const LAST: u8 = 3;

// What the words of a super-frame share, by EN 300 744's codes.
#[repr(C)]
#[derive(Clone, Copy, Debug, Default, PartialEq, Eq)]
pub struct Parameters {
    pub constellation: u8,
    pub code_rate_hp: u8,
    pub guard: u8,
}

// What is gathered of a super-frame: the number of the word that is wanted next, and the high byte, the low byte and
// the parameters of the words before it. With 0 wanted none of these is read, and with 1 no low byte. Of a desk that
// is made by hand a number above 3 is read as 0, and parameters that no word has agree with none.
#[repr(C)]
#[derive(Clone, Copy, Debug, Default, PartialEq, Eq)]
pub struct Desk {
    pub wanted: u8,
    pub high: u8,
    pub low: u8,
    pub parameters: Parameters,
}

// A super-frame by its sixteen bits of cell id and what its words share. The three parameters stay fields of their own
// here, since `super_frame_by`, `complete_exactly` and the clauses over C (`SaysTaken`) name them.
#[derive(Clone, Copy)]
pub struct SuperFrame {
    pub cell_id: u16,
    pub constellation: ConstellationOrder,
    pub code_rate_hp: PunctureRate,
    pub guard: GuardInterval,
}

// The answer to a word, which is the super-frame that it completes, or none where it is gathered; and the desk after
// it, which two refusals change; the clauses over C (`SaysTaken`) name its fields.
#[derive(Clone, Copy)]
pub struct Taken {
    pub answer: Result<Option<SuperFrame>, Refusal>,
    pub desk: Desk,
}

impl From<TpsWord> for Parameters {
    ghost from_gives = { λ word parameters. parameters ≡ parameters_of word };

    fn from(word: TpsWord) -> Parameters {
        Parameters {
            constellation: word.constellation as u8,
            code_rate_hp: word.code_rate_hp as u8,
            guard: word.guard as u8,
        }
    }
}

// The desk that has gathered this word alone.
fn started(word: TpsWord) -> Desk
    ensures { result ≡ started word }
{
    Desk {
        wanted: 1,
        high: word.cell_id,
        low: 0,
        parameters: Parameters::from(word),
    }
}

// The desk after a refused word: afresh with it where its number is 0, and else with nothing gathered.
fn afresh(word: TpsWord) -> Desk
    ensures { result ≡ afresh word }
{
    if word.frame_number == 0 {
        started(word)
    } else {
        Desk::new()
    }
}

// The answer to a word that is refused, and the desk after it.
fn refused(refusal: Refusal, word: TpsWord) -> Taken
    ensures { result ≡ refused refusal word }
{
    Taken {
        answer: Err(refusal),
        desk: afresh(word),
    }
}

impl Desk {
    // A desk with nothing gathered.
    pub fn new() -> Self
        ensures { result ≡ fresh }
    {
        Self::default()
    }

    // The desk as it is read: a number above 3 that is wanted counts as 0. It stays a number and is no enum of what is
    // gathered: a frame's number is one, and the C interface hands a desk over by its fields.
    fn as_read(self) -> Desk
        ensures { result ≡ as_read self }
    {
        if self.wanted <= LAST {
            return self;
        }
        Desk { wanted: 0, ..self }
    }

    // Whether a word agrees with what is gathered, where its number is the one wanted.
    fn agrees(self, word: TpsWord) -> bool
        ensures { result ≡ agrees self.wanted self word }
    {
        // The two tests return at once, since one match over all of them took a tenth longer a word.
        if self.wanted == 0 {
            return true;
        }
        if self.parameters != Parameters::from(word) {
            return false;
        }
        match self.wanted {
            1 => true,
            2 => self.high == word.cell_id,
            _ => self.low == word.cell_id,
        }
    }

    // The desk with a word more, where its number is the one wanted and it agrees.
    fn gone_on(self, word: TpsWord) -> Desk
        ensures { result ≡ gone_on self.wanted self word }
    {
        match self.wanted {
            0 => started(word),
            1 => Desk {
                wanted: 2,
                low: word.cell_id,
                ..self
            },
            2 => Desk {
                wanted: LAST,
                ..self
            },
            _ => Desk::new(),
        }
    }

    // The super-frame that a word completes, where its number is the one wanted and it agrees: none before the last.
    fn super_frame(self, word: TpsWord) -> Option<SuperFrame>
        ensures { result ≡ accepted self.wanted self word }
    {
        if self.wanted < LAST {
            return None;
        }
        Some(SuperFrame {
            cell_id: u16::from_be_bytes([self.high, self.low]),
            constellation: word.constellation,
            code_rate_hp: word.code_rate_hp,
            guard: word.guard,
        })
    }

    // Takes the next word that was read: it is gathered, completes a super-frame, or is refused (document 02, E3).
    #[tactic(auto, unfolding(crate::specs::Desk::take_answer))]
    pub fn take(self, word: TpsWord) -> Taken
        ensures { result ≡ take_answer self word }
    {
        let desk = self.as_read();
        if word.frame_number != desk.wanted {
            return refused(Refusal::OutOfStep, word);
        }
        if !desk.agrees(word) {
            return refused(Refusal::Mismatch, word);
        }
        Taken {
            answer: Ok(desk.super_frame(word)),
            desk: desk.gone_on(word),
        }
    }
}
