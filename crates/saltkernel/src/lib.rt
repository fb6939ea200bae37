// Saltkernel: the DVB-T 2K waveform layer of a bench analyser. C99 and C++.
//
// Link with libsaltkernel.a (`tests/archive` has target/staticlib/libsaltkernel.a written, for x86-64).
// `include/generate` makes include/saltkernel.h and rust/src/sys.rs from crates/saltkernel: change them there.
//
// A slice is two arguments, a pointer and a length in items. The pointer isn't null, even where the length is 0, and
// is aligned for its type. The slices of one call don't overlap. A `const` one is only read; into any other the call
// writes what is said of it and nothing behind that. A pointer with no length beside it is a slice whose length is
// said at its function.
//
// Every function is defined for all values and all lengths. A call that can't be done is refused: its answer has the
// refusal's number, every other part of the answer is 0, SALT_NO_PLACE or the state as it went in, and every slice is
// unchanged; 10 and 11 alone change a state, the desk's. Number 0 is accepted. Of several refusals that apply the
// first is given, in the order in which each function names them.
//
// State is passed and returned by value, or lent to salt_tps_decoder_feed_in_place; no function keeps any, so calls
// may be made from any thread. What a state's fields hold is no secret: a state that is copied is a second one, and a
// state that is made by hand is read as said at its type.
//
// A cell is a carrier's value, two floats: re, then im. A slice of n cells is 2 n floats, re and im in turn. A bit is
// a byte that is 0 or 1.
//
// ETSI EN 300 744 is the standard that sections (4.3.1 and others) refer to.
#![tactic(auto)]

ghost use Rattle.std.specs.Prelude.{◌≡◌};
ghost use Rattle.ground.specs.Answer.{number_of, value_or};
ghost use Rattle.ground.specs.Refusal.{code};
ghost use Rattle.saltkernel.specs.Numbers.{Says};

use ground::{Cell, Refusal};

// C has no generics, no Option and no Result, and its names stay: two exported functions that differ in a decoder or a
// list stand twice, and an answer is a number and what stands in a value's place.
mod cells;
mod codes;
mod constellation;
mod desks;
mod frames;
mod interleaving;
mod layout;
mod packets;
mod pilots;
mod reports;
mod sessions;
mod sizes;
mod symbols;
mod whitener;
mod words;

// A count, or a refusal's number and the count 0.
#[repr(C)]
#[derive(Clone, Copy)]
pub struct SaltCounted {
    pub number: u8,
    pub count: usize,
}

// A cell, or a refusal's number and the cell +0.0, +0.0.
#[repr(C)]
#[derive(Clone, Copy)]
pub struct SaltMapped {
    pub number: u8,
    pub point: Cell,
}

// An answer as C has it: 0 and the value, or the refusal's number and what stands in the value's place.
fn number_and<T: Copy>(answer: Result<T, Refusal>, other: T) -> (u8, T)
    ensures number { result.0 ≡ code (number_of answer) }
    ensures value { result.1 ≡ value_or other answer }
{
    match answer {
        Ok(value) => (0, value),
        Err(refusal) => (u8::from(refusal), other),
    }
}

// An answer that is a count, as two numbers.
fn numbers_of(answer: Result<usize, Refusal>) -> SaltCounted
    ensures { Says result answer }
{
    let (number, count) = number_and(answer, 0);
    SaltCounted { number, count }
}
