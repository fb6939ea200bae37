// TPS: the word, its sender and its receiver (EN 300 744, 4.6).
#![tactic(auto)]

pub mod inner;
pub mod lent;
pub mod receiver;
pub mod sender;
pub mod word;

// The symbols of a frame, and the bits of its word: one each (EN 300 744, 4.6.2).
pub const TPS_SYMBOLS_PER_FRAME: usize = 68;

pub use bch::{Decoder, Mended, NO_PLACE};
pub use receiver::{Fed, TpsDecoder};
pub use sender::{Sent, TpsEncoder};
pub use word::{GuardInterval, MendedWord, PunctureRate, TpsWord};
