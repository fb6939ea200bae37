// The decoder that anyone can read: it tries the bits as they are, then each single change, then each pair.
ghost use Rattle.std.specs.Prelude.{◌≡◌, ◌^◌, ◌<◌, ◌≤◌};
ghost use Rattle.bch.specs.Code.{step};
ghost use Rattle.bch.specs.NearCodeword.{is_codeword};
ghost use Rattle.bch.specs.Search.{flip, NextChange, Changes};

use super::lent::Lent;
use super::search::Found;

// One step of long division: the next bit is brought down, and the generator taken off where its degree is reached.
fn divided(rest: u16, bit: u8) -> u16
    requires { (rest < 2 ^ 14) × (bit < 2) }
    ensures { result ≡ step rest bit }
{
    let longer = rest * 2 + u16::from(bit);
    if longer < 0x4000 {
        return longer;
    }
    longer ^ 0x4377
}

// Whether the parity of 67 bits checks: the generator divides them (EN 300 744, 4.6.2.11).
fn parity_checks(code: Lent<67>) -> bool
    ensures { result ≡ is_codeword code.entry.bits.now }
{
    let mut rest: u16 = 0;
    for bit in code.bits {
        rest = divided(rest, *bit);
    }
    rest == 0
}

// The bits with one of them changed.
fn changed(code: Lent<67>, place: u8) -> [u8; 67]
    requires { place < 67 }
    ensures { result ≡ flip code.entry.bits.now place }
{
    let mut next = [0; 67];
    next.copy_from_slice(code.bits);
    super::flip_at(&mut next, place);
    next
}

// The first place, from one on, whose change makes the parity check, where there is one.
fn next_change(code: Lent<67>, from: u8) -> Option<u8>
    requires { from ≤ 67 }
    ensures { NextChange code.entry.bits.now from result }
{
    for place in from..67 {
        let next = changed(code, place);
        if parity_checks(Lent { bits: &next }) {
            return Some(place);
        }
    }
    None
}

// The changed places of 67 bits: none where they are a codeword, else the first change that makes them one, else the
// first pair of changes, where one does.
pub(crate) fn changes(code: Lent<67>) -> Option<Found>
    ensures { Changes code.entry.bits.now result }
{
    if parity_checks(code) {
        return Some(Found::Clean);
    }
    if let Some(single) = next_change(code, 0) {
        return Some(Found::One(single));
    }
    for first in 0..67 {
        let next = changed(code, first);
        if let Some(second) = next_change(Lent { bits: &next }, first + 1) {
            return Some(Found::Two(first, second));
        }
    }
    None
}
