// The decoder's search: it names the changed places of 67 bits.
ghost use Rattle.std.specs.Prelude.{◌≡◌, ℕ, ◌^◌, ◌+◌, ◌*◌, ◌<◌, ◌≤◌, eqb, MatchOption};
ghost use Rattle.std.specs.Int.Bits.{bit_xor};
ghost use Rattle.bch.specs.Field.{times_power};
ghost use Rattle.bch.specs.Search.{Syndromes, Passed, NextRoot, NoRoot, Locates, Changes};

use super::field::{Element, syndrome1, syndrome3};
use super::lent::Lent;
use super::remainder::remainder;

// At most two changed places of 67, rising.
#[derive(Clone, Copy, Debug, PartialEq, Eq)]
pub(crate) enum Found {
    Clean,
    One(u8),
    Two(u8, u8),
}

// The two terms of the locator, S1 z^2 and S1^2 z, at z = x^degree.
#[derive(Clone, Copy)]
struct Search {
    p: Element,
    q: Element,
    degree: u8,
    ghost within: { degree ≤ 67 },
}

impl Search {
    // The terms some degrees on.
    fn on(self, degrees: u8) -> Search
        requires few { degrees ≤ 2 }
        requires within { self.degree + degrees ≤ 67 }
        ensures first { result.p.digits ≡ times_power (2 * degrees) self.p.digits }
        ensures second { result.q.digits ≡ times_power degrees self.q.digits }
        ensures degree { result.degree ≡ self.degree + degrees }
    {
        Search {
            p: self.p.times_power(2 * degrees),
            q: self.q.times_power(degrees),
            degree: self.degree + degrees,
        }
    }

    // Whether the terms add up to c, so that the degree is a root of the locator.
    fn is_root(self, c: Element) -> bool
        ensures { result ≡ eqb (bit_xor self.p.digits self.q.digits) c.digits }
    {
        self.p + self.q == c
    }
}

// The search moved on past degrees that are no roots, two at a time.
fn past_pairs(search: Search, c: Element) -> Search
    ensures { let from = search in
        Passed c.digits from.p.digits from.q.digits from.degree result.p.digits result.q.digits result.degree }
{
    let mut at = search;
    // A `for` over the degrees would carry the same terms beside its degree, and hand out none where it ends.
    while at.degree < 66 {
        if at.is_root(c) || at.on(1).is_root(c) {
            return at;
        }
        at = at.on(2);
    }
    at
}

// The search moved on to the next degree that is a root of the locator, where there is one.
fn next_root(search: Search, c: Element) -> Option<Search>
    ensures { let from = search in
        MatchOption result (NoRoot c.digits from.p.digits from.q.digits from.degree)
        (λ at. NextRoot c.digits from.p.digits from.q.digits from.degree at.p.digits at.q.digits at.degree) }
{
    let mut at = past_pairs(search, c);
    // As above, a `for` would count the degree that the terms carry a second time.
    while at.degree < 67 {
        if at.is_root(c) {
            return Some(at);
        }
        at = at.on(1);
    }
    None
}

// The places of the roots of the locator S1 z^2 + S1^2 z + c among the 67, where c is S1^3 + S3: two, or one where c is
// zero, or none.
fn roots(s1: Element, s3: Element) -> Option<Found>
    ensures { (s c : ℕ) → Syndromes s s1.digits s3.digits c → Locates s result }
{
    let square = s1 * s1;
    let c = s3 + square * s1;
    let start = Search {
        p: s1,
        q: square,
        degree: 0,
    };
    let one = next_root(start, c)?;
    if c == Element::ZERO {
        return Some(Found::One(66 - one.degree));
    }
    // No `?` here, because what is answered without a second root stands nowhere then.
    match next_root(one.on(1), c) {
        Some(other) => Some(Found::Two(66 - other.degree, 66 - one.degree)),
        None => None,
    }
}

// The places whose change takes the remainder away, by its syndromes S1 and S3, where at most two do.
fn locate(s: u64) -> Option<Found>
    requires { s < 2 ^ 14 }
    ensures { Locates s result }
{
    if s == 0 {
        return Some(Found::Clean);
    }
    let s1 = syndrome1(s);
    if s1 == Element::ZERO {
        return None;
    }
    roots(s1, syndrome3(s))
}

// The changed places of 67 bits: those at which they differ from the codeword within distance two, where one is.
pub(crate) fn changes(code: Lent<67>) -> Option<Found>
    ensures { Changes code.entry.bits.now result }
{
    locate(remainder(code))
}
