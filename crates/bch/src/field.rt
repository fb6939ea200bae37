// The field GF(128): its elements, their sum and product, products by powers of x, and the syndromes of a remainder.
ghost use Rattle.std.specs.Prelude.{◌≡◌, ◌^◌, ◌<◌, ◌≤◌};
ghost use Rattle.std.specs.Int.Bits.{bit_xor};
ghost use Rattle.bch.specs.Field.{times_power, horner, mul, syndrome1, syndrome3};

use std::ops::{Add, Mul};

// An element: a polynomial below degree seven, whose coefficients are the binary digits of a number.
#[derive(Clone, Copy, Debug, PartialEq, Eq)]
pub(crate) struct Element {
    pub(crate) digits: u8,
    ghost below: { digits < 2 ^ 7 },
}

impl Element {
    pub(crate) const ZERO: Element = Element { digits: 0 };

    pub(crate) const ONE: Element = Element { digits: 1 };

    // The element times x^k.
    pub(crate) fn times_power(self, k: u8) -> Element
        requires { k ≤ 4 }
        ensures { result.digits ≡ times_power k self.digits }
    {
        let high = self.digits >> (7 - k);
        Element {
            digits: (self.digits % (1 << (7 - k)) * (1 << k)) ^ high ^ (high * 8),
        }
    }

    // The element times the polynomial of the n low digits of a number, at x^k.
    fn sum_at(self, k: u8, digits: u64, n: u64) -> Element
        requires { k ≤ 4 }
        ensures { result.digits ≡ horner (times_power k) n self.digits digits }
    {
        let mut sum: u8 = 0;
        let mut term = self;
        let mut rest = digits;
        for _ in 0..n {
            sum ^= (rest % 2) as u8 * term.digits;
            term = term.times_power(k);
            rest /= 2;
        }
        Element { digits: sum }
    }
}

// The sum adds the coefficients, without carry.
impl Add for Element {
    type Output = Element;

    ghost add_gives = { λ a b sum. sum.digits ≡ bit_xor a.digits b.digits };

    fn add(self, other: Element) -> Element {
        Element {
            digits: self.digits ^ other.digits,
        }
    }
}

// The product is the one element's polynomial, with the other times powers of x.
impl Mul for Element {
    type Output = Element;

    ghost mul_gives = { λ a b product. product.digits ≡ mul a.digits b.digits };

    fn mul(self, other: Element) -> Element {
        self.sum_at(1, u64::from(other.digits), 7)
    }
}

// The syndrome S1 of a remainder: its polynomial at x. S1 and S3 are two notions of the code, with a line each.
pub(crate) fn syndrome1(s: u64) -> Element
    ensures { result.digits ≡ syndrome1 s }
{
    Element::ONE.sum_at(1, s, 14)
}

// The syndrome S3 of a remainder: its polynomial at x^3.
pub(crate) fn syndrome3(s: u64) -> Element
    ensures { result.digits ≡ syndrome3 s }
{
    Element::ONE.sum_at(3, s, 14)
}
