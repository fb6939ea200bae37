// Remainders by the generator: a high part folded down, the parity of 53 bits, and the remainder of 67.
ghost use Rattle.std.specs.Prelude.{◌≡◌, ◌^◌, ◌<◌};
ghost use Rattle.ground.specs.Digits.{digits_of};
ghost use Rattle.bch.specs.Polynomial.{degrees_of, folded};
ghost use Rattle.bch.specs.Code.{remainder_of, parity};

use super::lent::Lent;

// The terms whose sum with 1 is x^33, each a binary digit at its degree: x^11 + x^4 + x^2.
const TERMS_33: u64 = 0x0814;

// The same of x^22: x^13 + x^9 + x^4 + x.
const TERMS_22: u64 = 0x2212;

// The same of x^14: the generator's terms between 1 and x^14.
const TERMS_14: u64 = 0x0376;

// A polynomial whose part from some x^n on is `high`, with x^n as 1 and terms below degree 14.
fn folded(low: u64, high: u64, terms: u64) -> u64
    requires { high < 2 ^ 50 }
    ensures { result ≡ folded (degrees_of 14 terms) low high }
{
    let mut sum = low ^ high;
    for degree in 0..14u32 {
        sum ^= (terms >> degree) % 2 * (high << degree);
    }
    sum
}

// The parity of 53 information bits, packed (EN 300 744, 4.6.2.11).
pub(crate) fn parity_of(info: u64) -> u64
    requires { info < 2 ^ 53 }
    ensures { result ≡ parity (digits_of 53 info) }
{
    let first = folded((info % 0x8_0000) * 0x4000, info >> 19, TERMS_33);
    let second = folded(first % 0x2_0000_0000, first >> 33, TERMS_33);
    let third = folded(second % 0x40_0000, second >> 22, TERMS_22);
    let fourth = folded(third % 0x4000, third >> 14, TERMS_14);
    folded(fourth % 0x4000, fourth >> 14, TERMS_14)
}

// The remainder of 67 bits by the generator.
pub(crate) fn remainder(code: Lent<67>) -> u64
    ensures { result ≡ remainder_of 0 code.entry.bits.now }
{
    let information = ground::inner::packed(&code.bits[..53]);
    let parity = ground::inner::packed(&code.bits[53..]);
    parity ^ parity_of(information)
}
