// The bits that a call of the encoder or a decoder is lent, and what it is refused for.
ghost use Rattle.std.specs.Prelude.{◌≡◌, ◌≤◌, true, length, MatchResult, Some, None};
ghost use Rattle.ground.specs.Bits.{are_bits};

use ground::Refusal;

// N bits that a call is lent, each 0 or 1.
#[derive(Clone, Copy)]
pub(crate) struct Lent<'a, const N: usize> {
    pub(crate) bits: &'a [u8],
    ghost size: { length bits.now ≡ N },
    ghost right: { are_bits bits.now ≡ true },
}

impl<'a, const N: usize> Lent<'a, N> {
    ghost use Rattle.bch.specs.Promise.{lent_no};

    // The bits of a call that writes `needs` bytes from the output's front, or why it is refused.
    pub(crate) fn new(bits: &'a [u8], needs: usize, out: &[u8]) -> Result<Lent<'a, N>, Refusal>
        ensures { let number = lent_no N needs bits.now out.now in
            MatchResult result (λ lent. (number ≡ None) × (lent.bits.now ≡ bits.now) × (needs ≤ length out.now))
            (λ refusal. number ≡ Some refusal) }
    {
        if bits.len() != N {
            return Err(Refusal::Length);
        }
        if !ground::inner::all_bits(bits) {
            return Err(Refusal::NotABit);
        }
        if out.len() < needs {
            return Err(Refusal::OutputShort);
        }
        Ok(Lent { bits })
    }
}
