// Energy dispersal (EN 300 744, 4.3.1): the register of 15 bits, and the whitening of bytes.
#![tactic(auto)]

ghost use Rattle.std.specs.Prelude.{◌≡◌, ◌/◌, ◌%◌, ◌^◌, ◌<◌, length};
ghost use Rattle.std.specs.Int.Bits.{bit_xor};
ghost use Rattle.dispersal.specs.Register.{start, step, steps};
ghost use Rattle.dispersal.specs.Whitener.{register_of, feed_in_place_answer, feed_in_place_leaves, feed_answer};
ghost use Rattle.dispersal.specs.Whitener.{feed_leaves};
ghost use Rattle.dispersal.specs.Inner.{mirror};

use ground::Refusal;

pub mod inner;

// The register's start, 100101010000000.
pub const DVB_T_PRBS_INIT: u16 = 0x4A80;

// The whitener: its register is the low 15 bits.
#[repr(C)]
#[derive(Clone, Copy)]
pub struct DvbTEnergyDispersal {
    pub reg: u16,
}

// What whitening into a lent output gives: the whitener behind it, and the bytes written or the refusal.
// A struct of this crate's own, as in tps, report and desk, since the clauses over C (`SaysWhitened`) name its fields.
#[derive(Clone, Copy)]
pub struct Fed {
    pub whitener: DvbTEnergyDispersal,
    pub answer: Result<usize, Refusal>,
}

// The low 15 bits in the opposite order: moved up by one, since of sixteen reversed bits that are moved down the
// compiler knows that they are small, and makes the whitening loop a tenth slower (measured).
fn mirrored(bits: u16) -> u16
    ensures { result ≡ mirror 15 (bits % 2 ^ 15) }
{
    (bits % 0x8000 * 2).reverse_bits()
}

// The register one step on.
fn step(reg: u16) -> u16
    requires { reg < 2 ^ 15 }
    ensures { result ≡ step reg }
{
    let output = (reg % 2) ^ (reg / 2 % 2);
    output * 0x4000 + reg / 2
}

// The next eight outputs of a mirrored register, the first highest.
fn mask_of(ahead: u16) -> u16
    ensures { result ≡ bit_xor (ahead / 2 ^ 7) (ahead / 2 ^ 6) % 2 ^ 8 }
{
    ((ahead / 0x80) ^ (ahead / 0x40)) % 0x100
}

impl DvbTEnergyDispersal {
    // A whitener at the register's start.
    pub fn new() -> DvbTEnergyDispersal
        ensures { result.reg ≡ start }
    {
        DvbTEnergyDispersal {
            reg: DVB_T_PRBS_INIT,
        }
    }

    // The whitener at the register's start again.
    pub fn reset(self) -> DvbTEnergyDispersal
        ensures { result.reg ≡ start }
    {
        DvbTEnergyDispersal::new()
    }

    // The whitener eight steps on, over a byte that is left as it is.
    pub fn advance_byte(self) -> DvbTEnergyDispersal
        ensures { result.reg ≡ steps 8 (register_of self) }
    {
        let mut reg = self.reg % 0x8000;
        for _i in 0..8u8 {
            reg = step(reg);
        }
        DvbTEnergyDispersal { reg }
    }

    // Whitens bytes where they stand, high bit first.
    pub fn feed_in_place(self, bytes: &mut [u8]) -> DvbTEnergyDispersal
        ensures answer { result ≡ feed_in_place_answer self bytes.old }
        ensures bytes { bytes.new ≡ feed_in_place_leaves self bytes.old }
    {
        let mut ahead = mirrored(self.reg);
        for byte in bytes.iter_mut() {
            let mask = mask_of(ahead);
            *byte ^= mask as u8;
            ahead = ahead % 0x80 * 0x100 + mask;
        }
        DvbTEnergyDispersal {
            reg: mirrored(ahead),
        }
    }

    // Whitens bytes into a lent output; OUTPUT SHORT where it is shorter than they are.
    pub fn feed(self, bytes: &[u8], out: &mut [u8]) -> Fed
        ensures answer { result ≡ feed_answer self bytes.now out.old }
        ensures output { out.new ≡ feed_leaves self bytes.now out.old }
    {
        let n = bytes.len();
        if out.len() < n {
            return Fed {
                whitener: self,
                answer: Err(Refusal::OutputShort),
            };
        }
        let front = &mut out[..n];
        ground::inner::copy(bytes, front);
        Fed {
            whitener: self.feed_in_place(front),
            answer: Ok(n),
        }
    }
}
