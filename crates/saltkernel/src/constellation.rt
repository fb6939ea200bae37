// Gray mapping, hard and soft demapping (4.3.5).
ghost use Rattle.std.specs.Prelude.{◌≡◌};
ghost use Rattle.gray.specs.Mapping.{map_answer};
ghost use Rattle.gray.specs.Hard.{demap_answer, Demapped};
ghost use Rattle.gray.specs.Soft.{soft_answer};
ghost use Rattle.saltkernel.specs.Carriers.{SaysBoosted};
ghost use Rattle.saltkernel.specs.Numbers.{Says, SaysPoint, SaysSoft};

use super::{SaltCounted, SaltMapped, number_and, numbers_of, sizes};
use gray::Soft;
use ground::{Cell, Refusal};

// The first `count` values, 2, 4 or 6, and +0.0 behind them; or a refusal's number, the count 0 and +0.0 throughout.
#[repr(C)]
#[derive(Clone, Copy)]
pub struct SaltSoft {
    pub number: u8,
    pub count: usize,
    pub values: [f32; sizes::SOFT_VALUES],
}

// A point, or a pilot's value, as numbers.
#[tactic(auto, unfolding(ground::specs::Cells::plus_zero))]
pub(super) fn point_numbers_of(answer: Result<Cell, Refusal>) -> SaltMapped
    ensures point { SaysPoint result answer }
    ensures boosted { SaysBoosted result answer }
{
    // Not by `number_and`, because the two parts would go through memory, and a boosted pilot take twice as long.
    match answer {
        Ok(Cell { re, im }) => SaltMapped {
            number: 0,
            point: Cell { re, im },
        },
        Err(refusal) => SaltMapped {
            number: u8::from(refusal),
            point: Cell { re: 0.0, im: 0.0 },
        },
    }
}

// The point of a group of 2, 4 or 6 bits (QPSK, 16-QAM, 64-QAM): even bits, high first, index the I axis, odd bits the
// Q axis.
// Refusals: 1 LENGTH (another group size), 2 NOT A BIT.
#[unsafe(no_mangle)]
pub extern "C" fn salt_dvb_t_map_symbol(bits: &[u8]) -> SaltMapped
    ensures { SaysPoint result (map_answer bits.now) }
{
    point_numbers_of(gray::dvb_t_map_symbol(bits))
}

// The v bits of the point nearest to a cell: on each axis the first index with the least distance. NaN or an infinity
// gives index 0 on its axis. Answers v.
// Refusals: 1 LENGTH (v isn't 2, 4 or 6), 3 OUTPUT SHORT.
#[unsafe(no_mangle)]
pub extern "C" fn salt_dvb_t_demap_symbol(sym: Cell, v: usize, out: &mut [u8]) -> SaltCounted
    ensures answer { Says result (demap_answer v out.old) }
    ensures output { Demapped sym v out.old out.new }
{
    numbers_of(gray::dvb_t_demap_symbol(sym, v, out))
}

// Soft values as numbers.
#[tactic(auto, unfolding(ground::specs::Cells::plus_zero))]
fn soft_numbers_of(answer: Result<Soft, Refusal>) -> SaltSoft
    ensures { SaysSoft result answer }
{
    match answer {
        Ok(Soft::Two(a, b)) => SaltSoft {
            number: 0,
            count: 2,
            values: [a, b, 0.0, 0.0, 0.0, 0.0],
        },
        Ok(Soft::Four(a, b, c, d)) => SaltSoft {
            number: 0,
            count: 4,
            values: [a, b, c, d, 0.0, 0.0],
        },
        Ok(Soft::Six(a, b, c, d, e, f)) => SaltSoft {
            number: 0,
            count: 6,
            values: [a, b, c, d, e, f],
        },
        Err(refusal) => SaltSoft {
            number: u8::from(refusal),
            count: 0,
            values: [0.0; sizes::SOFT_VALUES],
        },
    }
}

// The soft values of a cell's v bits: the least squared distance to a level whose bit is 1 minus the same for 0, so
// positive where 0 is likelier. A NaN or infinite coordinate gives NaN on its axis.
// Refusals: 1 LENGTH (v isn't 2, 4 or 6).
#[unsafe(no_mangle)]
pub extern "C" fn salt_dvb_t_soft_llr(sym: Cell, v: usize) -> SaltSoft
    ensures { SaysSoft result (soft_answer sym v) }
{
    soft_numbers_of(gray::dvb_t_soft_llr(sym, v))
}
