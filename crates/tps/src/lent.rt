// The receiver, lent in parts: a symbol is fed where the receiver stands, and nothing of it is moved.
ghost use Rattle.std.specs.Prelude.{◌≡◌, ◌≤◌, length};
ghost use Rattle.carriers.specs.Mode.{mode2k, tps_size};
ghost use Rattle.tps.specs.Receive.{first_cells, correlation, feed_answer};
ghost use Rattle.tps.specs.Lent.{next_answer, lent_decoder, lent_fed};

use super::{TPS_SYMBOLS_PER_FRAME, inner};
use carriers::{TPS_CARRIER_COUNT, TPS_FLOATS};
use ground::Refusal;

// The sum of the carriers' products with the previous symbol's, in order from +0.0, each operation rounded once.
// By place, because a fold over pairs of cells, which are copied out first, misses the speed of feeding in place.
fn correlate(cells: &[f32], prev: &[f32; TPS_FLOATS]) -> f32
    requires { tps_size mode2k ≤ length cells.now }
    ensures { result ≡ correlation mode2k.tps_count
        (first_cells mode2k.tps_count cells.now) (first_cells mode2k.tps_count prev.now) }
{
    let mut sum = 0.0f32;
    for k in 0..TPS_CARRIER_COUNT {
        let a = ground::inner::cell_at(cells, k);
        let b = ground::inner::cell_at(prev, k);
        sum = sum + (a.re * b.re - a.im * (-b.im));
    }
    sum
}

// The bit of the symbol that is fed when count symbols stand. Inlined, because a call would slow both feeds.
#[inline(always)]
pub(crate) fn next_bit(count: usize, cells: &[f32], prev: &[f32; TPS_FLOATS]) -> Result<u8, Refusal>
    ensures { result ≡ next_answer mode2k count cells.now prev.now }
{
    if cells.len() < TPS_FLOATS {
        return Err(Refusal::Length);
    }
    if TPS_SYMBOLS_PER_FRAME <= count {
        return Err(Refusal::Full);
    }
    Ok(u8::from(count != 0 && correlate(cells, prev) < 0.0))
}

// The bit of one symbol's cells, re and im in turn, in rising active order (EN 300 744, 4.6.3).
pub fn feed_symbol(
    prev: &mut [f32; TPS_FLOATS],
    bits: &mut [u8; TPS_SYMBOLS_PER_FRAME],
    count: &mut usize,
    cells: &[f32],
) -> Result<u8, Refusal>
    ensures { lent_fed mode2k result prev.new bits.new count.new ≡ feed_answer mode2k
        (lent_decoder mode2k prev.old bits.old count.old) cells.now }
{
    let n = *count;
    let bit = next_bit(n, cells, prev)?;
    // Through cells, because `copy_from_slice`, which isn't inlined here, misses the speed of feeding in place.
    *prev = inner::floats_of(&inner::first_cells(cells));
    *bits = inner::held_bits(*bits, n);
    bits[n] = bit;
    *count = n + 1;
    Ok(bit)
}
