// The symbol interleaver of the DVB-T 2K mode and its inverse (EN 300 744, 4.3.4.2): the 1,512 data cells of a symbol,
// one direction on even symbols and the other on odd.
#![tactic(auto)]

ghost use Rattle.std.specs.Prelude.{◌≡◌, ℕ, ◌*◌, ◌≤◌, length, get_or};
ghost use Rattle.interleaver.specs.Permutation.{interleaver2k, permutation};
ghost use Rattle.interleaver.specs.Interleaving.{reorder_answer, Interleaves, Deinterleaves};
ghost use Rattle.interleaver.specs.Inner.{Apart, Moved};

use ground::Refusal;
use tables::PLACES;

mod tables;

// The cells that are interleaved: the data cells of a symbol.
pub const INTERLEAVED_CELLS: usize = 1512;

// Their f32, two a cell.
pub const INTERLEAVED_FLOATS: usize = 2 * INTERLEAVED_CELLS;

// The place of each cell.
fn table() -> &'static [u16; INTERLEAVED_CELLS]
    ensures { result.now ≡ permutation interleaver2k }
{
    &PLACES
}

// Each cell written at its place.
fn spread(places: &[u16], cells: &[f32], out: &mut [f32])
    requires { (Apart places.now) × (2 * length places.now ≤ length cells.now)
        × (2 * length places.now ≤ length out.old) }
    ensures { Moved (length places.now) (λ q. get_or places.now q 0) (λ q. q)
        (length places.now) cells.now out.old out.new }
{
    for (q, p) in places.iter().enumerate() {
        ground::inner::put_cell(out, usize::from(*p), ground::inner::cell_at(cells, q));
    }
}

// Each cell read at its place.
fn gather(places: &[u16], cells: &[f32], out: &mut [f32])
    requires { (Apart places.now) × (2 * length places.now ≤ length cells.now)
        × (2 * length places.now ≤ length out.old) }
    ensures { Moved (length places.now) (λ q. q) (λ q. get_or places.now q 0)
        (length places.now) cells.now out.old out.new }
{
    // One function for both directions would need a flag or two closures for which side a place belongs to, and
    // grid::inner::gather has another promise, from which this one's proof is longer than the loop.
    for (q, p) in places.iter().enumerate() {
        ground::inner::put_cell(out, q, ground::inner::cell_at(cells, usize::from(*p)));
    }
}

// The 1,512 cells of a symbol, interleaved: in even symbols each is written at its place, in odd ones read there
// (EN 300 744, 4.3.4.2).
pub fn interleave(symbol: usize, cells: &[f32], out: &mut [f32]) -> Result<usize, Refusal>
    ensures value { result ≡ reorder_answer interleaver2k cells.now out.old }
    ensures interleaves { Interleaves interleaver2k symbol
        cells.now out.old out.new }
{
    if cells.len() < INTERLEAVED_FLOATS {
        return Err(Refusal::Length);
    }
    if out.len() < INTERLEAVED_FLOATS {
        return Err(Refusal::OutputShort);
    }
    let places = table();
    if symbol % 2 == 0 {
        spread(places, cells, out);
    } else {
        gather(places, cells, out);
    }
    Ok(INTERLEAVED_CELLS)
}

// The 1,512 cells of a symbol in the order that they had before they were interleaved: one direction on even symbols
// is the other on odd.
pub fn deinterleave(symbol: usize, cells: &[f32], out: &mut [f32]) -> Result<usize, Refusal>
    ensures value { result ≡ reorder_answer interleaver2k cells.now out.old }
    ensures deinterleaves { Deinterleaves interleaver2k symbol
        cells.now out.old out.new }
{
    interleave(symbol % 2 + 1, cells, out)
}
