// The symbol interleaver (4.3.4.2).
ghost use Rattle.interleaver.specs.Permutation.{interleaver2k};
ghost use Rattle.interleaver.specs.Interleaving.{reorder_answer, Interleaves, Deinterleaves};
ghost use Rattle.saltkernel.specs.Numbers.{Says};

use super::{SaltCounted, numbers_of};

// Interleaves the 1,512 data cells of a symbol. Of the symbol's number only even and odd count: in even symbols cell q
// is written at place H(q), in odd ones the cell at place H(q) is written at q. Answers 1,512, the cells written.
// Refusals: 1 LENGTH (fewer than 3,024 floats of cells), 3 OUTPUT SHORT (room for fewer than 3,024 floats).
#[unsafe(no_mangle)]
pub extern "C" fn salt_interleave(symbol: usize, cells: &[f32], out: &mut [f32]) -> SaltCounted
    ensures answer { Says result (reorder_answer interleaver2k cells.now out.old) }
    ensures output { Interleaves interleaver2k symbol
        cells.now out.old out.new }
{
    numbers_of(interleaver::interleave(symbol, cells, out))
}

// Undoes what salt_interleave did to the 1,512 data cells of a symbol with this number. Answers 1,512, the cells
// written.
// Refusals: 1 LENGTH (fewer than 3,024 floats of cells), 3 OUTPUT SHORT (room for fewer than 3,024 floats).
#[unsafe(no_mangle)]
pub extern "C" fn salt_deinterleave(symbol: usize, cells: &[f32], out: &mut [f32]) -> SaltCounted
    ensures answer { Says result (reorder_answer interleaver2k cells.now out.old) }
    ensures output { Deinterleaves interleaver2k symbol
        cells.now out.old out.new }
{
    numbers_of(interleaver::deinterleave(symbol, cells, out))
}
