// Cells.
ghost use Rattle.std.specs.Prelude.{◌≡◌, cond};
ghost use Rattle.ground.specs.Cell.{same_cell};

use ground::Cell;

// 1 where both parts of two cells have the same bits, any NaN counting as any other; else 0.
#[unsafe(no_mangle)]
pub extern "C" fn salt_cell_same(cell: Cell, other: Cell) -> u8
    ensures { result ≡ cond (same_cell cell other) 1 0 }
{
    u8::from(cell.same(other))
}
