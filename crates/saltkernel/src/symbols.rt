// Symbols from data cells, and data cells from symbols (4.5).
ghost use Rattle.std.specs.Prelude.{◌≡◌};
ghost use Rattle.ground.specs.Answer.{fill_answer, fill_leaves};
ghost use Rattle.carriers.specs.Mode.{mode2k};
ghost use Rattle.carriers.specs.Carriers.{data_bins};
ghost use Rattle.carriers.specs.Answers.{reference_answer, reference_bins_leaves, reference_values_leaves};
ghost use Rattle.grid.specs.Calls.{phase_of, map_answer, map_leaves, extract_answer, extract_leaves, grid_map_answer};
ghost use Rattle.grid.specs.Calls.{grid_extract_answer, grid_extract_leaves};
ghost use Rattle.saltkernel.specs.Numbers.{Says};
ghost use Rattle.saltkernel.specs.Grid.{SaysMapped, SaysExtracted};

use super::{SaltCounted, number_and, numbers_of};
use grid::{Moved, ScatteredPilotExtractor, ScatteredPilotMapper};

// The mapper in the next phase; or a refusal's number and the mapper as it went in.
#[repr(C)]
#[derive(Clone, Copy)]
pub struct SaltMapAnswer {
    pub number: u8,
    pub mapper: ScatteredPilotMapper,
}

// The extractor in the next phase; or a refusal's number and the extractor as it went in.
#[repr(C)]
#[derive(Clone, Copy)]
pub struct SaltExtractAnswer {
    pub number: u8,
    pub extractor: ScatteredPilotExtractor,
}

// What mapping a symbol answers, as numbers.
fn map_numbers_of(moved: Moved<ScatteredPilotMapper>) -> SaltMapAnswer
    ensures { SaysMapped result moved }
{
    let (number, ()) = number_and(moved.answer, ());
    SaltMapAnswer {
        number,
        mapper: moved.state,
    }
}

// What extracting a symbol answers, as numbers.
fn extract_numbers_of(moved: Moved<ScatteredPilotExtractor>) -> SaltExtractAnswer
    ensures { SaysExtracted result moved }
{
    let (number, ()) = number_and(moved.answer, ());
    SaltExtractAnswer {
        number,
        extractor: moved.state,
    }
}

// A mapper in phase 0.
#[unsafe(no_mangle)]
pub extern "C" fn salt_scattered_pilot_mapper_new() -> ScatteredPilotMapper
    ensures { result ≡ record { phase = 0 } }
{
    ScatteredPilotMapper::new()
}

// The mapper in phase 0 again.
#[unsafe(no_mangle)]
pub extern "C" fn salt_scattered_pilot_mapper_reset(
    mapper: ScatteredPilotMapper,
) -> ScatteredPilotMapper
    ensures { result ≡ record { phase = 0 } }
{
    mapper.reset()
}

// Makes a symbol: 2,048 cells +0.0, then the 1,512 data cells in their bins, then the boosted value on every reserved
// carrier, TPS carriers among them.
// Refusals: 1 LENGTH (fewer than 3,024 floats of cells), 3 OUTPUT SHORT (room for fewer than 4,096 floats).
#[unsafe(no_mangle)]
pub extern "C" fn salt_scattered_pilot_mapper_map_symbol(
    mapper: ScatteredPilotMapper,
    cells: &[f32],
    symbol: &mut [f32],
) -> SaltMapAnswer
    ensures answer { SaysMapped result (map_answer mode2k mapper cells.now symbol.old) }
    ensures symbol { symbol.new
        ≡ map_leaves mode2k (phase_of mapper.phase) cells.now symbol.old }
{
    map_numbers_of(mapper.map_symbol(cells, symbol))
}

// An extractor in phase 0.
#[unsafe(no_mangle)]
pub extern "C" fn salt_scattered_pilot_extractor_new() -> ScatteredPilotExtractor
    ensures { result ≡ record { phase = 0 } }
{
    ScatteredPilotExtractor::new()
}

// The extractor in phase 0 again.
#[unsafe(no_mangle)]
pub extern "C" fn salt_scattered_pilot_extractor_reset(
    extractor: ScatteredPilotExtractor,
) -> ScatteredPilotExtractor
    ensures { result ≡ record { phase = 0 } }
{
    extractor.reset()
}

// The phase of the extractor's next symbol, 0 to 3.
#[unsafe(no_mangle)]
pub extern "C" fn salt_scattered_pilot_extractor_phase(extractor: ScatteredPilotExtractor) -> usize
    ensures { result ≡ phase_of extractor.phase }
{
    extractor.phase()
}

// The bins of the 1,512 data carriers of the extractor's next symbol, as salt_data_bins gives them. Answers 1,512.
// Refusals: 3 OUTPUT SHORT.
#[unsafe(no_mangle)]
pub extern "C" fn salt_scattered_pilot_extractor_data_bins(
    extractor: ScatteredPilotExtractor,
    out: &mut [u16],
) -> SaltCounted
    ensures answer { Says result (fill_answer mode2k.data_count out.old) }
    ensures output { out.new
        ≡ fill_leaves mode2k.data_count (data_bins mode2k (phase_of extractor.phase)) out.old }
{
    numbers_of(extractor.data_bins(out))
}

// The bins and values of the 176 reference pilots of the extractor's next symbol, as salt_reference_pilot_bins gives
// them. Answers 176.
// Refusals: 3 OUTPUT SHORT (either).
#[unsafe(no_mangle)]
pub extern "C" fn salt_scattered_pilot_extractor_current_pilot_bins(
    extractor: ScatteredPilotExtractor,
    bins: &mut [u16],
    values: &mut [f32],
) -> SaltCounted
    ensures answer { Says result (reference_answer mode2k bins.old values.old) }
    ensures bins { bins.new
        ≡ reference_bins_leaves mode2k (phase_of extractor.phase) bins.old values.old }
    ensures values { values.new
        ≡ reference_values_leaves mode2k (phase_of extractor.phase) bins.old values.old }
{
    numbers_of(extractor.current_pilot_bins(bins, values))
}

// Reads the 1,512 data cells of a symbol, in rising active order.
// Refusals: 1 LENGTH (fewer than 4,096 floats of symbol), 3 OUTPUT SHORT (room for fewer than 3,024 floats).
#[unsafe(no_mangle)]
pub extern "C" fn salt_scattered_pilot_extractor_extract_symbol(
    extractor: ScatteredPilotExtractor,
    symbol: &[f32],
    out: &mut [f32],
) -> SaltExtractAnswer
    ensures answer { SaysExtracted result (extract_answer mode2k extractor symbol.now out.old) }
    ensures output { out.new
        ≡ extract_leaves mode2k (phase_of extractor.phase) symbol.now out.old }
{
    extract_numbers_of(extractor.extract_symbol(symbol, out))
}

// Mapping onto the static grid is retired: nothing is written. Symbols made before it was are read by
// salt_grid_extract.
// Refusals: 1 LENGTH (fewer than 3,320 floats of cells), 12 RETIRED (any other cells, and any symbol).
#[unsafe(no_mangle)]
pub extern "C" fn salt_grid_map(cells: &[f32], symbol: &mut [f32]) -> SaltCounted
    ensures answer { Says result (grid_map_answer mode2k cells.now) }
    ensures symbol { symbol.new ≡ symbol.old }
{
    numbers_of(grid::grid_map(cells, symbol))
}

// Reads the 1,660 data cells of a symbol of the static grid, in rising active order. Answers 1,660, the cells written.
// Refusals: 1 LENGTH (fewer than 4,096 floats of symbol), 3 OUTPUT SHORT (room for fewer than 3,320 floats).
#[unsafe(no_mangle)]
pub extern "C" fn salt_grid_extract(symbol: &[f32], out: &mut [f32]) -> SaltCounted
    ensures answer { Says result (grid_extract_answer mode2k symbol.now out.old) }
    ensures output { out.new ≡ grid_extract_leaves mode2k symbol.now out.old }
{
    numbers_of(grid::grid_extract(symbol, out))
}
