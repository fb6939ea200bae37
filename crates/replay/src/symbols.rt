// The cases of symbols.
use grid::{ScatteredPilotExtractor, ScatteredPilotMapper};
use ground::Refusal;
use stored::inner::Room;

// ScatteredPilotExtractor: the data of symbol p in phase p.
pub(crate) fn extract(phase: usize, room: &mut Room) -> Result<usize, Refusal> {
    let symbol = stored::inner::symbol_of((phase % 256) as u8);
    let mut data = [0.5f32; carriers::DATA_FLOATS];
    ScatteredPilotExtractor { phase }
        .extract_symbol(&symbol, &mut data)
        .answer?;
    Ok(stored::inner::lay_floats(&data, 0, room))
}

// ScatteredPilotMapper: the symbol of a phase with the first floats of symbol 0 as its data.
pub(crate) fn map(phase: usize, room: &mut Room) -> Result<usize, Refusal> {
    let data = stored::inner::symbol_of(0);
    let mut symbol = [0.5f32; carriers::SYMBOL_FLOATS];
    ScatteredPilotMapper { phase }
        .map_symbol(&data, &mut symbol)
        .answer?;
    Ok(stored::inner::lay_floats(&symbol, 0, room))
}
