// The cases of gray mapping and demapping.
use gray::Soft;
use ground::{Cell, Refusal};
use stored::inner::Room;

// dvb_t_map_symbol.
pub(crate) fn map(input: &[u8], room: &mut Room) -> Result<usize, Refusal> {
    let point = gray::dvb_t_map_symbol(input)?;
    Ok(stored::inner::lay_floats(&[point.re, point.im], 0, room))
}

// The cell that eight bytes stand for.
fn cell_of(input: &[u8]) -> Option<Cell> {
    if input.len() != 8 {
        return None;
    }
    Some(Cell {
        re: stored::inner::float_at(input, 0),
        im: stored::inner::float_at(input, 4),
    })
}

// dvb_t_demap_symbol.
pub(crate) fn demap(v: usize, input: &[u8], room: &mut Room) -> Option<Result<usize, Refusal>> {
    Some(gray::dvb_t_demap_symbol(cell_of(input)?, v, room))
}

// Lays soft values, and answers where they end.
fn put_soft(values: Soft, room: &mut Room) -> usize {
    match values {
        Soft::Two(a, b) => stored::inner::lay_floats(&[a, b], 0, room),
        Soft::Four(a, b, c, d) => stored::inner::lay_floats(&[a, b, c, d], 0, room),
        Soft::Six(a, b, c, d, e, f) => stored::inner::lay_floats(&[a, b, c, d, e, f], 0, room),
    }
}

// dvb_t_soft_llr.
pub(crate) fn soft(v: usize, input: &[u8], room: &mut Room) -> Option<Result<usize, Refusal>> {
    let answer = gray::dvb_t_soft_llr(cell_of(input)?, v);
    Some(answer.map(|values| put_soft(values, room)))
}
