// Gray mapping of EN 300 744, section 4.3.5 and figure 9a: a bit group to a point, and a received cell to bits or to
// soft values.
#![tactic(auto)]

ghost use Rattle.std.specs.Prelude.{◌≡◌, ◌+◌, ◌*◌, ◌^◌, ◌≤◌, ◌<◌, pos, length, get_or};
ghost use Rattle.std.specs.Float.{binary32};
ghost use Rattle.std.specs.Float.Ieee.{of_int};
ghost use Rattle.ground.specs.Answer.{answer_by, written};
ghost use Rattle.ground.specs.Bits.{Bits};
ghost use Rattle.ground.specs.Digits.{value_of};
ghost use Rattle.gray.specs.Levels.{size_no, order_of, axis_bits, levels, scale, at};
ghost use Rattle.gray.specs.Mapping.{every_other, map_answer};
ghost use Rattle.gray.specs.Hard.{Wrote, distances, First, bits_in_turn, demap_answer, Demapped};
ghost use Rattle.gray.specs.Soft.{square, squares, least, soft, soft_answer};
ghost use Rattle.gray.specs.Inner.{map_answer_at, distance_at, lesser, with_bit};

use ground::{Cell, ConstellationOrder, Refusal};

// Two, four or six soft values in the order of the bits.
#[derive(Clone, Copy)]
pub enum Soft {
    Two(f32, f32),
    Four(f32, f32, f32, f32),
    Six(f32, f32, f32, f32, f32, f32),
}

// The levels of a QPSK axis by index, EN 300 744 figure 9a.
static DVB_T_AXIS_QPSK: [i8; 2] = [1, -1];

// The levels of a 16-QAM axis by index, EN 300 744 figure 9a.
static DVB_T_AXIS_16QAM: [i8; 4] = [3, 1, -3, -1];

// The levels of a 64-QAM axis by index, EN 300 744 figure 9a.
static DVB_T_AXIS_64QAM: [i8; 8] = [7, 5, 1, 3, -7, -5, -1, -3];

// The constellation whose bit groups have a size: two, four or six bits.
fn order_of(size: usize) -> Result<ConstellationOrder, Refusal>
    ensures { result ≡ answer_by (size_no size) (order_of size) }
{
    match size {
        2 => Ok(ConstellationOrder::Qpsk),
        4 => Ok(ConstellationOrder::Qam16),
        6 => Ok(ConstellationOrder::Qam64),
        _ => Err(Refusal::Length),
    }
}

// The scale of an axis: 1/sqrt(2), 1/sqrt(10) or 1/sqrt(42).
fn axis_scale(order: ConstellationOrder) -> f32
    ensures { result ≡ scale order }
{
    match order {
        ConstellationOrder::Qpsk => 0.70710677,
        ConstellationOrder::Qam16 => 0.31622776,
        ConstellationOrder::Qam64 => 0.15430336,
    }
}

// The levels of an axis by index.
fn axis_levels(order: ConstellationOrder) -> &'static [i8]
    ensures { result.now ≡ levels order }
{
    match order {
        ConstellationOrder::Qpsk => &DVB_T_AXIS_QPSK,
        ConstellationOrder::Qam16 => &DVB_T_AXIS_16QAM,
        ConstellationOrder::Qam64 => &DVB_T_AXIS_64QAM,
    }
}

// The coordinate at an index of an axis.
fn axis_point(order: ConstellationOrder, index: usize) -> f32
    requires { index < length (levels order) }
    ensures { result ≡ at order index }
{
    f32::from(axis_levels(order)[index]) * axis_scale(order)
}

// How many bits of a group belong to each axis.
fn axis_bits(order: ConstellationOrder) -> usize
    ensures { result ≡ axis_bits order }
{
    match order {
        ConstellationOrder::Qpsk => 1,
        ConstellationOrder::Qam16 => 2,
        ConstellationOrder::Qam64 => 3,
    }
}

// The index that the bits of an axis write, from its first bit on, every other one.
fn axis_index(bits: &[u8], first: usize, count: usize) -> usize
    requires { (first < 2) × (count ≤ 3) × (2 * count ≤ length bits.now) × Bits bits.now }
    ensures { (result ≡ value_of 0 (every_other count first bits.now)) × (result < 2 ^ count) }
{
    let mut index = 0;
    for place in 0..count {
        index = 2 * index + usize::from(bits[first + 2 * place]);
    }
    index
}

// The point of a bit group whose size is that of the constellation.
fn point_of(order: ConstellationOrder, bits: &[u8]) -> Result<Cell, Refusal>
    requires { 2 * axis_bits order ≤ length bits.now }
    ensures { result ≡ map_answer_at order bits.now }
{
    if !ground::inner::all_bits(bits) {
        return Err(Refusal::NotABit);
    }
    let count = axis_bits(order);
    let i = axis_index(bits, 0, count);
    let q = axis_index(bits, 1, count);
    Ok(Cell {
        re: axis_point(order, i),
        im: axis_point(order, q),
    })
}

// The point of a group of two, four or six bits, EN 300 744 section 4.3.5.
pub fn dvb_t_map_symbol(bits: &[u8]) -> Result<Cell, Refusal>
    ensures { result ≡ map_answer bits.now }
{
    // Each arm names its constellation, since mapping by an order that is no constant takes longer: by a seventh at
    // six bits, by two thirds at two and four.
    match order_of(bits.len())? {
        ConstellationOrder::Qpsk => point_of(ConstellationOrder::Qpsk, bits),
        ConstellationOrder::Qam16 => point_of(ConstellationOrder::Qam16, bits),
        ConstellationOrder::Qam64 => point_of(ConstellationOrder::Qam64, bits),
    }
}

// The distance of a coordinate to that at an index. Here and below a constellation and a coordinate go as two
// parameters, and a place below its bits as a clause: a type of these would be made anew at each call.
fn distance(order: ConstellationOrder, x: f32, index: usize) -> f32
    requires { index < length (levels order) }
    ensures { result ≡ distance_at order x index }
{
    let difference = x - axis_point(order, index);
    difference.abs()
}

// The first index of the axis with the least distance.
fn nearest_index(order: ConstellationOrder, x: f32) -> usize
    ensures { First (distances order x) result }
{
    let mut nearest = 0;
    let mut least = distance(order, x, 0);
    for index in 1..axis_levels(order).len() {
        let apart = distance(order, x, index);
        if apart < least {
            nearest = index;
            least = apart;
        }
    }
    nearest
}

// The low bits of two indices, high first, in turn.
fn write_bits(count: usize, i: usize, q: usize, out: &mut [u8])
    requires { (count ≤ 3) × (2 * count ≤ length out.old) }
    ensures { out.new ≡ written (bits_in_turn count i q) out.old }
{
    for j in 0..count {
        let above = count - 1 - j;
        out[2 * j] = ((i >> above) % 2) as u8;
        out[2 * j + 1] = ((q >> above) % 2) as u8;
    }
}

// The bits of the nearest point of a constellation, written at the front of the output.
fn put_nearest(order: ConstellationOrder, sym: Cell, out: &mut [u8])
    requires { 2 * axis_bits order ≤ length out.old }
    ensures { Wrote order sym out.old out.new }
{
    let i = nearest_index(order, sym.re);
    let q = nearest_index(order, sym.im);
    write_bits(axis_bits(order), i, q, out);
}

// The bits of the nearest point of a received cell, EN 300 744 section 4.3.5.
pub fn dvb_t_demap_symbol(sym: Cell, v: usize, out: &mut [u8]) -> Result<usize, Refusal>
    ensures answer { result ≡ demap_answer v out.old }
    ensures output { Demapped sym v out.old out.new }
{
    let order = order_of(v)?;
    if out.len() < v {
        return Err(Refusal::OutputShort);
    }
    // As above each arm names its constellation: else it takes twice as long at two bits.
    match order {
        ConstellationOrder::Qpsk => put_nearest(ConstellationOrder::Qpsk, sym, out),
        ConstellationOrder::Qam16 => put_nearest(ConstellationOrder::Qam16, sym, out),
        ConstellationOrder::Qam64 => put_nearest(ConstellationOrder::Qam64, sym, out),
    }
    Ok(v)
}

// The squared distance to the coordinate at an index.
fn squared(order: ConstellationOrder, x: f32, index: usize) -> f32
    requires { index < length (levels order) }
    ensures { result ≡ square x (at order index) }
{
    let difference = x - axis_point(order, index);
    difference * difference
}

// The first of two numbers where it is less, else the second.
fn lesser_of(a: f32, b: f32) -> f32
    ensures { result ≡ lesser a b }
{
    if a < b { a } else { b }
}

// The index with a bit at a place, the others in their order being those of a number.
fn with_bit(rest: usize, place: usize, bit: usize) -> usize
    requires { (rest < 4) × (place < 3) × (bit < 2) }
    ensures { result ≡ with_bit rest place bit }
{
    let unit = 1 << place;
    rest / unit * unit * 2 + bit * unit + rest % unit
}

// The squared distance to the coordinate at an index that has a bit at a place.
fn squared_with(order: ConstellationOrder, x: f32, rest: usize, place: usize, bit: usize) -> f32
    requires { (2 * rest + 1 < length (levels order)) × (place < axis_bits order) × (bit < 2) }
    ensures { result ≡ square x (at order (with_bit rest place bit)) }
{
    squared(order, x, with_bit(rest, place, bit))
}

// The least squared distance to a coordinate whose index has a bit at a place, by pairs.
fn least(order: ConstellationOrder, x: f32, place: usize, bit: usize) -> f32
    requires { (place < axis_bits order) × (bit < 2) }
    ensures { result ≡ least (squares order place bit x) }
{
    let zero = squared_with(order, x, 0, place, bit);
    // A loop that takes one square after the other needs a fifth more time at six bits.
    match order {
        ConstellationOrder::Qpsk => zero,
        ConstellationOrder::Qam16 => lesser_of(zero, squared_with(order, x, 1, place, bit)),
        ConstellationOrder::Qam64 => lesser_of(
            lesser_of(zero, squared_with(order, x, 1, place, bit)),
            lesser_of(
                squared_with(order, x, 2, place, bit),
                squared_with(order, x, 3, place, bit),
            ),
        ),
    }
}

// The soft value of the bit at a place of an axis.
fn soft_value(order: ConstellationOrder, place: usize, x: f32) -> f32
    requires { place < axis_bits order }
    ensures { result ≡ soft order place x }
{
    least(order, x, place, 1) - least(order, x, place, 0)
}

// The soft values of a received cell, in the order of the bits.
#[tactic(auto, unfolding(crate::specs::Soft::soft))]
pub fn dvb_t_soft_llr(sym: Cell, v: usize) -> Result<Soft, Refusal>
    ensures { result ≡ soft_answer sym v }
{
    Ok(match order_of(v)? {
        ConstellationOrder::Qpsk => Soft::Two(
            soft_value(ConstellationOrder::Qpsk, 0, sym.re),
            soft_value(ConstellationOrder::Qpsk, 0, sym.im),
        ),
        ConstellationOrder::Qam16 => Soft::Four(
            soft_value(ConstellationOrder::Qam16, 1, sym.re),
            soft_value(ConstellationOrder::Qam16, 1, sym.im),
            soft_value(ConstellationOrder::Qam16, 0, sym.re),
            soft_value(ConstellationOrder::Qam16, 0, sym.im),
        ),
        ConstellationOrder::Qam64 => Soft::Six(
            soft_value(ConstellationOrder::Qam64, 2, sym.re),
            soft_value(ConstellationOrder::Qam64, 2, sym.im),
            soft_value(ConstellationOrder::Qam64, 1, sym.re),
            soft_value(ConstellationOrder::Qam64, 1, sym.im),
            soft_value(ConstellationOrder::Qam64, 0, sym.re),
            soft_value(ConstellationOrder::Qam64, 0, sym.im),
        ),
    })
}
