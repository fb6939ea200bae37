// For the program that replays stored answers: the bytes and floats in the lines of the list, and an answer held to the
// stored one.
ghost use Rattle.std.specs.Prelude.{◌≡◌, ◌+◌, ◌*◌, ◌<◌, ◌≤◌, length, IfSome};

use ground::Refusal;

// Room for an answer, or for the bytes of a line.
pub type Room = [u8; 16384];

// What a digit stands for, hexadecimal ones in lower case. It isn't report's, since what checks the answers stands on
// none of the library's code for text.
fn digit(c: u8) -> Option<u8>
    ensures { IfSome result (λ figure. figure < 16) }
{
    match c {
        b'0'..=b'9' => Some(c - b'0'),
        b'a'..=b'f' => Some(10 + c - b'a'),
        _ => None,
    }
}

// The byte of two digits at a place of a text, where they stand there.
fn byte_of(text: &[u8], at: usize) -> Option<u8>
    requires { at < 65536 }
{
    let high = digit(*text.get(at)?)?;
    let low = digit(*text.get(at + 1)?)?;
    Some(16 * high + low)
}

// Lays the bytes of the digits at the front of a text on, and answers how many they are.
pub fn put_bytes(text: &[u8], out: &mut Room) -> usize
    ensures { result ≤ 16384 }
{
    for (n, place) in out.iter_mut().enumerate() {
        let Some(byte) = byte_of(text, 2 * n) else {
            return n;
        };
        *place = byte;
    }
    out.len()
}

// Whether an answer is the refusal of a number, or where that is 0 the count, as the stored list has the two.
pub fn is_answer(answer: Result<usize, Refusal>, refusal: u8, count: usize) -> bool {
    match answer {
        Ok(n) => refusal == 0 && n == count,
        Err(number) => u8::from(number) == refusal,
    }
}

// ---- floats

// The number that two bytes stand for.
pub fn number_at(bytes: &[u8], at: usize) -> u16
    requires { at + 2 ≤ length bytes.now }
{
    u16::from_be_bytes([bytes[at], bytes[at + 1]])
}

// The float of a bit pattern.
fn float_of(bits: u32) -> f32 {
    if bits % 0x8000_0000 > 0x7F80_0000 {
        return f32::NAN;
    }
    f32::from_bits(bits)
}

// The float at a place of bytes.
pub fn float_at(bytes: &[u8], at: usize) -> f32
    requires { at + 4 ≤ length bytes.now }
{
    float_of(u32::from_be_bytes([bytes[at], bytes[at + 1], bytes[at + 2], bytes[at + 3]]))
}

// The 34 floats at a place of bytes.
pub fn floats_at(bytes: &[u8], at: usize) -> [f32; 34]
    requires { at + 136 ≤ length bytes.now }
{
    let mut floats = [0.0; 34];
    for (i, float) in floats.iter_mut().enumerate() {
        *float = float_at(bytes, at + 4 * i);
    }
    floats
}

// The bit pattern of a float.
fn bits_of(x: f32) -> u32 {
    if x.is_nan() {
        return 0x7FC0_0000;
    }
    x.to_bits()
}

// Lays floats at a place of the room, and answers where they end.
pub fn lay_floats(floats: &[f32], at: usize, room: &mut Room) -> usize
    requires { at + 4 * length floats.now ≤ 16384 }
{
    for (i, x) in floats.iter().enumerate() {
        lay(&bits_of(*x).to_be_bytes(), at + 4 * i, room);
    }
    at + 4 * floats.len()
}

// Lays bytes at a place of the room, and answers where they end.
pub fn lay(bytes: &[u8], at: usize, room: &mut Room) -> usize
    requires { at + length bytes.now ≤ 16384 }
{
    let end = at + bytes.len();
    room[at..end].copy_from_slice(bytes);
    end
}

// ---- symbols, which come of a rule, so that none is stored: float j of symbol k is 4096 k + j, with a minus where k
// leaves 1 on division by 3

// A float of a symbol by the rule.
fn ruled(symbol: u8, place: u16) -> f32 {
    let x = 4096.0 * f32::from(symbol) + f32::from(place);
    if symbol % 3 == 1 { -x } else { x }
}

// A symbol by the rule.
pub fn symbol_of(number: u8) -> [f32; carriers::SYMBOL_FLOATS] {
    let mut symbol = [0.0; carriers::SYMBOL_FLOATS];
    for (i, float) in symbol.iter_mut().enumerate() {
        *float = ruled(number, i as u16);
    }
    symbol
}
