// The TPS code BCH(67,53): its encoder and its decoders (EN 300 744, 4.6.2.11).
#![tactic(auto)]

ghost use Rattle.std.specs.Prelude.{◌≡◌, length, take};
ghost use Rattle.ground.specs.Bits.{Bits};
ghost use Rattle.bch.specs.Code.{encode};
ghost use Rattle.bch.specs.Search.{flip, mended, named, Changes};
ghost use Rattle.bch.specs.Promise.{encode_answer, encode_leaves, mended_at, Decodes};

use ground::Refusal;
use lent::Lent;
use search::Found;

mod field;
pub mod inner;
mod lent;
mod remainder;
mod search;
mod slow;

// A place that stands for none.
pub const NO_PLACE: u8 = 255;

// The bits of a codeword that were changed: how many, 0 to 2, and their places, 0 to 66 and rising, or NO_PLACE.
// It stays three numbers: `report::put_line` takes one with any count from C; `mended_at` and `mended_in` name them.
#[derive(Clone, Copy, Debug, PartialEq, Eq)]
pub struct Mended {
    pub count: u8,
    pub first: u8,
    pub second: u8,
}

// How the changed bits are found: by the field's algebra, or by trying each change, which anyone can follow.
#[derive(Clone, Copy, Debug, PartialEq, Eq)]
pub enum Decoder {
    Fast,
    Slow,
}

// Writes the codeword of the information (EN 300 744, 4.6.2.11).
fn put_codeword(info: Lent<53>, out: &mut [u8])
    requires { length out.old ≡ 67 }
    ensures { out.new ≡ encode info.entry.bits.now }
{
    let parity = remainder::parity_of(ground::inner::packed(info.bits));
    out[..53].copy_from_slice(info.bits);
    ground::inner::put_digits(parity, &mut out[53..]);
}

// The 67 bits of the codeword of 53 information bits, written to the lent output (EN 300 744, 4.6.2.11).
pub fn tps_bch_encode(info: &[u8], out: &mut [u8]) -> Result<usize, Refusal>
    ensures answer { result ≡ encode_answer info.now out.old }
    ensures output { out.new ≡ encode_leaves info.now out.old }
{
    let info = Lent::<53>::new(info, 67, out)?;
    put_codeword(info, &mut out[..67]);
    Ok(67)
}

// The bit at a place flipped, where there is one.
fn flip_at(bits: &mut [u8], place: u8)
    requires { Bits bits.old }
    ensures { bits.new ≡ flip bits.old place }
{
    let place = usize::from(place);
    if place < bits.len() {
        bits[place] = 1 - bits[place];
    }
}

// Writes the information of the bits with the named places flipped.
fn put_information(code: Lent<67>, found: Found, out: &mut [u8])
    requires { length out.old ≡ 53 }
    ensures { out.new ≡ take 53 (mended code.entry.bits.now found) }
{
    out.copy_from_slice(&code.bits[..53]);
    match found {
        Found::Clean => {}
        Found::One(i) => flip_at(out, i),
        Found::Two(i, j) => {
            flip_at(out, i);
            flip_at(out, j);
        }
    }
}

// The places that the search named.
impl From<Found> for Mended {
    ghost from_gives = { λ found mended. mended ≡ mended_at (named found) };

    fn from(found: Found) -> Mended {
        match found {
            Found::Clean => Mended {
                count: 0,
                first: NO_PLACE,
                second: NO_PLACE,
            },
            Found::One(i) => Mended {
                count: 1,
                first: i,
                second: NO_PLACE,
            },
            Found::Two(i, j) => Mended {
                count: 2,
                first: i,
                second: j,
            },
        }
    }
}

impl Decoder {
    // The changed places of 67 bits, where a codeword is within distance two. Which decoder runs is a value, since C
    // and tpsreport choose it as they run; a closure would be asked for both promises at each call.
    fn changes(self, code: Lent<67>) -> Option<Found>
        ensures { Changes code.entry.bits.now result }
    {
        match self {
            Decoder::Fast => search::changes(code),
            Decoder::Slow => slow::changes(code),
        }
    }
}

// The 53 information bits of the codeword within distance two of 67 bits, written to the lent output, and the bits
// that were changed, by either decoder (EN 300 744, 4.6.2.11).
// Inlined into a call of unpacking, it has the bits moved one by one through registers, and takes a third more time.
#[inline(never)]
pub fn tps_bch_decode_by(decoder: Decoder, code: &[u8], out: &mut [u8]) -> Result<Mended, Refusal>
    ensures { Decodes code.now out.old result out.new }
{
    let code = Lent::<67>::new(code, 53, out)?;
    let found = decoder.changes(code).ok_or(Refusal::NoWord)?;
    put_information(code, found, &mut out[..53]);
    Ok(Mended::from(found))
}

// The same by the fast decoder.
pub fn tps_bch_decode(code: &[u8], out: &mut [u8]) -> Result<Mended, Refusal>
    ensures { Decodes code.now out.old result out.new }
{
    tps_bch_decode_by(Decoder::Fast, code, out)
}

// The same by the slow decoder, which tries the bits as they are, each single change and each pair.
pub fn tps_bch_decode_slow(code: &[u8], out: &mut [u8]) -> Result<Mended, Refusal>
    ensures { Decodes code.now out.old result out.new }
{
    tps_bch_decode_by(Decoder::Slow, code, out)
}
