// The TPS frame, sent and received (4.6.3).
ghost use Rattle.std.specs.Prelude.{◌≡◌, cond, leb};
ghost use Rattle.carriers.specs.Mode.{mode2k};
ghost use Rattle.tps.specs.Word.{SYMBOLS};
ghost use Rattle.tps.specs.Send.{fresh_encoder, send_answer, send_leaves};
ghost use Rattle.tps.specs.Receive.{fresh_decoder, feed_answer, bits_answer, bits_leaves, Words};
ghost use Rattle.tps.specs.Lent.{lent_decoder};
ghost use Rattle.saltkernel.specs.Numbers.{Says};
ghost use Rattle.saltkernel.specs.Words.{SaysOneThat};
ghost use Rattle.saltkernel.specs.Frames.{SaysSent, SaysBit, SaysFed};

use super::words::{SaltUnpacked, unpacked_numbers_of};
use super::{SaltCounted, number_and, numbers_of, sizes};
use ground::Refusal;
use tps::{Fed, TpsDecoder, TpsEncoder};

// The count or the refusal, and the sender behind the symbol or, refused, as it went in.
#[repr(C)]
#[derive(Clone, Copy)]
pub struct SaltSent {
    pub answer: SaltCounted,
    pub encoder: TpsEncoder,
}

// The symbol's bit and the receiver behind it; or a refusal's number, the bit 0 and the receiver as it went in.
#[repr(C)]
#[derive(Clone, Copy)]
pub struct SaltTpsFed {
    pub number: u8,
    pub bit: u8,
    pub decoder: TpsDecoder,
}

// The symbol's bit, or a refusal's number and the bit 0.
#[repr(C)]
#[derive(Clone, Copy)]
pub struct SaltTpsBit {
    pub number: u8,
    pub bit: u8,
}

// A bit as numbers.
fn bit_numbers_of(answer: Result<u8, Refusal>) -> SaltTpsBit
    ensures { SaysBit result answer }
{
    let (number, bit) = number_and(answer, 0);
    SaltTpsBit { number, bit }
}

// A sender at the start of a frame.
#[unsafe(no_mangle)]
pub extern "C" fn salt_tps_encoder_new() -> TpsEncoder
    ensures { result ≡ fresh_encoder mode2k }
{
    TpsEncoder::new()
}

// The sender at the start of a frame again.
#[unsafe(no_mangle)]
pub extern "C" fn salt_tps_encoder_reset(encoder: TpsEncoder) -> TpsEncoder
    ensures { result ≡ fresh_encoder mode2k }
{
    encoder.reset()
}

// The 17 TPS cells of the next symbol, in rising active order: at symbol 0 the signs of w, whatever the bit; later a 1
// turns all signs. Answers 17, the cells written. Sending has no last symbol.
// Refusals: 2 NOT A BIT, 3 OUTPUT SHORT (room for fewer than 34 floats).
#[unsafe(no_mangle)]
pub extern "C" fn salt_tps_encoder_next_symbol(
    encoder: TpsEncoder,
    bit: u8,
    out: &mut [f32],
) -> SaltSent
    ensures answer { SaysSent result (send_answer mode2k encoder bit out.old) }
    ensures output { out.new ≡ send_leaves mode2k encoder bit out.old }
{
    let sent = encoder.next_symbol(bit, out);
    SaltSent {
        answer: numbers_of(sent.answer),
        encoder: sent.encoder,
    }
}

// A receiver at the start of a frame.
#[unsafe(no_mangle)]
pub extern "C" fn salt_tps_decoder_new() -> TpsDecoder
    ensures { result ≡ fresh_decoder mode2k }
{
    TpsDecoder::new()
}

// The receiver at the start of a frame again.
#[unsafe(no_mangle)]
pub extern "C" fn salt_tps_decoder_reset(decoder: TpsDecoder) -> TpsDecoder
    ensures { result ≡ fresh_decoder mode2k }
{
    decoder.reset()
}

// Reads the bit of a symbol's 17 TPS cells, in rising active order: at symbol 0 it is 0; later 1 where the sum of the
// products with the previous symbol's cells is below zero.
// Refusals: 1 LENGTH (fewer than 34 floats), 6 FULL.
#[unsafe(no_mangle)]
pub extern "C" fn salt_tps_decoder_feed_symbol(decoder: TpsDecoder, cells: &[f32]) -> SaltTpsFed
    ensures { SaysFed result (feed_answer mode2k decoder cells.now) }
{
    let Fed { answer, decoder } = decoder.feed_symbol(cells);
    let (number, bit) = number_and(answer, 0);
    SaltTpsFed {
        number,
        bit,
        decoder,
    }
}

// The same on a receiver that is lent in parts, which are as it leaves them: 34 floats of previous cells, 68 bits and
// one count; of a SaltTpsDecoder d they are &d.prev[0].re, d.bits and &d.count. Nothing is moved, so it is quicker
// than by value. Refused, it changes nothing.
// Refusals: 1 LENGTH (fewer than 34 floats of cells), 6 FULL.
#[unsafe(no_mangle)]
pub extern "C" fn salt_tps_decoder_feed_in_place(
    prev: &mut [f32; sizes::TPS_FLOATS],
    bits: &mut [u8; sizes::TPS_WORD_BITS],
    count: &mut usize,
    cells: &[f32],
) -> SaltTpsBit
    ensures answer { SaysBit result (feed_answer mode2k
        (lent_decoder mode2k prev.old bits.old count.old)
        cells.now).answer }
    ensures decoder { lent_decoder mode2k prev.new bits.new count.new
        ≡ (feed_answer mode2k (lent_decoder mode2k prev.old bits.old count.old)
        cells.now).decoder }
{
    bit_numbers_of(tps::lent::feed_symbol(prev, bits, count, cells))
}

// 1 where 68 symbols stand, else 0.
#[unsafe(no_mangle)]
pub extern "C" fn salt_tps_decoder_is_complete(decoder: TpsDecoder) -> u8
    ensures { result ≡ cond (leb SYMBOLS decoder.count) 1 0 }
{
    u8::from(decoder.is_complete())
}

// The received bits s0 and on, one for each symbol that stands. Answers how many, 0 to 68.
// Refusals: 3 OUTPUT SHORT.
#[unsafe(no_mangle)]
pub extern "C" fn salt_tps_decoder_bits(decoder: TpsDecoder, out: &mut [u8]) -> SaltCounted
    ensures answer { Says result (bits_answer decoder out.old) }
    ensures output { out.new ≡ bits_leaves decoder out.old }
{
    numbers_of(decoder.bits(out))
}

// The word of 68 received bits.
// Refusals: 8 INCOMPLETE, 4 NO WORD, 5 RESERVED.
#[unsafe(no_mangle)]
pub extern "C" fn salt_tps_decoder_word(decoder: TpsDecoder) -> SaltUnpacked
    ensures { SaysOneThat (Words decoder) result }
{
    unpacked_numbers_of(decoder.word())
}
