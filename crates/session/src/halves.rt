// The journal's two halves: frame c stands in half c mod 2, with a place for the TPS cells of each symbol.
// That a journal is long enough stays a clause of the four functions that go into one: as an array that is lent in the
// slice's front it took lemmas on what stands behind and five answers more, and no function got shorter. A place's
// frame and number go as two parameters: a type of both would be made for one call each.
ghost use Rattle.std.specs.Prelude.{◌≡◌, ◌≤◌, ◌<◌, ◌*◌, min, length};
ghost use Rattle.carriers.specs.Mode.{mode2k, symbol_size};
ghost use Rattle.tps.specs.Word.{SYMBOLS};
ghost use Rattle.session.specs.Journal.{tps_cells, place, journal_size, place_of, in_place, prev_in, places_in};
ghost use Rattle.session.specs.Journal.{decoder_on, frame_in};
ghost use Rattle.session.specs.Session.{FRAMES};

use super::LAST_FRAME;
use carriers::{TPS_CARRIER_COUNT, TPS_FLOATS};
use ground::Cell;
use tps::{TPS_SYMBOLS_PER_FRAME, TpsDecoder};

// A frame count, where one above 1,000,000 is read as 1,000,000.
pub(crate) fn frame_count(frames: usize) -> usize
    ensures { result ≡ min FRAMES frames }
{
    frames.min(LAST_FRAME)
}

// The TPS cells of a symbol, in rising active order, re and im in turn.
pub(crate) fn tps_cells(symbol: &[f32]) -> [f32; TPS_FLOATS]
    requires { symbol_size mode2k ≤ length symbol.now }
    ensures { result ≡ tps_cells mode2k symbol.now }
{
    let bins = carriers::inner::tps_carrier_bins();
    let mut cells = [0.0f32; TPS_FLOATS];
    grid::inner::gather(&bins, symbol, &mut cells);
    cells
}

// Where the place of symbol n of a frame begins in the journal: frames stand in its two halves in turn.
pub(crate) fn place_of(frame: usize, n: usize) -> usize
    requires { n < SYMBOLS }
    ensures { result ≡ place_of mode2k frame n }
{
    (frame % 2 * TPS_SYMBOLS_PER_FRAME + n) * TPS_FLOATS
}

// A symbol's TPS cells into the place of symbol n of a frame.
#[tactic(auto, unfolding(crate::specs::Journal::in_place))]
pub(crate) fn put_cells(cells: &[f32; TPS_FLOATS], frame: usize, n: usize, journal: &mut [f32])
    requires { (n < SYMBOLS) × (journal_size mode2k ≤ length journal.old) }
    ensures { journal.new ≡ in_place mode2k frame n cells.now journal.old }
{
    let from = place_of(frame, n);
    journal[from..from + TPS_FLOATS].copy_from_slice(cells);
}

// A journal from the first place of a frame on.
pub(crate) fn frame_in(frame: usize, journal: &[f32]) -> &[f32]
    requires { journal_size mode2k ≤ length journal.now }
    ensures { result.now ≡ frame_in mode2k frame journal.now }
{
    &journal[place_of(frame, 0)..]
}

// The previous cells with n symbols standing, out of the frame's part of the journal.
pub(crate) fn cells_before(n: usize, frame: &[f32]) -> [Cell; TPS_CARRIER_COUNT]
    requires { (n < SYMBOLS) × (SYMBOLS * place mode2k ≤ length frame.now) }
    ensures { result ≡ prev_in mode2k n frame.now }
{
    if n == 0 {
        return [Cell { re: 0.0, im: 0.0 }; TPS_CARRIER_COUNT];
    }
    let from = (n - 1) * TPS_FLOATS;
    tps::inner::first_cells(&frame[from..])
}

// The TPS decoder after the 68 places of a frame's part of the journal, fed where it stands, which is quicker than by
// value. Not inlined, because a step back within a frame would pay for its room.
#[inline(never)]
pub(crate) fn replay(frame: &[f32]) -> TpsDecoder
    requires { SYMBOLS * place mode2k ≤ length frame.now }
    ensures { result ≡ decoder_on mode2k (places_in mode2k SYMBOLS frame.now) }
{
    let mut prev = [0.0f32; TPS_FLOATS];
    let mut bits = [0u8; TPS_SYMBOLS_PER_FRAME];
    let mut count = 0;
    for cells in frame.chunks_exact(TPS_FLOATS).take(TPS_SYMBOLS_PER_FRAME) {
        // A place is as long as a symbol's cells and a frame has 68, so no feed is refused.
        let _ = tps::lent::feed_symbol(&mut prev, &mut bits, &mut count, cells);
    }
    TpsDecoder {
        prev: tps::inner::first_cells(&prev),
        bits,
        count,
    }
}
