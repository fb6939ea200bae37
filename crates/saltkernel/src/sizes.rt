// Sizes.

// A transport packet.
pub const PACKET_BYTES: usize = 188;
// Of which payload.
pub const PAYLOAD_BYTES: usize = 187;
// The first byte of a packet.
pub const SYNC_BYTE: u8 = 0x47;
// Packets from one restart of the whitener's register to the next.
pub const GROUP_PACKETS: usize = 8;
// Room for the soft values of one cell.
pub const SOFT_VALUES: usize = 6;

// The bins of a symbol.
pub const SYMBOL_CELLS: usize = 2048;
// Their floats, re and im in turn.
pub const SYMBOL_FLOATS: usize = 4096;
// The data carriers of a symbol.
pub const DATA_CELLS: usize = 1512;
// Their floats.
pub const DATA_FLOATS: usize = 3024;
// The data carriers of the static grid.
pub const STATIC_DATA_CELLS: usize = 1660;
// Their floats.
pub const STATIC_DATA_FLOATS: usize = 3320;
// The continual and scattered carriers of a symbol.
pub const REFERENCE_PILOTS: usize = 176;
// Their floats.
pub const REFERENCE_FLOATS: usize = 352;
// The phases of the scattered pilots.
pub const SCATTERED_PHASES: usize = 4;
// The scattered carriers of phase 0; the other phases have 142.
pub const SCATTERED_MOST: usize = 143;
// The continual carriers.
pub const CONTINUAL_CARRIERS: usize = 45;
// The TPS carriers.
pub const TPS_CARRIERS: usize = 17;
// Their floats.
pub const TPS_FLOATS: usize = 34;
// Active indices are 0 to 1704.
pub const ACTIVE_CARRIERS: usize = 1705;
// Signed indices are -852 to 852.
pub const SIGNED_LAST: usize = 852;

// The information bits of a TPS codeword.
pub const TPS_INFORMATION_BITS: usize = 53;
// The bits of a TPS codeword.
pub const TPS_CODEWORD_BITS: usize = 67;
// A place of a codeword that stands for none.
pub const NO_PLACE: u8 = 255;
// A zero bit s0 and the codeword; the symbols of a frame are as many.
pub const TPS_WORD_BITS: usize = 68;
// A session's journal: the TPS cells of the 68 symbols of two frames.
pub const JOURNAL_FLOATS: usize = 4624;
// The largest count of frames before a session's current one.
pub const LAST_FRAME: usize = 1000000;

// A line of the report's input: the 68 bits of a word, four a digit.
pub const LINE_DIGITS: usize = 17;
// The report's heading.
pub const HEADING_BYTES: usize = 41;
// Room for every line of the report.
pub const LINE_ROOM: usize = 60;
// Room for the report's end.
pub const CLOSE_ROOM: usize = 120;
