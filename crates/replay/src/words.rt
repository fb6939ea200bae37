// The cases of codewords that are decoded, and of TPS words: a word stands as five bytes, which are frame number,
// constellation, rate and guard by their codes, and cell id.
use ground::Refusal;
use stored::inner::Room;
use tps::TpsWord;
use tps::inner::Codes;

// tps_bch_decode; the answer is the count of information bits.
pub(crate) fn decode(input: &[u8], room: &mut Room) -> Result<usize, Refusal> {
    bch::tps_bch_decode(input, room)?;
    Ok(53)
}

// TpsWord::pack, of bytes that are the codes of a word.
pub(crate) fn pack(input: &[u8], room: &mut Room) -> Option<Result<usize, Refusal>> {
    let &[frame, constellation, rate, guard, cell] = input else {
        return None;
    };
    let word = TpsWord::try_from(Codes {
        frame,
        constellation,
        rate,
        guard,
        cell,
    });
    Some(word.ok()?.pack(room))
}

// TpsWord::unpack.
pub(crate) fn unpack(input: &[u8], room: &mut Room) -> Result<usize, Refusal> {
    let codes = Codes::from(TpsWord::unpack(input)?.word);
    let bytes = [
        codes.frame,
        codes.constellation,
        codes.rate,
        codes.guard,
        codes.cell,
    ];
    Ok(stored::inner::lay(&bytes, 0, room))
}
