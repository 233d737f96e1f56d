// The list of answers, as its bytes: words of four bytes, little endian, with nothing before the first answer.
// An answer: the letter's length in bytes, the room's in words, the refusal or 0, its place, the count of tokens; then the
// letter; then a record for each token.
ghost use Rattle.std.specs.Prelude.{◌≡◌, ◌<◌, ◌^◌, length, get_or};
ghost use Rattle.replay.specs.Listed.{word_at, FrontWhole};

use tokens::TOKEN_WORDS;

// The words before the letter.
pub const HEAD_BYTES: usize = 20;

// No list has a longer letter or a larger room.
const LETTER_MOST: usize = 400;

pub const ROOM_MOST: usize = 600;

// Four bytes for each word of a token's record.
const RECORD_BYTES: usize = 4 * TOKEN_WORDS;

// An answer at the front of a list. Its letter stands from HEAD_BYTES to `records`, its records from there to `end`.
#[derive(Clone, Copy)]
pub struct Answer {
    pub room: usize,
    pub refusal: u32,
    pub place: u32,
    pub tokens: usize,
    pub records: usize,
    pub end: usize,
}

// How a list ends.
#[derive(Clone, Copy)]
pub enum End {
    Whole,
    CutShort,
    Malformed,
}

// A byte, and 0 behind the end.
fn byte(bytes: &[u8], at: usize) -> u8
    ensures { result ≡ get_or bytes.now at 0 }
{
    bytes.get(at).copied().unwrap_or(0)
}

// The word that starts at a byte, with zeros for what lies behind the end.
#[tactic(auto, unfolding(crate::specs::Listed::word_at))]
pub fn word(bytes: &[u8], at: usize) -> u32
    requires { at < 2 ^ 63 }
    ensures { result ≡ word_at bytes.now at }
{
    u32::from_le_bytes([
        byte(bytes, at),
        byte(bytes, at + 1),
        byte(bytes, at + 2),
        byte(bytes, at + 3),
    ])
}

// The answer at the front of a list, if it is all there and within the limits, or how the list ends.
pub fn next(list: &[u8]) -> Result<Answer, End>
    ensures { FrontWhole (length list.now) result }
{
    if list.is_empty() {
        return Err(End::Whole);
    }
    if list.len() < HEAD_BYTES {
        return Err(End::CutShort);
    }
    let letter = word(list, 0) as usize;
    let room = word(list, 4) as usize;
    let refusal = word(list, 8);
    let place = word(list, 12);
    let tokens = word(list, 16) as usize;
    if LETTER_MOST < letter || ROOM_MOST < room || room / TOKEN_WORDS < tokens {
        return Err(End::Malformed);
    }
    let records = HEAD_BYTES + letter;
    let end = records + tokens * RECORD_BYTES;
    if list.len() < end {
        return Err(End::CutShort);
    }
    Ok(Answer {
        room,
        refusal,
        place,
        tokens,
        records,
        end,
    })
}
