// Control words (01, Cutting, and 02, A1): a word by its name and its number, once the cutting of a slice has told the two apart;
// and the bytes that a backslash makes plain text.
//
//   is_escape       whether a backslash makes a byte plain text
//   word_record     the record of a word by its name, with a number or none
//   numbered_word   the same by the bytes of its number, written to the room; or refusal 5
//
// The word's backslash stands at `place` of a source of at most 65,536 bytes. The table of names is lent by the caller, who takes it
// once.
#![tactic(auto)]

ghost use Rattle.std.specs.Prelude.{◌≡◌, ◌+◌, ◌≤◌, length};
ghost use Rattle.numbers.specs.Numbers.{decimal};
ghost use Rattle.rooms.specs.Rooms.{Wrote};
ghost use Rattle.tokens.specs.Tokens.{shown_layout, record_of};
ghost use Rattle.controls.specs.Controls.{is_escape, shown_word, numbered};

use answers::Why;
use names::Names;
use numbers::decimal_of;
use tokens::{Record, put, words};

// `{`, `}` or `\`, which a backslash makes plain text.
pub fn is_escape(b: u8) -> bool
    ensures { result ≡ is_escape b }
{
    (b == b'{') | (b == b'}') | (b == b'\\')
}

// The record of a word. One without a number of its own is unknown, and shows where it stands.
pub fn word_record(name: &[u8], property: Option<u32>, place: usize, names: &Names) -> Record
    requires { place + (1 + length name.now) ≤ 65536 }
    ensures { result ≡ record_of (shown_word place name.now property) }
{
    let w = names.number_of(name);
    if w < words::UNKNOWN {
        return Record::word(w, property);
    }
    let length = 1 + name.len();
    Record::unknown(place as u32, length as u32, property)
}

// A word with a number, which its bytes may fail to write.
pub fn numbered_word(
    name: &[u8],
    digits: &[u8],
    place: usize,
    names: &Names,
    room: &mut [u32],
    n: usize,
) -> Result<usize, Why>
    requires { (place + (1 + length name.now) ≤ 65536) × (n ≤ place) }
    ensures { Wrote shown_layout n room.old (numbered place name.now (decimal digits.now)) result room.new }
{
    let v = decimal_of(digits).ok_or(Why::NumberBad)?;
    put(room, n, word_record(name, Some(v), place, names));
    Ok(n + 1)
}
