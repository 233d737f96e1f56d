// The tokens of one slice in standard reading (02, A1: the rules of the RTF specification).
//
//   slice_tokens   a slice by its first byte
//   escaped        what a backslash makes of the bytes behind it: a word, text, a hex escape, a line break, a symbol
//   word           letters, a number or none, one space or none, and the text behind them
//
// A special byte starts a slice unless the backslash before it takes it, so behind a bracket, a word or a symbol there is only text.
//
// Each function writes its records from place n of the room on, and answers the next place or a refusal. The table of names is lent by
// the caller, who takes it once. A slice stands at `place` of a source of at most 65,536 bytes, and so far at most one record was
// written for each byte before it.
#![tactic(auto)]

ghost use Rattle.std.specs.Prelude.{◌≡◌, ◌+◌, ◌≤◌, length};
ghost use Rattle.classes.specs.declared.Class.TheVariants.{Alpha};
ghost use Rattle.classes.specs.Bytes.{in_class, lead};
ghost use Rattle.rooms.specs.Rooms.{Wrote};
ghost use Rattle.tokens.specs.Tokens.{shown_layout, record_of};
ghost use Rattle.standard.specs.Standard.{leads as leads_of, tail as tail_of, number_length, named as named_of, word as word_of, hex_escape, break_length, line_break_and, symbol_of, bracket_of, escaped as escaped_of, tokens as tokens_of};

use answers::Why;
use classes::{Class, is_alpha, lead_of};
use controls::{is_escape, numbered_word, word_record};
use names::Names;
use numbers::hex_pair;
use tokens::{Kind, Record, put};

// The record of a symbol's byte; `*` is the mark.
fn symbol(b: u8) -> Record
    ensures { result ≡ record_of (symbol_of b) }
{
    if b == b'*' {
        return Record::bare(Kind::Ignorable as u32);
    }
    Record::symbol(b as u32, None)
}

// The record of a bracket's byte.
fn bracket(b: u8) -> Record
    ensures { result ≡ record_of (bracket_of b) }
{
    if b == b'{' {
        return Record::bare(Kind::Opening as u32);
    }
    Record::bare(Kind::Closing as u32)
}

// 1 if b stands in front, else 0.
fn leads(s: &[u8], b: u8) -> usize
    ensures { (result ≡ leads_of b s.now) × (result ≤ length s.now) }
{
    usize::from(s.first() == Some(&b))
}

// How many letters stand in front. A chain of its own, since the class is then known in it.
fn letters_of(s: &[u8]) -> usize
    ensures { (result ≡ lead (in_class Alpha) s.now) × (result ≤ length s.now) }
{
    s.iter().take_while(|b| is_alpha(**b)).count()
}

// How many bytes the number in front has: a minus sign counts if a digit stands behind it.
fn number_length(s: &[u8]) -> usize
    ensures { (result ≡ number_length s.now) × (result ≤ length s.now) }
{
    let m = leads(s, b'-');
    let d = lead_of(&s[m..], Class::Digit);
    if d == 0 {
        return 0;
    }
    m + d
}

// Text, if there is any; also if it is all white space.
fn tail(s: &[u8], place: usize, room: &mut [u32], n: usize) -> Result<usize, Why>
    requires { (place + length s.now ≤ 65536) × (n ≤ place) }
    ensures { Wrote shown_layout n room.old (tail_of place s.now) result room.new }
{
    if s.len() == 0 {
        return Ok(n);
    }
    put(room, n, Record::text(place as u32, s.len() as u32));
    Ok(n + 1)
}

// A word behind its backslash at `place`, by its name and the bytes of its number.
fn named(
    name: &[u8],
    digits: &[u8],
    place: usize,
    names: &Names,
    room: &mut [u32],
    n: usize,
) -> Result<usize, Why>
    requires { (place + (1 + length name.now) ≤ 65536) × (n ≤ place) }
    ensures { Wrote shown_layout n room.old (named_of place name.now digits.now) result room.new }
{
    if digits.len() == 0 {
        put(room, n, word_record(name, None, place, names));
        return Ok(n + 1);
    }
    numbered_word(name, digits, place, names, room, n)
}

// A word and the text behind it; s follows the backslash at `place`. One space belongs to the word, and no other white space.
fn word(s: &[u8], place: usize, names: &Names, room: &mut [u32], n: usize) -> Result<usize, Why>
    requires { (place + (1 + length s.now) ≤ 65536) × (n ≤ place) }
    ensures { Wrote shown_layout n room.old (word_of place s.now) result room.new }
{
    let k = letters_of(s);
    let m = k + number_length(&s[k..]);
    let next = named(&s[..k], &s[k..m], place, names, room, n)?;
    let e = m + leads(&s[m..], b' ');
    tail(&s[e..], place + 1 + e, room, next)
}

// `\'` at `place`, and s behind it: two hexadecimal digits, and text.
fn hex_escape(s: &[u8], place: usize, room: &mut [u32], n: usize) -> Result<usize, Why>
    requires { (place + (2 + length s.now) ≤ 65536) × (n ≤ place) }
    ensures { Wrote shown_layout n room.old (hex_escape place s.now) result room.new }
{
    if s.len() < 2 {
        return Err(Why::HexShort);
    }
    let v = hex_pair(s[0], s[1]).ok_or(Why::HexBad)?;
    put(room, n, Record::symbol(39, Some(v)));
    tail(&s[2..], place + 4, room, n + 1)
}

// A line break, and s behind it, which follows the backslash at `place` and b; a line feed behind a carriage return belongs to it.
fn line_break(b: u8, s: &[u8], place: usize, room: &mut [u32], n: usize) -> Result<usize, Why>
    requires { (place + (2 + length s.now) ≤ 65536) × (n ≤ place) }
    ensures { Wrote shown_layout n room.old (line_break_and place (break_length b s.now) s.now) result room.new }
{
    put(room, n, Record::bare(Kind::LineBreak as u32));
    if b == b'\r' {
        let k = leads(s, b'\n');
        return tail(&s[k..], place + 2 + k, room, n + 1);
    }
    tail(s, place + 2, room, n + 1)
}

// What a backslash at `place` makes of s, the bytes behind it.
fn escaped(s: &[u8], place: usize, names: &Names, room: &mut [u32], n: usize) -> Result<usize, Why>
    requires { (place + (1 + length s.now) ≤ 65536) × (n ≤ place) }
    ensures { Wrote shown_layout n room.old (escaped_of place s.now) result room.new }
{
    if s.len() == 0 {
        put(room, n, Record::symbol(0, None));
        return Ok(n + 1);
    }
    let b = s[0];
    if is_alpha(b) {
        return word(s, place, names, room, n);
    }
    if is_escape(b) {
        return tail(s, place + 1, room, n);
    }
    if b == b'\'' {
        return hex_escape(&s[1..], place, room, n);
    }
    if (b == b'\n') | (b == b'\r') {
        return line_break(b, &s[1..], place, room, n);
    }
    put(room, n, symbol(b));
    tail(&s[1..], place + 2, room, n + 1)
}

// The tokens of a slice that stands at `place`.
pub fn slice_tokens(
    s: &[u8],
    place: usize,
    names: &Names,
    room: &mut [u32],
    n: usize,
) -> Result<usize, Why>
    requires { (place + length s.now ≤ 65536) × (n ≤ place) }
    ensures { Wrote shown_layout n room.old (tokens_of place s.now) result room.new }
{
    if s.len() == 0 {
        return Ok(n);
    }
    let b = s[0];
    if b == b'\\' {
        return escaped(&s[1..], place, names, room, n);
    }
    if (b == b'{') | (b == b'}') {
        put(room, n, bracket(b));
        return tail(&s[1..], place + 1, room, n + 1);
    }
    if (b == b'\n') | (b == b'\r') {
        return tail(&s[1..], place + 1, room, n);
    }
    tail(s, place, room, n)
}
