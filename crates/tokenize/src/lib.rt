// The tokens of one slice (01, Cutting; `Lexer::tokenize` in the crate).
//
//   tokenize   a slice by its first byte; what follows a bracket or a raw line feed is cut again
//   escaped    what a backslash makes of the bytes behind it; the reading counts in its last rule alone, `other_by`
//   word       a control word, and the text behind it
//
// `quick` gives the same for the slices that letters mostly hold, and calls these for the rest.
//
// Each function writes its records from place n of the room on, and answers the next place or a refusal. The table of
// names is lent by the caller, who takes it once. A slice stands at `place` of a source of at most 65,536 bytes, and
// so far at most one record was written for each byte before it.
#![tactic(auto)]

pub mod quick;

ghost use Rattle.std.specs.Prelude.{◌≡◌, ◌+◌, ◌≤◌, ◌<◌, length};
ghost use Rattle.rooms.specs.Rooms.{Wrote};
ghost use Rattle.tokens.specs.Tokens.{shown_layout, text_record};
ghost use Rattle.tokenize.specs.Tokenize.{is_mark, plain as plain_of, word_tail, bare_length, named as named_of, word as word_of, hex_escape, line_break_and, other as other_of, behind_feed, returned as returned_of, other_by, escaped as escaped_of, mark as mark_of, tokens as tokens_of};

use answers::Why;
use classes::{Class, body_of, is_letter, lead_of};
use controls::{is_escape, numbered_word, word_record};
use names::Names;
use numbers::hex_pair;
use readings::Reading;
use tokens::{Kind, Record, put, words};

// `{`, `}` or a line feed.
fn is_mark(b: u8) -> bool
    ensures { result ≡ is_mark b }
{
    (b == b'{') | (b == b'}') | (b == b'\n')
}

fn text(place: usize, length: usize) -> Record
    requires { place + length ≤ 65536 }
    ensures { result ≡ text_record place length }
{
    Record::text(place as u32, length as u32)
}

// A plain tail: one text token, unless it is all white space.
fn plain(s: &[u8], place: usize, room: &mut [u32], n: usize) -> Result<usize, Why>
    requires { (place + length s.now ≤ 65536) × (n ≤ place) }
    ensures { Wrote shown_layout n room.old (plain_of place s.now) result room.new }
{
    let k = lead_of(s, Class::White);
    if k == s.len() {
        return Ok(n);
    }
    put(room, n, text(place, s.len()));
    Ok(n + 1)
}

// What follows a word and the white space that ends it: text even if it is all such white space. A tail of other white
// space, that is with a byte 11 in it, is lost, as in the crate.
fn word_tail(s: &[u8], place: usize, room: &mut [u32], n: usize) -> Result<usize, Why>
    requires { (place + length s.now ≤ 65536) × (n ≤ place) }
    ensures { Wrote shown_layout n room.old (word_tail place s.now) result room.new }
{
    if s.len() == 0 {
        return Ok(n);
    }
    let white = lead_of(s, Class::WordEnd);
    if white < s.len() {
        return plain(s, place, room, n);
    }
    put(room, n, text(place, s.len()));
    Ok(n + 1)
}

// The length without one semicolon at the end.
fn bare_length(w: &[u8]) -> usize
    ensures value { result ≡ bare_length w.now }
    ensures within { result ≤ length w.now }
{
    let k = w.len();
    if k == 0 {
        return 0;
    }
    let last = k - 1;
    if w[last] == b';' {
        return last;
    }
    k
}

// A word behind its backslash at `place`: its name, and the number that ends it.
fn named(w: &[u8], place: usize, names: &Names, room: &mut [u32], n: usize) -> Result<usize, Why>
    requires { (place + (1 + length w.now) ≤ 65536) × (n ≤ place) }
    ensures { Wrote shown_layout n room.old (named_of place w.now) result room.new }
{
    let k = body_of(w, Class::Numeral);
    if k == w.len() {
        put(room, n, word_record(w, None, place, names));
        return Ok(n + 1);
    }
    numbered_word(&w[..k], &w[k..], place, names, room, n)
}

// A word and the text behind it; s follows the backslash at `place`.
fn word(s: &[u8], place: usize, names: &Names, room: &mut [u32], n: usize) -> Result<usize, Why>
    requires { (place + (1 + length s.now) ≤ 65536) × (n ≤ place) }
    ensures { Wrote shown_layout n room.old (word_of place s.now) result room.new }
{
    let k = lead_of(s, Class::InWord);
    let e = bare_length(&s[..k]);
    let m = named(&s[..e], place, names, room, n)?;
    if k == s.len() {
        return Ok(m);
    }
    let next = k + 1;
    word_tail(&s[next..], place + 1 + next, room, m)
}

// `\'` at `place`, and s behind it: two hexadecimal digits, and a plain tail.
fn hex_escape(s: &[u8], place: usize, room: &mut [u32], n: usize) -> Result<usize, Why>
    requires { (place + (2 + length s.now) ≤ 65536) × (n ≤ place) }
    ensures { Wrote shown_layout n room.old (hex_escape place s.now) result room.new }
{
    if s.len() < 2 {
        return Err(Why::HexShort);
    }
    let v = hex_pair(s[0], s[1]).ok_or(Why::HexBad)?;
    put(room, n, Record::word(words::UNICODE, Some(v)));
    plain(&s[2..], place + 4, room, n + 1)
}

// A line break, and s behind it, which follows the backslash and line feed at `place`.
fn line_break(s: &[u8], place: usize, room: &mut [u32], n: usize) -> Result<usize, Why>
    requires { (place + (2 + length s.now) ≤ 65536) × (n ≤ place) }
    ensures { Wrote shown_layout n room.old (line_break_and place s.now) result room.new }
{
    put(room, n, Record::bare(Kind::LineBreak as u32));
    plain(s, place + 2, room, n + 1)
}

// A backslash and spaces alone are text; a backslash and any other byte give nothing.
fn other(s: &[u8], place: usize, room: &mut [u32], n: usize) -> Result<usize, Why>
    requires { (place + (1 + length s.now) ≤ 65536) × (n ≤ place) }
    ensures { Wrote shown_layout n room.old (other_of place s.now) result room.new }
{
    let k = lead_of(s, Class::Space);
    if k < s.len() {
        return Ok(n);
    }
    put(room, n, text(place, 1 + s.len()));
    Ok(n + 1)
}

// What stands behind a carriage return that makes a line break; a line feed in front belongs to it.
fn behind_feed(s: &[u8], place: usize, room: &mut [u32], n: usize) -> Result<usize, Why>
    requires { (place + length s.now ≤ 65536) × (n ≤ place) }
    ensures { Wrote shown_layout n room.old (behind_feed place s.now) result room.new }
{
    if s.len() == 0 {
        return plain(s, place, room, n);
    }
    if s[0] == b'\n' {
        return plain(&s[1..], place + 1, room, n);
    }
    plain(s, place, room, n)
}

// A backslash and a carriage return are a line break (02, A2). Else as `other`.
fn returned(s: &[u8], place: usize, room: &mut [u32], n: usize) -> Result<usize, Why>
    requires { (place + (1 + length s.now) ≤ 65536) × (n ≤ place) }
    ensures { Wrote shown_layout n room.old (returned_of place s.now) result room.new }
{
    if s.len() == 0 {
        return other(s, place, room, n);
    }
    if s[0] != b'\r' {
        return other(s, place, room, n);
    }
    put(room, n, Record::bare(Kind::LineBreak as u32));
    behind_feed(&s[1..], place + 2, room, n + 1)
}

// The last rule, by the reading. A test of the reading, which is the host's number, is plainer here than a closure.
fn other_by(
    reading: Reading,
    s: &[u8],
    place: usize,
    room: &mut [u32],
    n: usize,
) -> Result<usize, Why>
    requires { (place + (1 + length s.now) ≤ 65536) × (n ≤ place) }
    ensures { Wrote shown_layout n room.old (other_by reading place s.now) result room.new }
{
    match reading {
        Reading::Plain => other(s, place, room, n),
        Reading::Paragraphs => returned(s, place, room, n),
        Reading::Standard => returned(s, place, room, n),
    }
}

// What a backslash at `place` makes of s, the bytes behind it.
fn escaped(
    reading: Reading,
    s: &[u8],
    place: usize,
    names: &Names,
    room: &mut [u32],
    n: usize,
) -> Result<usize, Why>
    requires { (place + (1 + length s.now) ≤ 65536) × (n ≤ place) }
    ensures { Wrote shown_layout n room.old (escaped_of reading place s.now) result room.new }
{
    if s.len() == 0 {
        return other(s, place, room, n);
    }
    let b = s[0];
    if is_letter(b) {
        return word(s, place, names, room, n);
    }
    if is_escape(b) {
        put(room, n, text(place + 1, s.len()));
        return Ok(n + 1);
    }
    if b == b'\'' {
        return hex_escape(&s[1..], place, room, n);
    }
    if b == b'\n' {
        return line_break(&s[1..], place, room, n);
    }
    if b == b'*' {
        put(room, n, Record::bare(Kind::Ignorable as u32));
        return Ok(n + 1);
    }
    other_by(reading, s, place, room, n)
}

// An opening or a closing bracket has a token, a line feed none. The next place in the room.
fn mark(b: u8, room: &mut [u32], n: usize) -> usize
    requires { n < 65536 }
    ensures { Wrote shown_layout n room.old (mark_of b) (Ok result) room.new }
{
    if b == b'{' {
        put(room, n, Record::bare(Kind::Opening as u32));
        return n + 1;
    }
    if b == b'}' {
        put(room, n, Record::bare(Kind::Closing as u32));
        return n + 1;
    }
    n
}

// The tokens of a slice that stands at `place`.
fn tokenize(
    reading: Reading,
    s: &[u8],
    place: usize,
    names: &Names,
    room: &mut [u32],
    n: usize,
) -> Result<usize, Why>
    requires { (place + length s.now ≤ 65536) × (n ≤ place) }
    ensures { Wrote shown_layout n room.old (tokens_of reading place s.now) result room.new }
{
    if s.len() == 0 {
        return Ok(n);
    }
    let b = s[0];
    if is_mark(b) {
        let m = mark(b, room, n);
        if s.len() == 1 {
            return Ok(m);
        }
        return tokenize(reading, &s[1..], place + 1, names, room, m);
    }
    if b == b'\\' {
        return escaped(reading, &s[1..], place, names, room, n);
    }
    plain(s, place, room, n)
}
