// The tokens of one slice, as `tokenize` gives them, by a shorter way for the slices that letters mostly hold:
//
//   a word of letters, with digits or none behind them, up to white space or the slice's end
//   a bracket or a raw line feed alone
//   plain text
//
// Any other slice goes to `tokenize`, which calls itself on what follows a bracket or a line feed. No function here calls
// itself, so the compiler lays all of it into the cutter's loop. What it does not lay in, `tokenize` and `word`, gives its
// answer in memory: that is taken apart and put together again, so that the other ways keep theirs in registers.
ghost use Rattle.std.specs.Prelude.{◌≡◌, true, ◌+◌, ◌≤◌, ◌<◌, length, get_or, drop};
ghost use Rattle.classes.specs.declared.Class.TheVariants.{Numeral};
ghost use Rattle.classes.specs.Bytes.{is_letter, in_class, lead, body};
ghost use Rattle.rooms.specs.Rooms.{Wrote};
ghost use Rattle.tokens.specs.Tokens.{shown_layout};
ghost use Rattle.tokenize.specs.Tokenize.{is_mark, named, word_tail, word as word_of, tokens as tokens_of};
ghost use Rattle.tokenize.specs.Quick.{ends_at};

use crate::{is_mark, mark, plain, tokenize, word, word_tail};
use answers::Why;
use classes::{Class, ends_word, is_letter, lead_of};
use controls::word_record;
use names::Names;
use numbers::decimal_of;
use readings::Reading;
use tokens::put;

// How many letters stand in front.
fn letters_of(s: &[u8]) -> usize
    ensures { (result ≡ lead is_letter s.now) × (result ≤ length s.now) }
{
    s.iter().take_while(|b| is_letter(**b)).count()
}

// Whether a word ends at k.
fn ends_at(s: &[u8], k: usize) -> bool
    requires { k ≤ length s.now }
    ensures { result ≡ ends_at s.now k }
{
    if k == s.len() {
        return true;
    }
    ends_word(s[k])
}

// The token of a word whose name has e bytes, as the code behind `tokenize::word` finds it, but for the search for e.
fn numbered(
    w: &[u8],
    e: usize,
    place: usize,
    names: &Names,
    room: &mut [u32],
    n: usize,
) -> Result<usize, Why>
    requires bounds { (place + (1 + length w.now) ≤ 65536) × (n ≤ place) }
    requires ends { (e ≡ body (in_class Numeral) w.now) × (e ≤ length w.now) }
    ensures { Wrote shown_layout n room.old (named place w.now) result room.new }
{
    if e == w.len() {
        put(room, n, word_record(w, None, place, names));
        return Ok(n + 1);
    }
    let v = decimal_of(&w[e..]).ok_or(Why::NumberBad)?;
    put(room, n, word_record(&w[..e], Some(v), place, names));
    Ok(n + 1)
}

// What stands behind a word that ends at k of s, which follows the backslash at `place`.
fn behind(s: &[u8], k: usize, place: usize, room: &mut [u32], n: usize) -> Result<usize, Why>
    requires { (place + (1 + length s.now) ≤ 65536) × (n ≤ place + 1) × (k ≤ length s.now) }
    ensures { Wrote shown_layout n room.old (word_tail (place + 1 + (k + 1)) (drop (k + 1) s.now)) result room.new }
{
    if k == s.len() {
        return Ok(n);
    }
    let next = k + 1;
    word_tail(&s[next..], place + 1 + next, room, n)
}

// A word and the text behind it; s follows the backslash at `place`.
fn quick_word(
    s: &[u8],
    place: usize,
    names: &Names,
    room: &mut [u32],
    n: usize,
) -> Result<usize, Why>
    requires { (place + (1 + length s.now) ≤ 65536) × (n ≤ place) }
    ensures { Wrote shown_layout n room.old (word_of place s.now) result room.new }
{
    let e = letters_of(s);
    let k = e + lead_of(&s[e..], Class::Numeral);
    if !ends_at(s, k) {
        let other = word(s, place, names, room, n);
        match other {
            Err(why) => {
                return Err(why);
            }
            Ok(m) => {
                return Ok(m);
            }
        }
    }
    let m = numbered(&s[..k], e, place, names, room, n)?;
    behind(s, k, place, room, m)
}

// A slice that begins with a backslash.
fn escaped(
    reading: Reading,
    s: &[u8],
    place: usize,
    names: &Names,
    room: &mut [u32],
    n: usize,
) -> Result<usize, Why>
    requires bounds { (place + length s.now ≤ 65536) × (n ≤ place) }
    requires starts { (0 < length s.now) × (get_or s.now 0 0 ≡ 92) }
    ensures { Wrote shown_layout n room.old (tokens_of reading place s.now) result room.new }
{
    if 1 < s.len() {
        if is_letter(s[1]) {
            return quick_word(&s[1..], place, names, room, n);
        }
    }
    let rest = tokenize(reading, s, place, names, room, n);
    match rest {
        Err(why) => Err(why),
        Ok(m) => Ok(m),
    }
}

// A slice that begins with a bracket or a line feed. What follows is cut again: by `tokenize`, which calls itself on it.
fn marked(
    reading: Reading,
    s: &[u8],
    place: usize,
    names: &Names,
    room: &mut [u32],
    n: usize,
) -> Result<usize, Why>
    requires bounds { (place + length s.now ≤ 65536) × (n ≤ place) }
    requires starts { (0 < length s.now) × (is_mark (get_or s.now 0 0) ≡ true) }
    ensures { Wrote shown_layout n room.old (tokens_of reading place s.now) result room.new }
{
    if s.len() == 1 {
        return Ok(mark(s[0], room, n));
    }
    let rest = tokenize(reading, s, place, names, room, n);
    match rest {
        Err(why) => Err(why),
        Ok(m) => Ok(m),
    }
}

// The tokens of a slice that stands at `place`.
pub fn slice_tokens(
    reading: Reading,
    s: &[u8],
    place: usize,
    names: &Names,
    room: &mut [u32],
    n: usize,
) -> Result<usize, Why>
    requires { (place + length s.now ≤ 65536) × (n ≤ place) }
    ensures { Wrote shown_layout n room.old (tokens_of reading place s.now) result room.new }
{
    if s.len() == 0 {
        return Ok(n);
    }
    let b = s[0];
    if b == b'\\' {
        return escaped(reading, s, place, names, room, n);
    }
    if is_mark(b) {
        return marked(reading, s, place, names, room, n);
    }
    plain(s, place, room, n)
}
