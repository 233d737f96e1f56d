// Slices: where a letter is cut apart (01, Cutting; the loop of `Lexer::scan` in the crate).
//
//   slice_end      the end of the first slice, eight bytes at once
//   standard_end   the same in standard reading (02, A1)
//   slice_end_by   the same by the reading: by paragraphs `\` and a carriage return take in a line feed behind them (02, A2)
#![tactic(auto)]

mod eights;

ghost use Rattle.std.specs.Prelude.{◌≡◌, ◌&&◌, ◌+◌, ◌-◌, ◌≤◌, ◌<◌, length, get_or, take, drop};
ghost use Rattle.readings.specs.declared.Reading.TheVariants.{Paragraphs};
ghost use Rattle.classes.specs.Bytes.{lead};
ghost use Rattle.classes.specs.Eights.{outside};
ghost use Rattle.slices.specs.Slices.{starts_slice, up_to, slice_length, is_return, starts_with_feed, is_start, standard_length, length_by};

use crate::eights::{marks_of, starts_of};
use classes::eights::first_mark;
use readings::Reading;

// Whether b starts a new slice behind the byte `before`.
fn starts_slice(before: u8, b: u8) -> bool
    ensures { result ≡ starts_slice before b }
{
    classes::is_special(b) & (before != b'\\')
}

// The end of the first slice, byte by byte from a place on that is in it.
fn end_from(s: &[u8], from: usize) -> usize
    requires { (0 < from) × (from ≤ length s.now) }
    ensures { result ≡ from + up_to (get_or s.now (from - 1) 0) (drop from s.now) }
{
    for i in from..s.len() {
        if starts_slice(s[i - 1], s[i]) {
            return i;
        }
    }
    s.len()
}

// The length of the first slice of s; 0 if s is empty. A slice of one byte is seen by itself; then eight bytes are looked at as
// one number, and a special byte among them by itself: the byte before it tells whether it starts a slice. Nothing is reset
// after `\\`: the second backslash is the byte before what follows, as in the crate.
pub fn slice_end(s: &[u8]) -> usize
    ensures length { result ≡ slice_length s.now }
    ensures within { result ≤ length s.now }
    ensures some { 0 < length s.now → 0 < result }
{
    if s.len() < 2 {
        return s.len();
    }
    if starts_slice(s[0], s[1]) {
        return 1;
    }
    let mut i: usize = 2;
    // A `while`: what it finds tells how far it goes on.
    while let Some(eight) = s[i..].first_chunk() {
        let marks = marks_of(eight);
        if marks == 0 {
            i += 8;
        } else {
            i += first_mark(marks);
            if s[i - 1] != b'\\' {
                return i;
            }
            i += 1;
        }
    }
    end_from(s, i)
}

// Whether a backslash, a carriage return and a line feed stand in front.
fn takes_feed(s: &[u8]) -> bool
    ensures { result ≡ is_return (take 2 s.now) && starts_with_feed (drop 2 s.now) }
{
    if s.len() < 3 {
        return false;
    }
    ((s[0] == b'\\') & (s[1] == b'\r')) & (s[2] == b'\n')
}

// Where the search for the first slice's end begins by paragraphs: at the line feed that it takes in, or in front.
fn feed_from(s: &[u8]) -> usize
    ensures from { result + slice_length (drop result s.now) ≡ length_by Paragraphs s.now }
    ensures within { result ≤ length s.now }
    ensures some { 0 < length s.now → result < length s.now }
{
    if takes_feed(s) {
        return 2;
    }
    0
}

// Whether b starts a slice in standard reading, where no backslash that starts one stands before it.
fn is_start(b: u8) -> bool
    ensures { result ≡ is_start b }
{
    classes::is_special(b) | (b == b'\r')
}

// How far the first slice in standard reading goes for sure: a backslash that starts it takes in the byte behind it, and a
// carriage return that it took in takes in a line feed. From there on no byte asks what stands before it.
fn standard_from(s: &[u8]) -> usize
    ensures from { result + lead (outside is_start) (drop result s.now) ≡ standard_length s.now }
    ensures within { result ≤ length s.now }
{
    if s.len() < 2 {
        return s.len();
    }
    if s[0] != b'\\' {
        return 1;
    }
    if takes_feed(s) {
        return 3;
    }
    2
}

// The next place from which a slice starts in standard reading, byte by byte.
fn start_from(s: &[u8], from: usize) -> usize
    requires { from ≤ length s.now }
    ensures { result ≡ from + lead (outside is_start) (drop from s.now) }
{
    let passed = s[from..].iter().take_while(|b| !is_start(**b)).count();
    from + passed
}

// The length of the first slice in standard reading; 0 if s is empty. Eight bytes are looked at as one number: the first that
// is marked ends the slice.
fn standard_end(s: &[u8]) -> usize
    ensures length { result ≡ standard_length s.now }
    ensures within { result ≤ length s.now }
    ensures some { 0 < length s.now → 0 < result }
{
    let mut i = standard_from(s);
    // A `while`, for the same reason.
    while let Some(eight) = s[i..].first_chunk() {
        let marks = starts_of(eight);
        if marks != 0 {
            return i + first_mark(marks);
        }
        i += 8;
    }
    start_from(s, i)
}

// The length of the first slice by the reading. One call of `slice_end` and one of `standard_end`, so that the compiler lays them
// into the cutter's loop; a closure would make that one call of either.
pub fn slice_end_by(reading: Reading, s: &[u8]) -> usize
    ensures length { result ≡ length_by reading s.now }
    ensures within { result ≤ length s.now }
    ensures some { 0 < length s.now → 0 < result }
{
    let from = match reading {
        Reading::Plain => 0,
        Reading::Paragraphs => feed_from(s),
        Reading::Standard => {
            return standard_end(s);
        }
    };
    from + slice_end(&s[from..])
}
