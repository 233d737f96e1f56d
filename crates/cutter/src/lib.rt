// The cutter: a letter's bytes become tokens in a lent room, or one refusal (01, Cutting; `Lexer::scan` in the crate).
//
//   cut         the whole: answers 1 to 7 in 01's order; the room holds the records and zeros, or zeros alone
//   whole       the source's length, its bytes, trimming
//   cut_slice   one slice, by the reading's rules
//   last_by     the last slice, which must be `}` alone
//   all_slices  slice by slice. It holds the slice, so it writes the slice's place and length behind each
//               token, and says the place with a refusal
//
// `cut` is total. Cutting goes on past a full room, so that 3 to 6 come before 7.
#![tactic(auto)]

ghost use Rattle.std.specs.Prelude.{◌≡◌, ◌+◌, ◌≤◌, ◌<◌, length, replicate};
ghost use Rattle.rooms.specs.Rooms.{Wrote};
ghost use Rattle.slices.specs.Slices.{slices_by};
ghost use Rattle.tokens.specs.Tokens.{shown_layout, token_layout};
ghost use Rattle.cutter.specs.Cutting.{tokens_by, last as last_of, last_by, all_slices, token_stream, Cuts};

use answers::{Refusal, Why};
use classes::{Class, body_of, has_high, lead_of};
use names::Names;
use readings::Reading;
use rooms::clear_from;
use slices::slice_end_by;
use tokenize::quick::slice_tokens;
use tokens::{Kind, Record, TOKEN_WORDS, put, seal};

// The last slice: a closing bracket alone.
fn last(s: &[u8], place: usize, room: &mut [u32], n: usize) -> Result<usize, Refusal>
    requires { (n < 65536) × (place ≤ 65536) }
    ensures { Wrote token_layout n room.old (last_of place s.now) result room.new }
{
    let p = place as u32;
    if s != b"}".as_slice() {
        return Err(Refusal::at(Why::LastSlice, p));
    }
    put(room, n, Record::bare(Kind::Closing as u32));
    seal(room, n, n + 1, p, 1);
    Ok(n + 1)
}

// The tokens of a slice, by the reading's rules.
fn cut_slice(
    reading: Reading,
    s: &[u8],
    place: usize,
    names: &Names,
    room: &mut [u32],
    n: usize,
) -> Result<usize, Why>
    requires { (place + length s.now ≤ 65536) × (n ≤ place) }
    ensures { Wrote shown_layout n room.old (tokens_by reading place s.now) result room.new }
{
    if reading.is_standard() {
        return standard::slice_tokens(s, place, names, room, n);
    }
    slice_tokens(reading, s, place, names, room, n)
}

// The last slice by the specification: it is cut as the others first.
fn standard_last(
    s: &[u8],
    place: usize,
    names: &Names,
    room: &mut [u32],
    n: usize,
) -> Result<usize, Refusal>
    requires { (place + length s.now ≤ 65536) × (n ≤ place) }
    ensures { Wrote token_layout n room.old (last_by Reading.Standard place s.now) result room.new }
{
    let p = place as u32;
    let m = standard::slice_tokens(s, place, names, room, n).map_err(|why| Refusal::at(why, p))?;
    if s == b"}".as_slice() {
        seal(room, n, m, p, s.len() as u32);
        return Ok(m);
    }
    Err(Refusal::at(Why::LastSlice, p))
}

// The last slice by the reading. A test of the reading, which is the host's number, is plainer here than a closure.
fn last_by(
    reading: Reading,
    s: &[u8],
    place: usize,
    names: &Names,
    room: &mut [u32],
    n: usize,
) -> Result<usize, Refusal>
    requires { (place + length s.now ≤ 65536) × (n < 65536) × (n ≤ place) }
    ensures { Wrote token_layout n room.old (last_by reading place s.now) result room.new }
{
    if reading.is_standard() {
        return standard_last(s, place, names, room, n);
    }
    last(s, place, room, n)
}

// All slices of a trimmed source that stands at `place`.
fn all_slices(
    reading: Reading,
    s: &[u8],
    place: usize,
    names: &Names,
    room: &mut [u32],
) -> Result<usize, Refusal>
    requires { place + length s.now ≤ 65536 }
    ensures { Wrote token_layout 0 room.old (all_slices reading place (slices_by reading s.now)) result room.new }
{
    if s.len() == 0 {
        return Ok(0);
    }
    let mut t = s;
    let mut p = place;
    let mut n = 0;
    // A `loop`: where a slice ends tells where the next one starts.
    loop {
        let e = slice_end_by(reading, t);
        if t.len() <= e {
            break;
        }
        let at = p as u32;
        let m = cut_slice(reading, &t[..e], p, names, room, n).map_err(|why| Refusal::at(why, at))?;
        seal(room, n, m, at, e as u32);
        n = m;
        t = &t[e..];
        p += e;
    }
    last_by(reading, t, p, names, room, n)
}

// The source, if it is short enough and of bytes below 128, trimmed and cut.
fn whole(reading: Reading, source: &[u8], names: &Names, room: &mut [u32]) -> Result<usize, Refusal>
    ensures { Wrote token_layout 0 room.old (token_stream reading source.now) result room.new }
{
    if 65536 < source.len() {
        return Err(Refusal::of(Why::SourceTooLong));
    }
    if has_high(source) {
        return Err(Refusal::of(Why::NotAscii));
    }
    let start = lead_of(source, Class::White);
    let t = &source[start..];
    let end = body_of(t, Class::White);
    all_slices(reading, &t[..end], start, names, room)
}

// A refusal, and the whole room zero.
fn refuse(refusal: Refusal, room: &mut [u32]) -> Result<usize, Refusal>
    ensures answer { result ≡ Err refusal }
    ensures content { room.new ≡ replicate (length room.old) 0 }
{
    clear_from(room, 0, 0);
    Err(refusal)
}

// Cuts a source into tokens by the reading. Every word of the room is written once or set to zero once.
pub fn cut(source: &[u8], reading: Reading, room: &mut [u32]) -> Result<usize, Refusal>
    ensures { Cuts reading source.now room.old result room.new }
{
    let names = Names::new();
    match whole(reading, source, &names, room) {
        Err(refusal) => refuse(refusal, room),
        Ok(n) => {
            if n <= room.len() / TOKEN_WORDS {
                clear_from(room, n * TOKEN_WORDS, 0);
                return Ok(n);
            }
            refuse(Refusal::of(Why::TokenRoom), room)
        }
    }
}
