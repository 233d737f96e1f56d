// One block of a stored list (01, Stored form): its numbers, and the rules for them and for its text.
//
//   Entry        a block that stands in a list: its style, how many bytes its numbers have, and how many its text
//   numbers_at   numbers, one after the other
//   ruled        the rules for ranges, length, style and text
//   block_at     the block that a list starts with, by the two
//
// All are total. Whoever reads a list reads its blocks by `block_at`, and whoever checks one by the two.
ghost use Rattle.std.specs.Prelude.{◌≡◌, length};
ghost use Rattle.fields.specs.Fields.{last_of};
ghost use Rattle.stored.specs.Entries.{numbers_from, ruled as ruled_of, entry, NumbersIn};

use answers::{Refusal, Why};
use fields::{BLOCK_NUMBERS, follows, in_range, style_from};
use rooms::wide;
use sevens::number_at;
use styles::{BARE_WORDS, Style};
use wellformed::is_utf8;

#[derive(Clone, Copy)]
pub struct Entry {
    pub style: Style,
    pub numbers: usize,
    pub text: usize,
}

// As many numbers as the room has words, one after the other: how many bytes they have.
pub fn numbers_at(s: &[u8], words: &mut [u32]) -> Result<usize, Refusal>
    ensures { NumbersIn (numbers_from (length words.old) s.now) (length s.now) result
        words.new }
{
    let mut t = s;
    for word in words.iter_mut() {
        let n = number_at(t).map_err(Refusal::of)?;
        *word = n.value;
        t = &t[n.length..];
    }
    Ok(s.len() - t.len())
}

// A block of a style with n bytes of text, whose numbers have m bytes and are followed by t. `before` is the style of the block
// before, if there is one.
pub fn ruled(
    t: &[u8],
    before: Option<Style>,
    s: Style,
    n: usize,
    m: usize,
) -> Result<Entry, Refusal>
    ensures { result ≡ ruled_of (last_of before) s n m t.now }
{
    if !(in_range(s) & ((0 < n) & follows(before, s))) {
        return Err(Refusal::of(Why::StoredField));
    }
    if t.len() < n {
        return Err(Refusal::of(Why::StoredShort));
    }
    if is_utf8(&t[..n]) {
        return Ok(Entry {
            style: s,
            numbers: m,
            text: n,
        });
    }
    Err(Refusal::of(Why::StoredField))
}

// The block that a list starts with.
pub fn block_at(s: &[u8], before: Option<Style>) -> Result<Entry, Refusal>
    ensures { result ≡ entry (last_of before) s.now }
{
    let mut words = [0u32; BLOCK_NUMBERS];
    let m = numbers_at(s, &mut words)?;
    let style = style_from(&words[..BARE_WORDS]);
    let n = wide(words[BARE_WORDS]);
    ruled(&s[m..], before, style, n, m)
}
