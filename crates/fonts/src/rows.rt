// Fonts as records of three words in a lent room, ascending by key (01, Header walk, "Fonts").
//
//   Font    a font: key, place and length of its name
//   rank    where a key stands, or would stand, among the records
//   store   puts a font in its place
ghost use Rattle.std.specs.Prelude.{◌≡◌, ◌+◌, ◌*◌, ◌≤◌, List, length};
ghost use Rattle.std.proofs.lemmas.List.Edits.{sets};
ghost use Rattle.fonts.specs.Rows.{Font as Named, row_words, Ascends, Rank, stands as stands_of, StoredFont, font_words};

use crate::FONT_WORDS;
use answers::Why;

#[derive(Clone, Copy)]
pub struct Font {
    pub key: u32,
    pub place: u32,
    pub length: u32,
}

// How many of the first n records have a smaller key: the records ascend, so the search halves them.
fn rank(room: &[u32], n: usize, key: u32) -> usize
    requires { (n * font_words ≤ length room.now) × (n ≤ 256) × Ascends n room.now }
    ensures { Rank n room.now key result }
{
    // A `while`: the library's halving searches go over items, not over words of which every third is a key.
    let mut low: usize = 0;
    let mut high = n;
    while low < high {
        let half = (high - low) / 2;
        let middle = low + half;
        let at = middle * FONT_WORDS;
        let k = room[at];
        if k < key {
            low = middle + 1;
        } else {
            high = middle;
        }
    }
    low
}

// Whether the record at a rank has the key.
fn stands(room: &[u32], n: usize, r: usize, key: u32) -> bool
    requires { (n * font_words ≤ length room.now) × (n ≤ 256) }
    ensures { result ≡ stands_of n room.now r key }
{
    r < n && room[r * FONT_WORDS] == key
}

// Writes a font's record.
fn put(room: &mut [u32], at: usize, f: Font)
    requires { at + font_words ≤ length room.old }
    ensures { room.new ≡ sets room.old at (row_words f) }
{
    room[at] = f.key;
    room[at + 1] = f.place;
    room[at + 2] = f.length;
}

// Puts the current font among the n records of a table: over the record of the same key, or in its place, where the later ones
// move on by one; 17 if that would be a record too many. The answer is how many records there are then.
pub fn store(room: &mut [u32], n: usize, f: Font, limit: usize) -> Result<usize, Why>
    requires { (n ≤ limit) × (limit ≤ 256) × (limit * font_words ≤ length room.old) × Ascends n room.old }
    ensures { (fs : List Named) (g : Named) → StoredFont limit n f fs g room.old result room.new }
{
    let r = rank(room, n, f.key);
    let at = r * FONT_WORDS;
    if stands(room, n, r, f.key) {
        put(room, at, f);
        return Ok(n);
    }
    if limit <= n {
        return Err(Why::FontRoom);
    }
    room.copy_within(at..n * FONT_WORDS, at + FONT_WORDS);
    put(room, at, f);
    Ok(n + 1)
}
