// A stored list, checked without rooms (01, Stored form: "The node host .. gets its refusal number, rooms counted as ample").
//
//   check          the answer that `stored::read_list` would give with ample rooms
//   check_blocks   the same of a list's blocks, behind their count
//   block_at       one block
//
// `check` is total.
ghost use Rattle.std.specs.Prelude.{◌≡◌, ℕ, ◌≤◌, length};
ghost use Rattle.rooms.specs.Streams.{answer};
ghost use Rattle.blocks.specs.Pages.{none, roomy};
ghost use Rattle.fields.specs.Fields.{last_of};
ghost use Rattle.stored.specs.Entries.{entry};
ghost use Rattle.stored.specs.Stored.{blocks_from};
ghost use Rattle.stored.specs.Checks.{Checks};

use crate::entry::{Entry, numbers_at, ruled};
use answers::{Refusal, Why};
use fields::{BLOCK_NUMBERS, style_from};
use rooms::wide;
use sevens::number_at;
use styles::{BARE_WORDS, Style};

// As `entry::block_at`, and said again so that the compiler lays it into the loop below, which it does with what is called in
// one place alone: else a style goes through memory twice for each block.
fn block_at(s: &[u8], before: Option<Style>) -> Result<Entry, Refusal>
    ensures { result ≡ entry (last_of before) s.now }
{
    let mut words = [0u32; BLOCK_NUMBERS];
    let m = numbers_at(s, &mut words)?;
    let style = style_from(&words[..BARE_WORDS]);
    let n = wide(words[BARE_WORDS]);
    ruled(&s[m..], before, style, n, m)
}

// Checks k blocks: how many there are, or the refusal.
fn check_blocks(list: &[u8], k: usize) -> Result<usize, Refusal>
    ensures { (b : ℕ) → length list.now ≤ b
        → result ≡ answer 0 (roomy b 2147483647 none (blocks_from k none list.now)) }
{
    let mut t = list;
    let mut left: usize = 2147483647;
    let mut before = None;
    for _ in 0..k {
        let e = block_at(t, before)?;
        if left < e.text {
            return Err(Refusal::of(Why::TextRoom));
        }
        left -= e.text;
        t = &t[e.numbers + e.text..];
        before = Some(e.style);
    }
    if t.len() != 0 {
        return Err(Refusal::of(Why::StoredLong));
    }
    Ok(k)
}

// The answer that `read_list` would give with ample rooms, in one pass over the list.
pub fn check(list: &[u8]) -> Result<usize, Refusal>
    ensures { Checks list.now result }
{
    let n = number_at(list).map_err(Refusal::of)?;
    check_blocks(&list[n.length..], n.value as usize)
}
