// A stored list (01, Stored form), read into two lent rooms.
//
//   read_list  the whole: each room holds its records and zeros, or zeros alone
//   counts_of  how many blocks and bytes of text a host is told of
//
// `read_list` is total. It reads blocks by `crate::entry::block_at`.
#![tactic(auto)]

pub mod check;
mod entry;

ghost use Rattle.std.specs.Prelude.{◌≡◌, length, replicate};
ghost use Rattle.blocks.specs.Pages.{none};
ghost use Rattle.blocks.specs.Laying.{told, on, lay_all, blank as blank_page, Still};
ghost use Rattle.stored.specs.Stored.{blocks_from, stored, ReadsList};
ghost use Rattle.stored.specs.Stored.{answer_counts};

use crate::entry::block_at;
use answers::{Refusal, Why};
use blocks::{BLOCK_WORDS, Page, add};
use rooms::clear_from;
use sevens::number_at;

// How many blocks, and how many bytes of text.
#[derive(Clone, Copy)]
pub struct Counts {
    pub blocks: usize,
    pub text: usize,
}

// Lays k blocks onto a page.
fn lay_blocks(list: &[u8], k: usize, blocks: &mut [u32], text: &mut [u8]) -> Result<Page, Refusal>
    ensures laid { told result blocks.new text.new
        ≡ lay_all (on blank_page blocks.old text.old) (blocks_from k none list.now) }
    ensures still { Still result (length blocks.old) (length text.old) }
{
    let mut t = list;
    let mut page = Page::blank();
    let mut before = None;
    for _ in 0..k {
        let e = block_at(t, before)?;
        let u = &t[e.numbers..];
        add(&mut page, e.style, &u[..e.text], blocks, text).map_err(Refusal::of)?;
        t = &u[e.text..];
        before = Some(e.style);
    }
    if 0 < t.len() {
        return Err(Refusal::of(Why::StoredLong));
    }
    Ok(page)
}

// Lays a whole list onto a page.
fn lay_list(list: &[u8], blocks: &mut [u32], text: &mut [u8]) -> Result<Page, Refusal>
    ensures laid { told result blocks.new text.new
        ≡ lay_all (on blank_page blocks.old text.old) (stored list.now) }
    ensures still { Still result (length blocks.old) (length text.old) }
{
    let n = number_at(list).map_err(Refusal::of)?;
    lay_blocks(&list[n.length..], n.value as usize, blocks, text)
}

// A refusal, and both rooms all zero.
fn refuse(refusal: Refusal, blocks: &mut [u32], text: &mut [u8]) -> Result<Counts, Refusal>
    ensures answer { result ≡ Err refusal }
    ensures block_room { blocks.new ≡ replicate (length blocks.old) 0 }
    ensures text_room { text.new ≡ replicate (length text.old) 0 }
{
    clear_from(blocks, 0, 0);
    clear_from(text, 0, 0);
    Err(refusal)
}

// Reads a stored list.
pub fn read_list(list: &[u8], blocks: &mut [u32], text: &mut [u8]) -> Result<Counts, Refusal>
    ensures { ReadsList list.now blocks.old text.old result blocks.new text.new }
{
    let laid = lay_list(list, blocks, text);
    match laid {
        Err(refusal) => refuse(refusal, blocks, text),
        Ok(page) => {
            let count = page.blocks;
            let length = page.text;
            clear_from(blocks, count * BLOCK_WORDS, 0);
            clear_from(text, length, 0);
            Ok(Counts {
                blocks: count,
                text: length,
            })
        }
    }
}

// How many blocks and bytes; zeros on refusal.
pub fn counts_of(answer: Result<Counts, Refusal>) -> Counts
    ensures { result ≡ answer_counts answer }
{
    answer.unwrap_or(Counts { blocks: 0, text: 0 })
}
