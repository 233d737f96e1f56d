// Pages: text of a style becomes blocks and text in two lent rooms (01, Body; `Parser::add_text_to_document` in the crate).
//
//   Page     how much is written
//   start    the block that text of a style goes to: the last one, or a new one
//   append   text behind the text, in the last block
//   add      both
//
// Where there is no room, a function answers which refusal that is. A block's record is written when it starts, and its length grows
// with its text: both rooms hold at any time what has been laid.
#![tactic(auto)]

mod copy;
mod record;

ghost use Rattle.std.specs.Prelude.{◌≡◌, not, List, ℕ, ◌≤◌, ◌<◌, length, IsOk};
ghost use Rattle.rooms.specs.Rooms.{capacity as capacity_of};
ghost use Rattle.blocks.specs.Pages.{block_words, text_capacity, starts};
ghost use Rattle.blocks.specs.Laying.{blank, last_in, roomed, start_of, append_of, add_of, ReadyBlocks, Ready};

use crate::copy::copy;
use crate::record::{put, style_in};
use answers::Why;
use styles::{STYLE_WORDS, Style, same_style};

// A block's record: the words of its style, the place of its text, and its length.
pub const TEXT_PLACE: usize = STYLE_WORDS;

pub const TEXT_LENGTH: usize = STYLE_WORDS + 1;

pub const BLOCK_WORDS: usize = STYLE_WORDS + 2;

// `blocks` records and `text` bytes are written; the last block's text starts at `from`.
#[derive(Clone, Copy)]
pub struct Page {
    pub blocks: usize,
    pub text: usize,
    pub from: usize,
}

impl Page {
    // Nothing is laid yet.
    pub fn blank() -> Page
        ensures { result ≡ blank }
    {
        Page {
            blocks: 0,
            text: 0,
            from: 0,
        }
    }
}

// Whether text of a style joins the last of n blocks.
fn joins(n: usize, s: Style, blocks: &[u32]) -> bool
    requires { n ≤ capacity_of block_words (length blocks.now) }
    ensures { result ≡ not (starts (last_in blocks.now n) s) }
{
    if n == 0 {
        return false;
    }
    let last = style_in(blocks, n - 1);
    same_style(last, s)
}

// The block that text of a style goes to: the last one, or a new one, without text as yet.
pub fn start(page: &mut Page, s: Style, blocks: &mut [u32]) -> Result<(), Why>
    requires { ReadyBlocks page.old (length blocks.old) }
    ensures laid { (t : List ℕ) → roomed result page.new blocks.new t ≡ start_of page.old s blocks.old t }
    ensures ready { (v : ℕ) → page.old.text ≤ text_capacity v → Ready page.new (length blocks.old) v }
    ensures some { IsOk result → 0 < page.new.blocks }
{
    let n = page.blocks;
    if joins(n, s, blocks) {
        return Ok(());
    }
    if n < blocks.len() / BLOCK_WORDS {
        let at = page.text;
        put(blocks, n, s, at as u32, 0);
        page.blocks = n + 1;
        page.from = at;
        return Ok(());
    }
    Err(Why::BlockRoom)
}

// How many bytes of a text room count.
fn capacity(n: usize) -> usize
    ensures { result ≡ text_capacity n }
{
    if n < 2147483647 {
        return n;
    }
    2147483647
}

// Text behind the text, in the last block.
pub fn append(page: &mut Page, bytes: &[u8], blocks: &mut [u32], text: &mut [u8]) -> Result<(), Why>
    requires { Ready page.old (length blocks.old) (length text.old) × (0 < page.old.blocks) }
    ensures laid { roomed result page.new blocks.new text.new ≡ append_of page.old bytes.now blocks.old text.old }
    ensures ready { Ready page.new (length blocks.old) (length text.old) }
{
    let at = page.text;
    let n = bytes.len();
    if capacity(text.len()) - at < n {
        return Err(Why::TextRoom);
    }
    copy(bytes, text, at);
    let end = at + n;
    let grown = (end - page.from) as u32;
    let last = page.blocks * BLOCK_WORDS - 1;
    blocks[last] = grown;
    page.text = end;
    Ok(())
}

// Text of a style.
pub fn add(
    page: &mut Page,
    s: Style,
    bytes: &[u8],
    blocks: &mut [u32],
    text: &mut [u8],
) -> Result<(), Why>
    requires { Ready page.old (length blocks.old) (length text.old) }
    ensures laid { roomed result page.new blocks.new text.new ≡ add_of page.old s bytes.now blocks.old text.old }
    ensures ready { Ready page.new (length blocks.old) (length text.old) }
{
    start(page, s, blocks)?;
    append(page, bytes, blocks, text)
}
