// Block records and a text as the bytes of a stored list, put into a lent room (01, Stored form), or the refusal 24.
//
//   put_list     the count, and then the blocks
//   put_blocks   record by record, as long as each may stand where it does
//
// `put_list` is total. It goes on past a full room, and returns how many bytes the list has.
ghost use Rattle.std.specs.Prelude.{◌≡◌, ◌/◌, ◌≤◌, length};
ghost use Rattle.answers.specs.Answers.{refusal};
ghost use Rattle.rooms.specs.Rooms.{Wrote};
ghost use Rattle.sevens.specs.Sevens.{byte_layout};
ghost use Rattle.blocks.specs.Pages.{none, block_words};
ghost use Rattle.storing.specs.Lists.{pieces_from, bytes_of, list_stream};

use crate::block::put_block;
use crate::record::fits;
use answers::{Refusal, Why};
use blocks::{BLOCK_WORDS, TEXT_LENGTH};
use sevens::put_number;
use styles::Style;

// 24, for words or a text that cannot be stored.
fn unfit() -> Result<usize, Refusal>
    ensures { result ≡ Err (refusal Why.StoredField) }
{
    Err(Refusal::of(Why::StoredField))
}

// The blocks of all records. The next place, if their text is the whole text.
fn put_blocks(blocks: &[u32], text: &[u8], room: &mut [u8], n: usize) -> Result<usize, Refusal>
    requires { n ≤ 5 }
    ensures { Wrote byte_layout n room.old
        (bytes_of (pieces_from (length blocks.now / block_words) none 0 blocks.now text.now))
        result room.new }
{
    let mut before = None;
    let mut p: usize = 0;
    let mut at = n;
    for words in blocks.chunks_exact(BLOCK_WORDS) {
        if !fits(before, p, words, text) {
            return unfit();
        }
        let style = Style::at(words);
        let end = p + words[TEXT_LENGTH] as usize;
        at = put_block(style, &text[p..end], room, at);
        before = Some(style);
        p = end;
    }
    if p < text.len() {
        return unfit();
    }
    Ok(at)
}

// The whole list, from the start of a room on.
pub fn put_list(blocks: &[u32], text: &[u8], room: &mut [u8]) -> Result<usize, Refusal>
    ensures { Wrote byte_layout 0 room.old (list_stream blocks.now text.now) result
        room.new }
{
    let count = blocks.len() / BLOCK_WORDS;
    if !((blocks.len() % BLOCK_WORDS == 0) & (count <= 4294967295)) {
        return unfit();
    }
    let number = count as u32;
    let start = put_number(number, room, 0);
    put_blocks(blocks, text, room, start)
}
