// The writer of the stored form (01, Stored form): block records and a text become a list of bytes in a lent room, or one
// refusal.
//
//   write_list   the whole: 24, 26, then 25; the room holds the list and zeros, or zeros alone
//   unindented   26, where a block has an indent, which this form cannot hold (02, A5)
//   settle       25, where the room is too small
//
// `write_list` is total. `crate::list::put_list` goes on past a full room and over indents, so that 24 comes before 26 and 25.
#![tactic(auto)]

mod block;
mod list;
mod record;

ghost use Rattle.std.specs.Prelude.{◌≡◌, ◌/◌, length};
ghost use Rattle.answers.specs.Answers.{refusal};
ghost use Rattle.rooms.specs.Rooms.{settled};
ghost use Rattle.sevens.specs.Sevens.{byte_layout};
ghost use Rattle.blocks.specs.Pages.{block_words};
ghost use Rattle.storing.specs.Storing.{indented, unless_indented, WritesList};

use crate::list::put_list;
use answers::{Refusal, Why, count_of};
use blocks::BLOCK_WORDS;
use rooms::clear_from;
use styles::{Style, is_flush};

// Whether a block has an indent.
fn has_indent(blocks: &[u32]) -> bool
    ensures { result ≡ indented (length blocks.now / block_words) blocks.now }
{
    for words in blocks.chunks_exact(BLOCK_WORDS) {
        let s = Style::at(words);
        if !is_flush(s) {
            return true;
        }
    }
    false
}

// 26, where blocks that may be stored have an indent.
fn unindented(outcome: Result<usize, Refusal>, blocks: &[u32]) -> Result<usize, Refusal>
    ensures { result ≡ unless_indented (indented (length blocks.now / block_words) blocks.now) outcome }
{
    let n = outcome?;
    if has_indent(blocks) {
        return Err(Refusal::of(Why::IndentNotZero));
    }
    Ok(n)
}

// 25, where more was written than the room's total.
fn settle(outcome: Result<usize, Refusal>, total: usize) -> Result<usize, Refusal>
    ensures { result ≡ settled byte_layout (refusal Why.OutputRoom) total outcome }
{
    let n = outcome?;
    if n <= total {
        return Ok(n);
    }
    Err(Refusal::of(Why::OutputRoom))
}

// Writes blocks and their text as a stored list.
pub fn write_list(blocks: &[u32], text: &[u8], room: &mut [u8]) -> Result<usize, Refusal>
    ensures { WritesList blocks.now text.now room.old result room.new }
{
    let outcome = put_list(blocks, text, room);
    let bare = unindented(outcome, blocks);
    let answer = settle(bare, room.len());
    let count = count_of(answer);
    clear_from(room, count, 0);
    answer
}
