// The record of a block, where blocks and a text are to be stored (01, Stored form): whether it may stand where it does.
//
//   fits   whether a record may stand behind a block of another style, and so many bytes of the text
//
// It is for `storing` alone, which sees to it that a whole record is there.
ghost use Rattle.std.specs.Prelude.{◌≡◌, ◌≤◌, length};
ghost use Rattle.fields.specs.Fields.{last_of};
ghost use Rattle.storing.specs.Fitting.{fits as fits_of};
ghost use Rattle.blocks.specs.Pages.{block_words};

use blocks::{TEXT_LENGTH, TEXT_PLACE};
use fields::{follows, in_range};
use styles::Style;
use wellformed::is_utf8;

// Whether words start with the record of a block that may stand where p bytes of the text came before. `before` is the
// style of the block before, if there is one.
pub fn fits(before: Option<Style>, p: usize, words: &[u32], text: &[u8]) -> bool
    requires { (block_words ≤ length words.now) × (p ≤ length text.now) }
    ensures { result ≡ fits_of (last_of before) p words.now text.now }
{
    let s = Style::at(words);
    let place = words[TEXT_PLACE] as usize;
    let count = words[TEXT_LENGTH] as usize;
    let signs = (place <= 2147483647) & (count <= 2147483647);
    if !(in_range(s) & (signs & ((0 < count) & (follows(before, s) & (place == p))))) {
        return false;
    }
    if text.len() - p < count {
        return false;
    }
    let end = p + count;
    is_utf8(&text[p..end])
}
