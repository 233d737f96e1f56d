// One listing of ours against the expected one.
ghost use Rattle.std.specs.Prelude.{◌≤◌, length};
ghost use Rattle.letters.specs.Listed.{Whole};

use crate::list::{LENGTH_BYTES, Letter};
use crate::same::same;
use crate::say;
use extraction::{PAGE_BYTES, extract};
use readings::Reading;
use std::io;

// One more letter that got this answer.
fn count_in(answer: u32, answers: &mut [u32]) {
    if let Some(count) = answers.get_mut(answer as usize) {
        *count = count.saturating_add(1);
    }
}

// Whether our listing, the first `bytes` of the page, is the expected one. `letters` and `agree` count those before; the first
// letter that does not agree is said.
fn judge(
    rt: &impl Print,
    expected: &[u8],
    page: &[u8],
    bytes: usize,
    letters: usize,
    agree: usize,
) -> io::Result<bool>
    requires { bytes ≤ length page.now }
{
    let ours = &page[..bytes];
    let agrees = same(expected, ours);
    if !agrees && letters == agree {
        say::difference(rt, letters, expected, ours)?;
    }
    Ok(agrees)
}

// Reads the letter at the front of `rest`, and judges its listing.
pub fn read_and_judge(
    rt: &impl Print,
    rest: &[u8],
    letter: Letter,
    page: &mut [u8; PAGE_BYTES],
    answers: &mut [u32],
    letters: usize,
    agree: usize,
) -> io::Result<bool>
    requires { Whole (length rest.now) letter }
{
    let listed = extract(&rest[LENGTH_BYTES..letter.letter], Reading::Plain, page);
    count_in(listed.number, answers);
    judge(
        rt,
        &rest[letter.listing..letter.end],
        page,
        listed.bytes,
        letters,
        agree,
    )
}
