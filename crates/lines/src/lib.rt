// Text on a page, numbers and records among it (01, Sample letters). A page's first `at` bytes are filled. Each function puts text
// behind them, and answers how many are filled then; what does not fit on the page is left out.
//
//   push, append   bytes as they are
//   number         a number from 0 on
//   place_item     a refusal's place, behind its number
//   records        the records of a room, one a line, each word with its sign
#![tactic(auto)]

ghost use Rattle.std.specs.Prelude.{◌≡◌, ◌+◌, ◌≤◌, length, [], ◌∷◌, ◌++◌};
ghost use Rattle.lines.specs.Pages.{Put};
ghost use Rattle.lines.specs.Lines.{signed as signed_text, mark, line, lines, item, place_item};

pub fn push(byte: u8, page: &mut [u8], at: usize) -> usize
    requires { at ≤ length page.old }
    ensures { Put page.old at (byte ∷ []) page.new result }
{
    if at < page.len() {
        page[at] = byte;
        return at + 1;
    }
    at
}

pub fn append(bytes: &[u8], page: &mut [u8], at: usize) -> usize
    requires { at ≤ length page.old }
    ensures { Put page.old at bytes.now page.new result }
{
    let fitting = (page.len() - at).min(bytes.len());
    let end = at + fitting;
    page[at..end].copy_from_slice(&bytes[..fitting]);
    end
}

// A number, and a byte behind it. By the kit's `decimal`: std prints numbers too, but promises nothing of a page.
pub fn number(value: u64, behind: u8, page: &mut [u8], at: usize) -> usize
    requires { at ≤ length page.old }
    ensures { Put page.old at (item value behind) page.new result }
{
    let mut digits = [0u8; 20];
    let k = io::decimal(value, &mut digits);
    let end = append(&digits[..k], page, at);
    push(behind, page, end)
}

// A refusal's place and a space; nothing where the answer's number is 0.
#[tactic(auto, unfolding(crate::specs::Lines::place_item))]
pub fn place_item(answer: u32, place: u32, page: &mut [u8], at: usize) -> usize
    requires { at ≤ length page.old }
    ensures { Put page.old at (place_item answer place) page.new result }
{
    if answer == 0 {
        return at;
    }
    number(u64::from(place), b' ', page, at)
}

// How far a word that stands for a negative number lies below 0.
fn below_zero(value: u32) -> u64
    requires { 2147483648 ≤ value }
    ensures { result + value ≡ 4294967296 }
{
    4294967296 - u64::from(value)
}

// A word as a number of 32 bits in two's complement.
#[tactic(auto, unfolding(crate::specs::Lines::signed))]
fn signed(value: u32, behind: u8, page: &mut [u8], at: usize) -> usize
    requires { at ≤ length page.old }
    ensures { Put page.old at (signed_text value ++ (behind ∷ [])) page.new result }
{
    if value < 2147483648 {
        return number(u64::from(value), behind, page, at);
    }
    let end = push(b'-', page, at);
    number(below_zero(value), behind, page, end)
}

// What stands behind the word before `next`: the last word of a line ends it.
#[tactic(auto, unfolding(crate::specs::Lines::mark))]
fn behind(next: usize, words: usize) -> u8
    ensures { result ≡ mark next words }
{
    if next < words { b' ' } else { b'\n' }
}

// The words of a record on a line.
fn record_line(words: &[u32], page: &mut [u8], at: usize) -> usize
    requires { at ≤ length page.old }
    ensures { Put page.old at (line words.now) page.new result }
{
    let mut end = at;
    for (i, word) in words.iter().enumerate() {
        let mark = behind(i + 1, words.len());
        end = signed(*word, mark, page, end);
    }
    end
}

// A line for each of the first `count` records of a room that are there whole.
pub fn records(room: &[u32], count: usize, width: usize, page: &mut [u8], at: usize) -> usize
    requires { at ≤ length page.old }
    ensures { Put page.old at (lines width count room.now) page.new result }
{
    // Records of no words have no lines.
    if width == 0 {
        return at;
    }
    let mut end = at;
    for record in room.chunks_exact(width).take(count) {
        end = record_line(record, page, end);
    }
    end
}
