// A letter's listing, as bytes on a page (01, Sample letters, and 02, A4): answer and five counts on a line, of a refusal its place
// between them; the fonts, the colours and the blocks, a line each; the text and a line feed, which a refusal does not have. What does
// not fit on the page is left out.
ghost use Rattle.std.specs.Prelude.{◌≡◌, ◌≤◌, length};
ghost use Rattle.parser.specs.Parsing.{answer_counts};
ghost use Rattle.lines.specs.Pages.{Put};
ghost use Rattle.extraction.specs.Listings.{head_line, text_line, listing};
ghost use Rattle.answers.specs.Answers.{answer_number, answer_place};

use answers::{Refusal, number_of, place_of};
use blocks::BLOCK_WORDS;
use colours::COLOUR_WORDS;
use fonts::FONT_WORDS;
use lines::{append, number, place_item, push, records};
use parser::{Counts, counts_of};

// The number of the answer, and how many bytes its listing has.
#[derive(Clone, Copy)]
pub struct Listed {
    pub number: u32,
    pub bytes: usize,
}

// The first line.
fn head(answer: u32, place: u32, counts: Counts, page: &mut [u8]) -> usize
    ensures { Put page.old 0 (head_line answer place counts) page.new result }
{
    let told = number(answer as u64, b' ', page, 0);
    let placed = place_item(answer, place, page, told);
    let tokens = number(counts.tokens as u64, b' ', page, placed);
    let fonts = number(counts.fonts as u64, b' ', page, tokens);
    let colours = number(counts.colours as u64, b' ', page, fonts);
    let blocks = number(counts.blocks as u64, b' ', page, colours);
    number(counts.text as u64, b'\n', page, blocks)
}

// The text's first `count` bytes that are there, and a line feed.
fn text_line(text: &[u8], count: usize, page: &mut [u8], at: usize) -> usize
    requires { at ≤ length page.old }
    ensures { Put page.old at (text_line count text.now) page.new result }
{
    if count < text.len() {
        let part = append(&text[..count], page, at);
        return push(b'\n', page, part);
    }
    let all = append(text, page, at);
    push(b'\n', page, all)
}

// The listing of an answer over the rooms that it speaks of; how many bytes it has.
pub fn list(
    answer: Result<Counts, Refusal>,
    fonts: &[u32],
    colours: &[u32],
    blocks: &[u32],
    text: &[u8],
    page: &mut [u8],
) -> Listed
    ensures number { result.number ≡ answer_number answer }
    ensures content { Put page.old 0 (listing (answer_number answer) (answer_place answer) (answer_counts answer) fonts.now colours.now blocks.now text.now) page.new result.bytes }
{
    let told = number_of(&answer);
    let place = place_of(&answer);
    let counts = counts_of(answer);
    let first = head(told, place, counts, page);
    if told != 0 {
        return Listed {
            number: told,
            bytes: first,
        };
    }
    let font_lines = records(fonts, counts.fonts, FONT_WORDS, page, first);
    let colour_lines = records(colours, counts.colours, COLOUR_WORDS, page, font_lines);
    let block_lines = records(blocks, counts.blocks, BLOCK_WORDS, page, colour_lines);
    let end = text_line(text, counts.text, page, block_lines);
    Listed {
        number: told,
        bytes: end,
    }
}
