// What 01's extractor reads of a letter and prints of it (01, Sample letters): the letter read plain in the extractor's rooms.
//
//   text_of   the answer, and the text in a lent room
//   extract   the listing, on a page that holds any
//
// Both are total.
#![tactic(auto)]

pub mod listing;

ghost use Rattle.std.specs.Prelude.{◌≡◌};
ghost use Rattle.lines.specs.Pages.{PutWhole};
ghost use Rattle.parser.specs.Parsing.{answer_counts};
ghost use Rattle.extraction.specs.Listings.{listing};
ghost use Rattle.extraction.specs.Extractor.{TextOf, Extracts, ReadInRooms};
ghost use Rattle.answers.specs.Answers.{answer_number, answer_place};

use crate::listing::{Listed, list};
use answers::{Refusal, Why};
use blocks::BLOCK_WORDS;
use colours::COLOUR_WORDS;
use fonts::FONT_WORDS;
use parser::Counts;
use readings::Reading;
use rooms::clear_from;
use tokens::TOKEN_WORDS;

// 8,192 bytes of letter and of text, 1,024 tokens, 256 fonts, 256 colours, 128 blocks.
pub const LETTER_MOST: usize = 8192;

pub const TEXT_BYTES: usize = 8192;

const TOKEN_ROOM: usize = 1024 * TOKEN_WORDS;

const FONT_ROOM: usize = 256 * FONT_WORDS;

const COLOUR_ROOM: usize = 256 * COLOUR_WORDS;

const BLOCK_ROOM: usize = 128 * BLOCK_WORDS;

// No listing of these rooms has more bytes.
pub const PAGE_BYTES: usize = 65536;

// A letter in the extractor's rooms, by a reading. A longer letter than it takes gets refusal 1, and no text.
fn read(
    letter: &[u8],
    reading: Reading,
    tokens: &mut [u32; TOKEN_ROOM],
    fonts: &mut [u32; FONT_ROOM],
    colours: &mut [u32; COLOUR_ROOM],
    blocks: &mut [u32; BLOCK_ROOM],
    text: &mut [u8; TEXT_BYTES],
) -> Result<Counts, Refusal>
    ensures { ReadInRooms reading letter.now result fonts.new colours.new blocks.new text.new }
{
    if LETTER_MOST < letter.len() {
        clear_from(text, 0, 0);
        return Err(Refusal::of(Why::SourceTooLong));
    }
    reader::read(letter, reading, tokens, fonts, colours, blocks, text)
}

// The listing of an answer over the extractor's rooms: the page holds any.
fn list_whole(
    answer: Result<Counts, Refusal>,
    fonts: &[u32; FONT_ROOM],
    colours: &[u32; COLOUR_ROOM],
    blocks: &[u32; BLOCK_ROOM],
    text: &[u8; TEXT_BYTES],
    page: &mut [u8; PAGE_BYTES],
) -> Listed
    ensures number { result.number ≡ answer_number answer }
    ensures content { PutWhole page.old (listing (answer_number answer) (answer_place answer) (answer_counts answer) fonts.now colours.now blocks.now text.now) page.new result.bytes }
{
    list(answer, fonts, colours, blocks, text, page)
}

// A letter's answer, and its text: as many bytes of the room as the answer counts, and zeros behind them.
pub fn text_of(
    letter: &[u8],
    reading: Reading,
    text: &mut [u8; TEXT_BYTES],
) -> Result<Counts, Refusal>
    ensures { TextOf reading letter.now result text.new }
{
    let mut tokens = [0u32; TOKEN_ROOM];
    let mut fonts = [0u32; FONT_ROOM];
    let mut colours = [0u32; COLOUR_ROOM];
    let mut blocks = [0u32; BLOCK_ROOM];
    read(
        letter,
        reading,
        &mut tokens,
        &mut fonts,
        &mut colours,
        &mut blocks,
        text,
    )
}

// A letter's listing on a page, whole.
pub fn extract(letter: &[u8], reading: Reading, page: &mut [u8; PAGE_BYTES]) -> Listed
    ensures { Extracts reading letter.now page.old result page.new }
{
    let mut tokens = [0u32; TOKEN_ROOM];
    let mut fonts = [0u32; FONT_ROOM];
    let mut colours = [0u32; COLOUR_ROOM];
    let mut blocks = [0u32; BLOCK_ROOM];
    let mut text = [0u8; TEXT_BYTES];
    let answer = read(
        letter,
        reading,
        &mut tokens,
        &mut fonts,
        &mut colours,
        &mut blocks,
        &mut text,
    );
    list_whole(answer, &fonts, &colours, &blocks, &text, page)
}
