// The parser: a letter's tokens become tables, blocks and text in four lent rooms, or one refusal (`Parser::parse` in the crate).
//
//   Counts      the five counts; `counts_of` those of an answer
//   parse       the whole: first token, header, body; answers 8 to 20 in 01's order
//
// After a refusal the rooms may hold anything. `parse` asks that so many whole records are there, at most 65,536.
#![tactic(auto)]

ghost use Rattle.std.specs.Prelude.{◌≡◌, List, ℕ, ◌*◌, ◌≤◌, length};
ghost use Rattle.tokens.specs.Items.{tokens_all};
ghost use Rattle.parser.specs.Parsing.{answer_counts, sizes, begun as begun_of, headed, placed, walked};
ghost use Rattle.parser.specs.Parts.{Starts, BodyInto, LetterInto};
ghost use Rattle.rooms.specs.Streams.{answer, items};
ghost use Rattle.rooms.specs.Rooms.{table_limit};
ghost use Rattle.walk.specs.Walk.{walk as walk_of};
ghost use Rattle.header.specs.Header.{tables};
ghost use Rattle.tokens.specs.Tokens.{token_words};
ghost use Rattle.fonts.specs.Rows.{font_words};
ghost use Rattle.colours.specs.Colours.{colour_words};

use answers::{Refusal, Why};
use blocks::BLOCK_WORDS;
use body::lay_body;
use header::group::is_opening;
use header::read_header;
use readings::Reading;
use rooms::clear_from;
use tokens::item::slice_at;

// How many records of each kind, and how many bytes of text.
#[derive(Clone, Copy)]
pub struct Counts {
    pub tokens: usize,
    pub fonts: usize,
    pub colours: usize,
    pub blocks: usize,
    pub text: usize,
}

// Whether there is a first token, and an opening bracket it is.
fn start(tokens: &[u32], n: usize) -> Result<(), Refusal>
    requires { n * token_words ≤ length tokens.now }
    ensures { (src : List ℕ) → Starts (begun_of (tokens_all src n tokens.now)) result }
{
    if n == 0 {
        return Err(Refusal::of(Why::NoTokens));
    }
    if !is_opening(tokens) {
        return Err(Refusal::at(Why::FirstToken, slice_at(tokens)));
    }
    Ok(())
}

// The body: blocks and text in their rooms, and zeros behind them.
fn read_body(
    source: &[u8],
    reading: Reading,
    tokens: &[u32],
    n: usize,
    fonts: usize,
    colours: usize,
    blocks: &mut [u32],
    text: &mut [u8],
) -> Result<Counts, Refusal>
    requires { (n * token_words ≤ length tokens.now) × (n ≤ 65536) }
    ensures { BodyInto (answer 0 (placed reading (length blocks.old) (length text.old) (tokens_all source.now n tokens.now))) (items (placed reading (length blocks.old) (length text.old) (tokens_all source.now n tokens.now))) n fonts colours result blocks.new text.new (length blocks.old) (length text.old) }
{
    let page = lay_body(source, reading, tokens, n, blocks, text)?;
    clear_from(blocks, page.blocks * BLOCK_WORDS, 0);
    clear_from(text, page.text, 0);
    Ok(Counts {
        tokens: n,
        fonts: fonts,
        colours: colours,
        blocks: page.blocks,
        text: page.text,
    })
}

// Header and body of the first n tokens.
fn letter(
    source: &[u8],
    reading: Reading,
    tokens: &[u32],
    n: usize,
    fonts: &mut [u32],
    colours: &mut [u32],
    blocks: &mut [u32],
    text: &mut [u8],
) -> Result<Counts, Refusal>
    requires { (n * token_words ≤ length tokens.now) × (n ≤ 65536) }
    ensures { LetterInto (headed reading (length blocks.old) (length text.old) (tokens_all source.now n tokens.now) (tables (table_limit font_words (length fonts.old)) (table_limit colour_words (length colours.old)) (walk_of (tokens_all source.now n tokens.now)))) n result fonts.new colours.new blocks.new text.new (length fonts.old) (length colours.old) (length blocks.old) (length text.old) }
{
    let held = read_header(source, tokens, n, fonts, colours)?;
    read_body(
        source,
        reading,
        tokens,
        n,
        held.fonts,
        held.colours,
        blocks,
        text,
    )
}

// First token, header and body of the first n tokens.
pub fn parse(
    source: &[u8],
    reading: Reading,
    tokens: &[u32],
    n: usize,
    fonts: &mut [u32],
    colours: &mut [u32],
    blocks: &mut [u32],
    text: &mut [u8],
) -> Result<Counts, Refusal>
    requires { (n * token_words ≤ length tokens.now) × (n ≤ 65536) }
    ensures { LetterInto (walked reading (sizes tokens.now fonts.old colours.old blocks.old text.old) (begun_of (tokens_all source.now n tokens.now))) n result fonts.new colours.new blocks.new text.new (length fonts.old) (length colours.old) (length blocks.old) (length text.old) }
{
    start(tokens, n)?;
    letter(source, reading, tokens, n, fonts, colours, blocks, text)
}

// The five counts of an answer; zeros on refusal.
pub fn counts_of(answer: Result<Counts, Refusal>) -> Counts
    ensures { result ≡ answer_counts answer }
{
    answer.unwrap_or(Counts {
        tokens: 0,
        fonts: 0,
        colours: 0,
        blocks: 0,
        text: 0,
    })
}
