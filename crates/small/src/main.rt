// Letters in small rooms, which hold other words before: a line for each with the letter, the reading, the rooms' sizes in words
// and for the text in bytes; the answer, of a refusal its place, and the counts; the text; and whether all behind the counts is zero,
// which after a refusal is all of every room.
#![tactic(auto)]

ghost use Rattle.std.specs.Prelude.{◌≡◌, ◌*◌, ◌/◌, ◌<◌, ◌≤◌, ◌↔◌, IsTrue, All, min, length, drop};
ghost use Rattle.tokens.specs.Tokens.{token_words};
ghost use Rattle.fonts.specs.Rows.{font_words};
ghost use Rattle.colours.specs.Colours.{colour_words};
ghost use Rattle.blocks.specs.Pages.{block_words};

use answers::{Refusal, number_of, place_of};
use blocks::BLOCK_WORDS;
use colours::COLOUR_WORDS;
use fonts::FONT_WORDS;
use parser::{Counts, counts_of};
use readings::Reading;
use std::io;
use tokens::TOKEN_WORDS;

// No word or byte that the reader should leave.
const JUNK: u32 = 0xa5a5_5a5a;

const JUNK_BYTE: u8 = 0xa5;

// The largest of these rooms.
const TOKENS: usize = 7 * TOKEN_WORDS;

const FONTS: usize = 2 * FONT_WORDS;

const COLOURS: usize = 2 * COLOUR_WORDS;

const BLOCKS: usize = 2 * BLOCK_WORDS;

const TEXT: usize = 3;

// The words of three and of five tokens.
const THREE: usize = 3 * TOKEN_WORDS;

const FIVE: usize = 5 * TOKEN_WORDS;

// Whether a room of records is zero behind so many, or behind those that it has whole.
fn rest_zero(room: &[u32], count: usize, width: usize) -> bool
    requires { 0 < width }
    ensures { IsTrue result ↔ All (λ word. word ≡ 0) (drop (min count (length room.now / width) * width) room.now) }
{
    let behind = count.min(room.len() / width) * width;
    room[behind..].iter().all(|word| *word == 0)
}

// Whether every byte from a place on is zero.
fn bytes_zero(room: &[u8], from: usize) -> bool
    ensures { IsTrue result ↔ All (λ byte. byte ≡ 0) (drop (min from (length room.now)) room.now) }
{
    room[from.min(room.len())..].iter().all(|byte| *byte == 0)
}

fn say_question(
    rt: &impl Print,
    letter: &[u8],
    reading: Reading,
    tokens: usize,
    fonts: usize,
    colours: usize,
    blocks: usize,
    room: usize,
) -> io::Result<()> {
    let by = match reading {
        Reading::Plain => "",
        Reading::Paragraphs => " by paragraphs",
        Reading::Standard => " by the specification",
    };
    rt.write_all(letter)?;
    print!(rt; "{by} in {tokens} {fonts} {colours} {blocks} {room}")
}

// Answer, of a refusal its place, counts and text.
fn say_told(rt: &impl Print, told: u32, place: u32, counts: Counts, room: &[u8]) -> io::Result<()> {
    print!(rt; ": {told}")?;
    if told != 0 {
        print!(rt; " {place}")?;
    }
    let Counts {
        tokens,
        fonts,
        colours,
        blocks,
        text,
    } = counts;
    print!(rt; " {tokens} {fonts} {colours} {blocks} {text}")?;
    if 0 < text {
        print!(rt; ", text")?;
        for byte in room.iter().take(text) {
            print!(rt; " {byte}")?;
        }
    }
    Ok(())
}

fn say_answer(
    rt: &impl Print,
    answer: Result<Counts, Refusal>,
    tokens: &[u32],
    fonts: &[u32],
    colours: &[u32],
    blocks: &[u32],
    room: &[u8],
) -> io::Result<()> {
    let counts = counts_of(answer);
    say_told(rt, number_of(&answer), place_of(&answer), counts, room)?;
    let zero = rest_zero(tokens, counts.tokens, TOKEN_WORDS)
        && rest_zero(fonts, counts.fonts, FONT_WORDS)
        && rest_zero(colours, counts.colours, COLOUR_WORDS)
        && rest_zero(blocks, counts.blocks, BLOCK_WORDS)
        && bytes_zero(room, counts.text);
    let rest = if zero { "zero" } else { "not zero" };
    println!(rt; ", the rest {rest}")
}

fn read_and_say(
    rt: &impl Print,
    letter: &[u8],
    reading: Reading,
    tokens: &mut [u32],
    fonts: &mut [u32],
    colours: &mut [u32],
    blocks: &mut [u32],
    room: &mut [u8],
) -> io::Result<()> {
    let answer = reader::read(letter, reading, tokens, fonts, colours, blocks, room);
    say_answer(rt, answer, tokens, fonts, colours, blocks, room)
}

// One letter in rooms of so many words and, for the text, bytes.
fn one(
    rt: &impl Print,
    letter: &[u8],
    reading: Reading,
    t: usize,
    f: usize,
    c: usize,
    b: usize,
    x: usize,
) -> io::Result<()>
    requires { (t ≤ 7 * token_words) × (f ≤ 2 * font_words) × (c ≤ 2 * colour_words) × (b ≤ 2 * block_words) × (x ≤ 3) }
{
    say_question(rt, letter, reading, t, f, c, b, x)?;
    let mut tokens = [JUNK; TOKENS];
    let mut fonts = [JUNK; FONTS];
    let mut colours = [JUNK; COLOURS];
    let mut blocks = [JUNK; BLOCKS];
    let mut room = [JUNK_BYTE; TEXT];
    read_and_say(
        rt,
        letter,
        reading,
        &mut tokens[..t],
        &mut fonts[..f],
        &mut colours[..c],
        &mut blocks[..b],
        &mut room[..x],
    )
}

// Tokens, blocks and text: just enough; no whole number of records; a token, a block, a byte too few. The block is asked for
// before the text.
fn one_block(rt: &impl Print) -> io::Result<()> {
    one(rt, b"{a}", Reading::Plain, THREE, 0, 0, BLOCK_WORDS, 1)?;
    one(
        rt,
        b"{a}",
        Reading::Plain,
        THREE + TOKEN_WORDS - 1,
        2,
        1,
        BLOCKS - 1,
        2,
    )?;
    one(rt, b"{a}", Reading::Plain, THREE - 1, 0, 0, BLOCK_WORDS, 1)?;
    one(rt, b"{a}", Reading::Plain, THREE, 0, 0, BLOCK_WORDS - 1, 0)?;
    one(rt, b"{a}", Reading::Plain, THREE, 0, 0, BLOCK_WORDS, 0)
}

// The same for a second block, when one is written already.
fn two_blocks(rt: &impl Print) -> io::Result<()> {
    one(rt, b"{a\\b b}", Reading::Plain, FIVE, 0, 0, BLOCKS, 2)?;
    one(rt, b"{a\\b b}", Reading::Plain, FIVE, 0, 0, BLOCKS - 1, 2)?;
    one(rt, b"{a\\b b}", Reading::Plain, FIVE, 0, 0, BLOCKS, 1)
}

// A second font, a second colour.
fn tables(rt: &impl Print) -> io::Result<()> {
    one(
        rt,
        b"{\\fonttbl{\\f1 A;}}",
        Reading::Plain,
        TOKENS,
        FONTS,
        0,
        0,
        0,
    )?;
    one(
        rt,
        b"{\\fonttbl{\\f1 A;}}",
        Reading::Plain,
        TOKENS,
        FONTS - 1,
        0,
        0,
        0,
    )?;
    one(
        rt,
        b"{\\colortbl\\blue1\\blue2}",
        Reading::Plain,
        FIVE,
        0,
        COLOURS,
        0,
        0,
    )?;
    one(
        rt,
        b"{\\colortbl\\blue1\\blue2}",
        Reading::Plain,
        FIVE,
        0,
        COLOURS - 1,
        0,
        0,
    )
}

// Both readings.
fn readings(rt: &impl Print) -> io::Result<()> {
    one(
        rt,
        b"{a\\par b}",
        Reading::Plain,
        FIVE,
        0,
        0,
        BLOCK_WORDS,
        2,
    )?;
    one(
        rt,
        b"{a\\par b}",
        Reading::Paragraphs,
        FIVE,
        0,
        0,
        BLOCK_WORDS,
        2,
    )?;
    one(
        rt,
        b"{a\\par b}",
        Reading::Paragraphs,
        FIVE,
        0,
        0,
        BLOCK_WORDS,
        3,
    )
}

fn main(rt: HostRuntime) -> io::Result<()> {
    one_block(&rt)?;
    two_blocks(&rt)?;
    tables(&rt)?;
    readings(&rt)
}
