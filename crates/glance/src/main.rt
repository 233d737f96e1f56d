// A letter's text for people: the letter comes by standard input, its text by the specification goes to standard output. A
// refusal is one line on standard error, its number and its place, and no text. Its rooms hold what any letter of up to 65,536 bytes
// needs, but for a block every second byte. A read or a write that fails ends it with an error.
#![tactic(auto)]

use answers::Refusal;
use blocks::BLOCK_WORDS;
use colours::COLOUR_WORDS;
use fonts::FONT_WORDS;
use input::fill;
use parser::Counts;
use reader::read;
use readings::Reading;
use std::io;
use std::io::Input;
use tokens::TOKEN_WORDS;

// The longest letter, and a byte more, so that a longer one is seen to be longer.
const LETTER_BYTES: usize = 65537;

// 65,536 tokens, 256 fonts, 256 colours, 32,768 blocks, and three bytes of text for each of the letter's.
const TOKEN_ROOM: usize = 65536 * TOKEN_WORDS;

const FONT_ROOM: usize = 256 * FONT_WORDS;

const COLOUR_ROOM: usize = 256 * COLOUR_WORDS;

const BLOCK_ROOM: usize = 32768 * BLOCK_WORDS;

const TEXT_BYTES: usize = 196608;

fn refuse(err: &impl Print, refusal: Refusal) -> io::Result<()> {
    println!(err; "{} {}", refusal.number(), refusal.place)
}

fn say(
    rt: &impl Print,
    err: &impl Print,
    answer: Result<Counts, Refusal>,
    text: &[u8],
) -> io::Result<()> {
    match answer {
        Err(refusal) => refuse(err, refusal),
        Ok(counts) => {
            let count = counts.text;
            if count <= text.len() {
                rt.write_all(&text[..count])?;
            }
            Ok(())
        }
    }
}

// Reads the letter, and says its text.
fn run(
    rt: &(impl Input + Print),
    err: &impl Print,
    letter: &mut [u8],
    tokens: &mut [u32],
    fonts: &mut [u32],
    colours: &mut [u32],
    blocks: &mut [u32],
    text: &mut [u8],
) -> io::Result<()> {
    let n = fill(rt.reader(), letter)?;
    let answer = read(
        &letter[..n],
        Reading::Standard,
        tokens,
        fonts,
        colours,
        blocks,
        text,
    );
    say(rt, err, answer, text)
}

fn in_rooms(
    rt: &(impl Input + Print),
    err: &impl Print,
    letter: &mut [u8; LETTER_BYTES],
    tokens: &mut [u32; TOKEN_ROOM],
    fonts: &mut [u32; FONT_ROOM],
    colours: &mut [u32; COLOUR_ROOM],
    blocks: &mut [u32; BLOCK_ROOM],
    text: &mut [u8; TEXT_BYTES],
) -> io::Result<()> {
    run(rt, err, letter, tokens, fonts, colours, blocks, text)
}

fn main(rt: HostRuntime) -> io::Result<()> {
    let mut letter = [0u8; LETTER_BYTES];
    let mut tokens = [0u32; TOKEN_ROOM];
    let mut fonts = [0u32; FONT_ROOM];
    let mut colours = [0u32; COLOUR_ROOM];
    let mut blocks = [0u32; BLOCK_ROOM];
    let mut text = [0u8; TEXT_BYTES];
    in_rooms(
        &rt,
        &rt.stderr(),
        &mut letter,
        &mut tokens,
        &mut fonts,
        &mut colours,
        &mut blocks,
        &mut text,
    )
}
