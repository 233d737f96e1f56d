// Lists a letter's tokens: the letter comes by standard input, the list goes to standard output. It is cut plain, or by the reading whose
// number is the first argument.
//
// The first line has the answer's number, of a refusal its place, and the count of tokens. Then each token has a line: its words in decimal, with the
// number as a signed one. A read or a write that fails ends the program with an error.
//
// The list goes out part by part, each whole on its page: the first line, then the lines of so many tokens at a time.
#![tactic(auto)]

ghost use Rattle.std.specs.Prelude.{◌≡◌, ◌++◌, ◌≤◌, length};
ghost use Rattle.answers.specs.Answers.{outcome_count};
ghost use Rattle.lines.specs.Lines.{lines};
ghost use Rattle.lines.specs.Pages.{Put, PutWhole};
ghost use Rattle.tokens.specs.Tokens.{token_words};
ghost use Rattle.listing.specs.Tokens.{first_line, token_lines, token_part};

use answers::{Refusal, count_of, number_of, place_of};
use input::fill;
use lines::{number, place_item, records};
use readings::Reading;
use std::env::Env;
use std::io;
use std::io::Input;
use tokens::TOKEN_WORDS;

// The longest letter, and a byte more, so that a longer one is seen to be longer.
const LETTER_BYTES: usize = 65537;

// No letter has more tokens than the longest has bytes.
const ROOM_WORDS: usize = 65536 * TOKEN_WORDS;

// The tokens of a part.
const PART_TOKENS: usize = 1024;

const PART_WORDS: usize = PART_TOKENS * TOKEN_WORDS;

// A word with its sign and the byte behind it has at most 12 bytes.
const PAGE_BYTES: usize = 12 * PART_WORDS;

fn first_line(outcome: Result<usize, Refusal>, page: &mut [u8]) -> usize
    ensures { Put page.old 0 (first_line outcome) page.new result }
{
    let answer = number_of(&outcome);
    let told = number(answer as u64, b' ', page, 0);
    let placed = place_item(answer, place_of(&outcome), page, told);
    number(count_of(outcome) as u64, b'\n', page, placed)
}

fn whole_first_line(outcome: Result<usize, Refusal>, page: &mut [u8; PAGE_BYTES]) -> usize
    ensures { PutWhole page.old (first_line outcome) page.new result }
{
    first_line(outcome, page)
}

// The first part of the lines of `count` tokens.
fn part(room: &[u32], count: usize, page: &mut [u8; PAGE_BYTES]) -> usize
    ensures { PutWhole page.old (token_part count room.now) page.new result }
{
    let words = PART_WORDS.min(room.len());
    records(&room[..words], count, TOKEN_WORDS, page, 0)
}

fn write(rt: &impl Print, page: &[u8], bytes: usize) -> io::Result<()>
    requires { bytes ≤ length page.now }
{
    rt.write_all(&page[..bytes])
}

fn write_first_line(
    rt: &impl Print,
    outcome: Result<usize, Refusal>,
    page: &mut [u8; PAGE_BYTES],
) -> io::Result<()> {
    let bytes = whole_first_line(outcome, page);
    write(rt, page, bytes)
}

fn write_part(
    rt: &impl Print,
    room: &[u32],
    count: usize,
    page: &mut [u8; PAGE_BYTES],
) -> io::Result<()> {
    let bytes = part(room, count, page);
    write(rt, page, bytes)
}

// Writes the lines of the first `count` tokens of a room, part by part.
fn write_tokens(
    rt: &impl Print,
    room: &[u32],
    count: usize,
    page: &mut [u8; PAGE_BYTES],
) -> io::Result<()> {
    let mut left = count;
    for part in room.chunks(PART_WORDS) {
        write_part(rt, part, left, page)?;
        left = left.saturating_sub(PART_TOKENS);
    }
    Ok(())
}

// Writes a letter's list: that is the answer's line and the lines of the room's tokens. Reading and letter are named for the
// promise alone.
fn write_list(
    rt: &impl Print,
    reading: Reading,
    letter: &[u8],
    outcome: Result<usize, Refusal>,
    room: &[u32],
    page: &mut [u8; PAGE_BYTES],
) -> io::Result<()>
    requires { token_lines reading letter.now (length room.now) ≡ first_line outcome ++ lines token_words (outcome_count outcome) room.now }
{
    write_first_line(rt, outcome, page)?;
    write_tokens(rt, room, count_of(outcome), page)
}

fn print(
    rt: &impl Print,
    reading: Reading,
    letter: &[u8],
    room: &mut [u32],
    page: &mut [u8; PAGE_BYTES],
) -> io::Result<()> {
    let outcome = cutter::cut(letter, reading, room);
    write_list(rt, reading, letter, outcome, room, page)
}

// Reads the letter, and prints its list.
fn run(
    rt: &(impl Input + Env + Print),
    letter: &mut [u8],
    room: &mut [u32],
    page: &mut [u8; PAGE_BYTES],
) -> io::Result<()> {
    let n = fill(rt.reader(), letter)?;
    print(rt, asked::reading(rt), &letter[..n], room, page)
}

fn in_rooms(
    rt: &(impl Input + Env + Print),
    letter: &mut [u8; LETTER_BYTES],
    room: &mut [u32; ROOM_WORDS],
    page: &mut [u8; PAGE_BYTES],
) -> io::Result<()> {
    run(rt, letter, room, page)
}

fn main(rt: HostRuntime) -> io::Result<()> {
    let mut letter = [0u8; LETTER_BYTES];
    let mut room = [0u32; ROOM_WORDS];
    let mut page = [0u8; PAGE_BYTES];
    in_rooms(&rt, &mut letter, &mut room, &mut page)
}
