// Reads letters as the extractor does, and says whether their listings are the expected ones.
//
//   list    how the file of letters is laid out, and where its next letter stands
//   judge   one listing of ours against the expected one
//   say     the lines that are written
//
// The letters are in data/listings.bin; data/README.md says what it holds and how it was made.
#![tactic(auto)]

mod judge;
mod list;
mod same;
mod say;

use extraction::PAGE_BYTES;
use input::fill;
use judge::read_and_judge;
use list::next;
use say::{End, Tally};
use std::fs::Files;
use std::{fs, io};

// The longest file that is read, and a byte more.
const FILE_ROOM: usize = 524288;

// Answers 0 to 25.
const ANSWERS: usize = 26;

// Every letter of the file, up to its end or to where it is cut short.
fn replay(
    rt: &impl Print,
    file: &[u8],
    page: &mut [u8; PAGE_BYTES],
    answers: &mut [u32],
) -> io::Result<Tally> {
    let mut rest = file;
    let mut tally = Tally {
        letters: 0,
        agree: 0,
        end: End::Whole,
    };
    // A `while`: a letter tells where the next one stands.
    while !rest.is_empty() {
        let Some(letter) = next(rest) else {
            tally.end = End::CutShort;
            break;
        };
        let agrees = read_and_judge(rt, rest, letter, page, answers, tally.letters, tally.agree)?;
        tally.agree += usize::from(agrees);
        tally.letters += 1;
        rest = &rest[letter.end..];
    }
    Ok(tally)
}

// Reads the file, and judges every letter of it.
fn run(
    rt: &(impl Files + Print),
    bytes: &mut [u8],
    page: &mut [u8; PAGE_BYTES],
    answers: &mut [u32],
) -> io::Result<()> {
    let Ok(file) = fs::open(rt, "listings.bin") else {
        return println!(rt; "listings.bin cannot be opened");
    };
    let n = fill(file, bytes)?;
    if n == 0 {
        return println!(rt; "listings.bin is empty or cannot be read");
    }
    if n == bytes.len() {
        return println!(rt; "listings.bin is longer than this program reads");
    }
    let tally = replay(rt, &bytes[..n], page, answers)?;
    say::answers(rt, answers)?;
    say::last_line(rt, tally)
}

fn in_rooms(
    rt: &(impl Files + Print),
    bytes: &mut [u8; FILE_ROOM],
    page: &mut [u8; PAGE_BYTES],
    answers: &mut [u32; ANSWERS],
) -> io::Result<()> {
    run(rt, bytes, page, answers)
}

fn main(rt: HostRuntime) -> io::Result<()> {
    let mut bytes = [0u8; FILE_ROOM];
    let mut page = [0u8; PAGE_BYTES];
    let mut answers = [0u32; ANSWERS];
    in_rooms(&rt, &mut bytes, &mut page, &mut answers)
}
