// The extractor (01, Sample letters): the letter comes by standard input, its listing goes to standard output. It reads plain,
// or by the reading whose number is the first argument. A read or a write that fails ends it with an error.
#![tactic(auto)]

ghost use Rattle.lines.specs.Pages.{Front};
ghost use Rattle.extraction.specs.Extractor.{extracted};

use extraction::{LETTER_MOST, PAGE_BYTES, extract};
use input::fill;
use readings::Reading;
use std::env::Env;
use std::io;
use std::io::Input;

// The longest letter that is taken, and a byte more, so that a longer one is seen to be longer.
const LETTER_BYTES: usize = LETTER_MOST + 1;

// Writes what is printed of a letter: the first bytes of a page are that, whole. Reading and letter are named for the promise alone.
fn write(
    rt: &impl Print,
    reading: Reading,
    letter: &[u8],
    page: &[u8],
    bytes: usize,
) -> io::Result<()>
    requires { Front (extracted reading letter.now) page.now bytes }
{
    rt.write_all(&page[..bytes])
}

fn print(
    rt: &impl Print,
    reading: Reading,
    letter: &[u8],
    page: &mut [u8; PAGE_BYTES],
) -> io::Result<()> {
    let listed = extract(letter, reading, page);
    write(rt, reading, letter, page, listed.bytes)
}

// Reads the letter, and prints its listing.
fn run(
    rt: &(impl Input + Env + Print),
    letter: &mut [u8],
    page: &mut [u8; PAGE_BYTES],
) -> io::Result<()> {
    let n = fill(rt.reader(), letter)?;
    print(rt, asked::reading(rt), &letter[..n], page)
}

fn in_rooms(
    rt: &(impl Input + Env + Print),
    letter: &mut [u8; LETTER_BYTES],
    page: &mut [u8; PAGE_BYTES],
) -> io::Result<()> {
    run(rt, letter, page)
}

fn main(rt: HostRuntime) -> io::Result<()> {
    let mut letter = [0u8; LETTER_BYTES];
    let mut page = [0u8; PAGE_BYTES];
    in_rooms(&rt, &mut letter, &mut page)
}
