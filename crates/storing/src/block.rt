// A block of a stored list as bytes, put into a lent room (01, Stored form).
//
//   put_numbers   numbers one after the other
//   put_bytes     bytes
//   put_block     a block: its numbers, and its text
//
// Each writes from a place on as far as the room goes, and returns the next place even past its end.
ghost use Rattle.std.specs.Prelude.{◌≤◌, ◌<◌, length};
ghost use Rattle.rooms.specs.Rooms.{Wrote};
ghost use Rattle.sevens.specs.Sevens.{byte_layout, streamed};
ghost use Rattle.fields.specs.Fields.{block_numbers};
ghost use Rattle.blocks.specs.Pages.{piece};
ghost use Rattle.storing.specs.Bytes.{numbers_bytes, block_bytes};

use fields::{BLOCK_NUMBERS, numbers_of};
use sevens::{put_byte, put_number};
use styles::{BARE_WORDS, Style};

// Numbers one after the other from place n of a room on. The next place.
fn put_numbers(words: &[u32], room: &mut [u8], n: usize) -> usize
    requires { (length words.now ≤ block_numbers) × (n ≤ 4611686018427387904) }
    ensures { Wrote byte_layout n room.old (streamed (numbers_bytes words.now)) (Ok result)
        room.new }
{
    let mut at = n;
    for v in words {
        at = put_number(*v, room, at);
    }
    at
}

// Bytes from place n of a room on. The next place.
fn put_bytes(bytes: &[u8], room: &mut [u8], n: usize) -> usize
    requires { n ≤ 4611686018427387904 }
    ensures { Wrote byte_layout n room.old (streamed bytes.now) (Ok result)
        room.new }
{
    let mut at = n;
    for b in bytes {
        put_byte(room, at, *b);
        at += 1;
    }
    at
}

// A block from place n of a room on: its numbers, then its text. The next place.
pub fn put_block(s: Style, text: &[u8], room: &mut [u8], n: usize) -> usize
    requires { (length text.now < 4294967296) × (n ≤ 1152921504606846976) }
    ensures { Wrote byte_layout n room.old (streamed (block_bytes (piece s text.now)))
        (Ok result) room.new }
{
    let mut numbers = numbers_of(s);
    numbers[BARE_WORDS] = text.len() as u32;
    let at = put_numbers(&numbers[..BLOCK_NUMBERS], room, n);
    put_bytes(text, room, at)
}
