// Stored numbers (01, Stored form): seven bits to a byte, lowest first, the high bit on all but the last, shortest.
//
//   Numeral     the number that a list starts with, and how many bytes it has
//   number_at   reads it, or says what is wrong with it
//   put_byte    a byte at its place in a room
//   put_number  writes a number
#![tactic(auto)]

ghost use Rattle.std.specs.Prelude.{◌≡◌, [], ◌∷◌, ◌≤◌, ◌<◌};
ghost use Rattle.rooms.specs.Rooms.{Wrote, put as put_words};
ghost use Rattle.sevens.specs.Sevens.{written, number_of, byte_layout, streamed};

use answers::Why;

#[derive(Clone, Copy)]
pub struct Numeral {
    pub value: u32,
    pub length: usize,
}

// The number that a list starts with; 22 where the list ends before the number does, and 21 for a sixth group, for a number that
// is not shortest, and above 4,294,967,295. Most have one byte. A last group of zero behind others is not shortest.
pub fn number_at(s: &[u8]) -> Result<Numeral, Why>
    ensures { result ≡ number_of s.now }
{
    if s.len() == 0 {
        return Err(Why::StoredShort);
    }
    let first = s[0];
    if first < 128 {
        return Ok(Numeral {
            value: u32::from(first),
            length: 1,
        });
    }
    let mut value = u64::from(first & 127);
    let mut shift: u64 = 7;
    for i in 1..5 {
        if s.len() <= i {
            return Err(Why::StoredShort);
        }
        let b = s[i];
        let group = u64::from(b & 127);
        value = value | (group << shift);
        if b < 128 {
            if b == 0 {
                return Err(Why::StoredNumber);
            }
            if 4294967295 < value {
                return Err(Why::StoredNumber);
            }
            return Ok(Numeral {
                value: value as u32,
                length: i + 1,
            });
        }
        shift += 7;
    }
    Err(Why::StoredNumber)
}

// The room with a byte at place n, if it holds that place.
pub fn put_byte(room: &mut [u8], n: usize, b: u8)
    ensures { room.new ≡ put_words 1 room.old n (b ∷ []) }
{
    if n < room.len() {
        room[n] = b;
    }
}

// A number's bytes from place n of a room on. The next place.
pub fn put_number(v: u32, room: &mut [u8], n: usize) -> usize
    requires { n ≤ 9223372036854775807 }
    ensures { Wrote byte_layout n room.old (streamed (written v)) (Ok result) room.new }
{
    let mut rest = v;
    let mut at = n;
    // A `while`: what is left of the number tells how far it goes.
    while 128 <= rest {
        let b = ((rest & 127) | 128) as u8;
        put_byte(room, at, b);
        rest = rest >> 7;
        at += 1;
    }
    put_byte(room, at, rest as u8);
    at + 1
}
