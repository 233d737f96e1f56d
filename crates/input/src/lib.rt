// What a program is given, in a lent room: the first bytes of a reader, as many as the room holds.
#![tactic(auto)]

ghost use Rattle.std.specs.Prelude.{◌≡◌, ◌≤◌, length, take, IfOk, IfSome};

use std::io;
use std::io::Read;

// Reads until the room is full or there is no more to read, and answers how many bytes there are.
pub fn fill<R: Read + Drop>(mut from: R, room: &mut [u8]) -> io::Result<usize>
    ensures within { IfOk result (λ n. n ≤ length room.new) }
    ensures first { IfOk result (λ n. IfSome (R.remaining from) (λ xs. take n room.new ≡ take (length room.new) xs)) }
{
    let mut at = 0;
    // A `while`: a read tells how far it came.
    while at < room.len() {
        match from.read(&mut room[at..])? {
            0 => return Ok(at),
            n => at += n,
        }
    }
    Ok(at)
}
