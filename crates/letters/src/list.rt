// The file of letters, as its bytes: for each letter its length in four bytes, little endian, the letter, the length of its
// listing likewise, and the listing.
ghost use Rattle.std.specs.Prelude.{◌+◌, ◌<◌, ◌≤◌, length, IfSome};
ghost use Rattle.letters.specs.Listed.{FrontWhole};

// A length's bytes.
pub const LENGTH_BYTES: usize = 4;

// The letter at the front of a list stands from LENGTH_BYTES to `letter`, its listing from `listing` to `end`.
#[derive(Clone, Copy)]
pub struct Letter {
    pub letter: usize,
    pub listing: usize,
    pub end: usize,
}

// The length that starts at a byte, if it is all there.
fn length_at(bytes: &[u8], at: usize) -> Option<usize>
    requires { at ≤ length bytes.now }
    ensures within { IfSome result (λ n. at + 4 ≤ length bytes.now) }
    ensures small { IfSome result (λ n. n < 4294967296) }
{
    let length = bytes[at..].first_chunk()?;
    Some(u32::from_le_bytes(*length) as usize)
}

// The letter at the front of a list, if it and its listing are all there.
pub fn next(list: &[u8]) -> Option<Letter>
    ensures { FrontWhole (length list.now) result }
{
    let letter = LENGTH_BYTES + length_at(list, 0)?;
    if list.len() < letter {
        return None;
    }
    let listing = letter + LENGTH_BYTES;
    let end = listing + length_at(list, letter)?;
    if list.len() < end {
        return None;
    }
    Some(Letter {
        letter,
        listing,
        end,
    })
}
