// How far ASCII goes on: text is passed over 64 bytes at once, then eight, and byte by byte where fewer are left.
//
//   ascii_blocks   behind whole blocks of 64 bytes
//   ascii_eights   behind eight bytes at once; where one of them is above 127, up to it
//
// Both say only that what they pass over is UTF-8 by itself.
ghost use Rattle.std.specs.Prelude.{◌≡◌, ◌≤◌, length};
ghost use Rattle.wellformed.specs.Ascii.{highs, Passed};

use classes::eights::first_mark;
use classes::has_high;

// How many bytes a block has that is looked at as a whole.
const BLOCK: usize = 64;

// The high bit of each of eight bytes, in its place. The compiler makes one load of them.
fn highs_of(eight: &[u8; 8]) -> u64
    ensures { result ≡ highs eight.now }
{
    u64::from_le_bytes(*eight) & 0x8080808080808080
}

// The place, at or after `from`, behind the whole blocks of ASCII that stand there.
pub fn ascii_blocks(s: &[u8], from: usize) -> usize
    requires { from ≤ length s.now }
    ensures { Passed s.now from result }
{
    let mut at = from;
    // A `while`: the caller goes on where it stops.
    while let Some(block) = s[at..].first_chunk::<BLOCK>() {
        if has_high(block) {
            return at;
        }
        at += BLOCK;
    }
    at
}

// The first byte above 127 at or after `from`, byte by byte; the length if there is none.
fn ascii_bytes(s: &[u8], from: usize) -> usize
    requires { from ≤ length s.now }
    ensures { Passed s.now from result }
{
    let passed = s[from..].iter().take_while(|b| b.is_ascii()).count();
    from + passed
}

// The same, eight bytes at once.
pub fn ascii_eights(s: &[u8], from: usize) -> usize
    requires { from ≤ length s.now }
    ensures { Passed s.now from result }
{
    let mut at = from;
    // A `while`: it stops inside of the eight.
    while let Some(eight) = s[at..].first_chunk() {
        let bits = highs_of(eight);
        if bits != 0 {
            return at + first_mark(bits);
        }
        at += 8;
    }
    ascii_bytes(s, at)
}
