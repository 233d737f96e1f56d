// Whether bytes are UTF-8 (RFC 3629, section 4).
//
//   is_utf8       whether a slice is UTF-8 as a whole
//   char_length   how many bytes a character has: its first byte, and as many as that one owes
//   ascii         how far ASCII goes on
//
// Every public function is total.
#![tactic(auto)]

mod ascii;

ghost use Rattle.std.specs.Prelude.{◌≡◌, true, ◌≤◌, ◌<◌, length, drop, MatchOption};
ghost use Rattle.wellformed.specs.WellFormed.{◌to◌, within, tail, is_first, behind, is_utf8};
ghost use Rattle.wellformed.specs.Owed.{owed, ranges, pays, char_length};

use crate::ascii::{ascii_blocks, ascii_eights};

// How many bytes a character still owes, and the range of the next; those behind it lie in 0x80 to 0xBF.
#[derive(Clone, Copy)]
struct Owed {
    count: usize,
    low: u8,
    high: u8,
}

impl Owed {
    // Whether a byte lies in the range of the next.
    fn takes(self, b: u8) -> bool
        ensures { result ≡ within (self.low to self.high) b }
    {
        (self.low <= b) & (b <= self.high)
    }
}

// Whether a byte starts a character.
fn is_first(b: u8) -> bool
    ensures { result ≡ is_first b }
{
    (b <= 0x7F) | ((0xC2 <= b) & (b <= 0xF4))
}

// What is owed, by its parts.
fn owe(count: usize, low: u8, high: u8) -> Owed
    ensures { ranges result ≡ owed count low high }
{
    Owed { count, low, high }
}

// What a character owes behind its first byte: the ranges of first bytes in their order, each told by its end.
fn owed_behind(b: u8) -> Owed
    requires { is_first b ≡ true }
    ensures { ranges result ≡ behind b }
{
    match b {
        0..=0x7F => owe(0, 0x80, 0xBF),
        0x80..=0xDF => owe(1, 0x80, 0xBF),
        0xE0 => owe(2, 0xA0, 0xBF),
        0xE1..=0xEC => owe(2, 0x80, 0xBF),
        0xED => owe(2, 0x80, 0x9F),
        0xEE..=0xEF => owe(2, 0x80, 0xBF),
        0xF0 => owe(3, 0x90, 0xBF),
        0xF1..=0xF3 => owe(3, 0x80, 0xBF),
        _ => owe(3, 0x80, 0x8F),
    }
}

// UTF8-tail.
fn is_tail(b: u8) -> bool
    ensures { result ≡ within tail b }
{
    (0x80 <= b) & (b <= 0xBF)
}

// Whether a slice starts with what is owed, looked at as a whole: no character owes more than three bytes.
fn is_paid(o: Owed, s: &[u8]) -> bool
    requires { o.count ≤ 3 }
    ensures { result ≡ pays (ranges o) s.now }
{
    match (o.count, s) {
        (0, _) => true,
        (1, [a, ..]) => o.takes(*a),
        (2, [a, b, ..]) => o.takes(*a) & is_tail(*b),
        (3, [a, b, c, ..]) => o.takes(*a) & (is_tail(*b) & is_tail(*c)),
        _ => false,
    }
}

// How many bytes the character has that stands at a place of a slice, if one does.
fn char_length(s: &[u8], at: usize) -> Option<usize>
    requires { at < length s.now }
    ensures { MatchOption result (char_length (drop at s.now) ≡ 0) (λ k. (k ≡ char_length (drop at s.now)) × (0 < k)) }
{
    let b = s[at];
    if !is_first(b) {
        return None;
    }
    let o = owed_behind(b);
    if is_paid(o, &s[at + 1..]) {
        return Some(o.count + 1);
    }
    None
}

// Whether a slice is UTF-8 as a whole: ASCII is passed over many bytes at once, any other character as a whole.
pub fn is_utf8(s: &[u8]) -> bool
    ensures { result ≡ is_utf8 s.now }
{
    let mut i: usize = 0;
    // A `while`: what stands at a place tells how far it goes on.
    while i < s.len() {
        let blocks = ascii_blocks(s, i);
        i = ascii_eights(s, blocks);
        if i < s.len() {
            let Some(k) = char_length(s, i) else {
                return false;
            };
            i += k;
        }
    }
    true
}
