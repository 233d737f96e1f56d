// Numbers as a letter writes them (01, Cutting): two hexadecimal digits behind `\'`, the signed decimal that ends a word.
// `u8::from_str_radix` and `str::parse::<i32>` in the crate. Every public function is total; bytes that write no number give none.
#![tactic(auto)]

ghost use Rattle.std.specs.Prelude.{◌≡◌, ◌≤◌};
ghost use Rattle.numbers.specs.Numbers.{hex_digit, hex_pair, digits, decimal};

// The value of a hexadecimal digit; 16 for any other byte.
fn hex_digit(b: u8) -> u32
    ensures { result ≡ hex_digit b }
{
    if (b'0' <= b) & (b <= b'9') {
        return (b - b'0') as u32;
    }
    if (b'A' <= b) & (b <= b'F') {
        return (b - b'A' + 10) as u32;
    }
    if (b'a' <= b) & (b <= b'f') {
        return (b - b'a' + 10) as u32;
    }
    16
}

// Two hexadecimal digits, or a plus sign and one, as the crate's `u8::from_str_radix` takes them.
pub fn hex_pair(a: u8, b: u8) -> Option<u32>
    ensures { result ≡ hex_pair a b }
{
    let low = hex_digit(b);
    if 15 < low {
        return None;
    }
    if a == b'+' {
        return Some(low);
    }
    let high = hex_digit(a);
    if 15 < high {
        return None;
    }
    Some(high * 16 + low)
}

// One digit or more, of a value of at most the limit.
fn digits_of(s: &[u8], limit: u32) -> Option<u32>
    requires { limit ≤ 2147483648 }
    ensures { result ≡ digits limit s.now }
{
    if s.len() == 0 {
        return None;
    }
    let mut v: u64 = 0;
    for b in s {
        let d = hex_digit(*b);
        if 9 < d {
            return None;
        }
        v = v * 10 + (d as u64);
        if (limit as u64) < v {
            return None;
        }
    }
    Some(v as u32)
}

// A 32-bit signed decimal, modulo 2^32: a minus sign or none, then digits.
pub fn decimal_of(s: &[u8]) -> Option<u32>
    ensures { result ≡ decimal s.now }
{
    if s.len() == 0 {
        return None;
    }
    let first = s[0];
    if first != b'-' {
        return digits_of(s, 2147483647);
    }
    let n = digits_of(&s[1..], 2147483648)?;
    Some(n.wrapping_neg())
}
