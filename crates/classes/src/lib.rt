// Bytes: the classes that 01's rules speak of, and runs of a class at either end of a slice.
//
//   Class    a class of bytes by name, so that one loop serves every class
//   lead_of  how many bytes of a class a slice starts with
//   body_of  a slice's length without the bytes of a class that it ends with
//   has_high whether a byte is above 127
//   eights   the first marked byte of eight that are looked at as one number
//
// Every function is total. Tests join by `|` and `&`, which ask no proof by cases.
#![tactic(auto)]

pub mod eights;

ghost use Rattle.std.specs.Prelude.{◌≡◌, ◌≤◌, length};
ghost use Rattle.classes.specs.Bytes.{is_white, ends_word, is_numeral, is_special, is_letter, is_alpha, is_high, in_class, any, lead, body};

#[derive(Clone, Copy)]
pub enum Class {
    // 9 to 13 and 32
    White,
    // 9, 10, 12, 13 and 32: white space but 11, as the crate ends a word
    WordEnd,
    // any byte that ends no word
    InWord,
    // 32 alone
    Space,
    // a digit or a minus sign
    Numeral,
    // 59 alone
    Semicolon,
    // a to z and A to Z
    Alpha,
    // 0 to 9
    Digit,
}

// White space, as the crate's `str::trim` takes it.
fn is_white(b: u8) -> bool
    ensures { result ≡ is_white b }
{
    ((9 <= b) & (b <= 13)) | (b == 32)
}

// White space but 11, as the crate's `char::is_ascii_whitespace` takes it.
pub fn ends_word(b: u8) -> bool
    ensures { result ≡ ends_word b }
{
    (((9 <= b) & (b <= 13)) | (b == 32)) & (b != 11)
}

fn is_numeral(b: u8) -> bool
    ensures { result ≡ is_numeral b }
{
    ((b'0' <= b) & (b <= b'9')) | (b == b'-')
}

pub fn is_special(b: u8) -> bool
    ensures { result ≡ is_special b }
{
    (b == b'\\') | ((b == b'{') | ((b == b'}') | (b == b'\n')))
}

pub fn is_letter(b: u8) -> bool
    ensures { result ≡ is_letter b }
{
    (b'a' <= b) & (b <= b'z')
}

pub fn is_alpha(b: u8) -> bool
    ensures { result ≡ is_alpha b }
{
    is_letter(b) | ((b'A' <= b) & (b <= b'Z'))
}

fn is_in(b: u8, class: Class) -> bool
    ensures { result ≡ in_class class b }
{
    match class {
        Class::White => is_white(b),
        Class::WordEnd => ends_word(b),
        Class::InWord => !ends_word(b),
        Class::Space => b == 32,
        Class::Numeral => is_numeral(b),
        Class::Semicolon => b == b';',
        Class::Alpha => is_alpha(b),
        Class::Digit => (b'0' <= b) & (b <= b'9'),
    }
}

// How many bytes of the class s starts with.
pub fn lead_of(s: &[u8], class: Class) -> usize
    ensures count { result ≡ lead (in_class class) s.now }
    ensures within { result ≤ length s.now }
{
    s.iter().take_while(|b| is_in(**b, class)).count()
}

// The length of s without the bytes of the class that it ends with.
pub fn body_of(s: &[u8], class: Class) -> usize
    ensures count { result ≡ body (in_class class) s.now }
    ensures within { result ≤ length s.now }
{
    let trimmed = s.iter().rev().take_while(|b| is_in(**b, class)).count();
    s.len() - trimmed
}

// Whether a byte of s is above 127. Every byte is looked at, with no way out before the end: so the compiler takes many
// at once.
pub fn has_high(s: &[u8]) -> bool
    ensures { result ≡ any is_high s.now }
{
    s.iter().fold(false, |found, b| found | (127 < *b))
}
