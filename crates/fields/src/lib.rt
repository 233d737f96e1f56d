// The rules of a stored block's fields (01, Stored form), for reading and for writing. Every function is total.
//
//   fold, unfold  a signed number as one that is not, and back
//   numbers_of    a style's words as numbers, those of signed words folded
//   style_from    the style that the first numbers say
//   in_range      whether a style's words are in their ranges
//   follows       whether a block of a style may stand behind the one before
#![tactic(auto)]

ghost use Rattle.std.specs.Prelude.{◌≡◌, ◌≤◌, length};
ghost use Rattle.blocks.specs.Pages.{starts};
ghost use Rattle.styles.specs.Styles.{style_width, style_words, style_at};
ghost use Rattle.fields.specs.Fields.{folded, unfolded, is_signed, number_at, word_at, by_place, in_range, last_of};

use styles::{BARE_WORDS, STYLE_WORDS, Style, same_style};

// How many numbers a stored block has: the words of its style but the indents, and the length of its text.
pub const BLOCK_NUMBERS: usize = BARE_WORDS + 1;

// 2n, or -2n-1 for n below zero.
pub fn fold(w: u32) -> u32
    ensures { result ≡ folded w }
{
    if w < 2147483648 {
        return 2 * w;
    }
    2 * (4294967295 - w) + 1
}

pub fn unfold(n: u32) -> u32
    ensures { result ≡ unfolded n }
{
    let half = n / 2;
    if n % 2 == 0 {
        return half;
    }
    4294967295 - half
}

// Whether a style's word at a place is signed.
fn is_signed(i: usize) -> bool
    ensures { result ≡ is_signed i }
{
    (i == 5) | ((i == 6) | (9 <= i))
}

fn number_at(i: usize, w: u32) -> u32
    ensures { result ≡ number_at i w }
{
    if is_signed(i) {
        return fold(w);
    }
    w
}

fn word_at(i: usize, n: u32) -> u32
    ensures { result ≡ word_at i n }
{
    if is_signed(i) {
        return unfold(n);
    }
    n
}

// The numbers of a style's words, one after the other.
pub fn numbers_of(s: Style) -> [u32; STYLE_WORDS]
    ensures { result ≡ by_place number_at 0 (style_words s) }
{
    let mut numbers = s.words();
    for (i, w) in numbers.iter_mut().enumerate() {
        *w = number_at(i, *w);
    }
    numbers
}

// The style that numbers say; the words behind them are 0.
pub fn style_from(numbers: &[u32]) -> Style
    requires { length numbers.now ≤ style_width }
    ensures { result ≡ style_at (by_place word_at 0 numbers.now) }
{
    let mut words = [0u32; STYLE_WORDS];
    for (i, n) in numbers.iter().enumerate() {
        words[i] = word_at(i, *n);
    }
    Style::at(&words)
}

pub fn in_range(s: Style) -> bool
    ensures { result ≡ in_range s }
{
    (s.colour <= 65535)
        & ((s.font <= 65535)
            & ((s.size <= 65535)
                & ((s.flags <= 127)
                    & ((s.alignment <= 3)
                        & ((s.kind <= 1)
                            & ((s.line <= 2147483647) & ((s.kind == 1) | (s.line == 0))))))))
}

// `before` is the style of the block before, if there is one.
pub fn follows(before: Option<Style>, s: Style) -> bool
    ensures { result ≡ starts (last_of before) s }
{
    !before.is_some_and(|b| same_style(b, s))
}
