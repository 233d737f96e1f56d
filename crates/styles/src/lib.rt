// The style of a block: the first words of its record (01, Body; 02, A5). Here alone they are named one by one. Signed numbers stand
// in two's complement. Every function but `at` is total.
//
//   Style        the words by name; `blank` has them all zero
//   words, at    a style as its words, and the style that words start with
//   same_style   whether two are the same
//   is_flush     whether no indent is set
#![tactic(auto)]

ghost use Rattle.std.specs.Prelude.{◌≡◌, ◌≤◌, length};
ghost use Rattle.styles.specs.Styles.{style_width, style_words, style_at, no_style, same_style, flush};

// How many words a style has, and how many stand before the indents.
pub const STYLE_WORDS: usize = 14;

pub const BARE_WORDS: usize = 11;

// Colour and font by key; the size in half points; flags as a sum of bits; the space between lines: kind 0 automatic, 1 the
// value `line`; the indents left, right and of the first line.
#[derive(Clone, Copy, Default, PartialEq, Eq)]
pub struct Style {
    pub colour: u32,
    pub font: u32,
    pub size: u32,
    pub flags: u32,
    pub alignment: u32,
    pub before: u32,
    pub after: u32,
    pub kind: u32,
    pub line: u32,
    pub multiplier: u32,
    pub tab: u32,
    pub left: u32,
    pub right: u32,
    pub first: u32,
}

impl Style {
    // Every word zero.
    pub fn blank() -> Style
        ensures { result ≡ no_style }
    {
        Style::default()
    }

    // Its words, in the record's order.
    pub fn words(self) -> [u32; STYLE_WORDS]
        ensures { result ≡ style_words self }
    {
        [
            self.colour,
            self.font,
            self.size,
            self.flags,
            self.alignment,
            self.before,
            self.after,
            self.kind,
            self.line,
            self.multiplier,
            self.tab,
            self.left,
            self.right,
            self.first,
        ]
    }

    // The style that words start with. No `From`: it takes longer slices too, and not shorter ones.
    pub fn at(words: &[u32]) -> Style
        requires { style_width ≤ length words.now }
        ensures { result ≡ style_at words.now }
    {
        Style {
            colour: words[0],
            font: words[1],
            size: words[2],
            flags: words[3],
            alignment: words[4],
            before: words[5],
            after: words[6],
            kind: words[7],
            line: words[8],
            multiplier: words[9],
            tab: words[10],
            left: words[11],
            right: words[12],
            first: words[13],
        }
    }
}

// Whether text of one style joins a block of the other.
pub fn same_style(a: Style, b: Style) -> bool
    ensures { result ≡ same_style a b }
{
    a == b
}

// Whether no indent is set.
pub fn is_flush(s: Style) -> bool
    ensures { result ≡ flush s }
{
    (s.left == 0) & ((s.right == 0) & (s.first == 0))
}
