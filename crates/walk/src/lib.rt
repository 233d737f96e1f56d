// The header walk's look at a group (01, Header walk; `Parser::parse_header` in the crate): what its first token that is no
// line break makes of it, and how far it goes.
//
//   Aim      nothing, a group to pass over, a table to read; the flag says that line breaks stand before the table's word
//   aim_of   looks behind an opening bracket
//   extent   how many tokens there are to the bracket that matches, or to the end
//   table_word   the place of a late table's word, for its refusal
//
// Header and body both walk by these two, and so agree on what is passed over. Each token is looked at once by `aim_of` for
// the bracket before it and once by `extent`: the walk is linear, as the crate's is not.
#![tactic(auto)]

ghost use Rattle.std.specs.Prelude.{◌≡◌, List, ℕ, ◌*◌, ◌≤◌, ◌<◌, length};
ghost use Rattle.tokens.specs.Items.{shown_of, shown_all, tokens_all};
ghost use Rattle.walk.specs.Walk.{word_aim, aim_at, is_break, aim as aim_of, level as level_of, extent as extent_of, table_word};
ghost use Rattle.tokens.specs.Tokens.{token_words};

use tokens::item::{Item, item_at, slice_at};
use tokens::{TOKEN_WORDS, words};

#[derive(Clone, Copy)]
pub enum Aim {
    Nothing,
    Hide,
    Fonts(bool),
    Colours(bool),
}

fn word_aim(w: u32, number: Option<u32>, late: bool) -> Aim
    ensures { result ≡ word_aim w number late }
{
    match number {
        Some(_) => Aim::Nothing,
        None => match w {
            words::STYLE_SHEET => Aim::Hide,
            words::FONT_TABLE => Aim::Fonts(late),
            words::COLOUR_TABLE => Aim::Colours(late),
            _ => Aim::Nothing,
        },
    }
}

fn aim_at(i: Item, late: bool) -> Aim
    ensures { (src : List ℕ) → result ≡ aim_at late (shown_of src i) Aim.Nothing }
{
    match i {
        Item::Ignorable => Aim::Hide,
        Item::Word(w, number) => word_aim(w, number, late),
        _ => Aim::Nothing,
    }
}

fn is_break(i: Item) -> bool
    ensures { (src : List ℕ) → result ≡ is_break (shown_of src i) }
{
    matches!(i, Item::LineBreak)
}

// What the tokens behind an opening bracket make of its group.
pub fn aim_of(s: &[u32], count: usize) -> Aim
    requires { count * token_words ≤ length s.now }
    ensures { (src : List ℕ) → result ≡ aim_of (shown_all src count s.now) }
{
    let mut t = s;
    let mut n = count;
    let mut late = false;
    // A loop that yields its token by `break`, bounded by the tokens that are left: 01 names the form. Most often it looks at one token, which
    // chunks would take longer to set up for than to look at.
    let first = loop {
        if n == 0 {
            break Item::LineBreak;
        }
        let i = item_at(t);
        if !is_break(i) {
            break i;
        }
        t = &t[TOKEN_WORDS..];
        n -= 1;
        late = true;
    };
    aim_at(first, late)
}

// Where the slice of the first token that is no line break stands.
pub fn table_word(s: &[u32], count: usize) -> u32
    requires { count * token_words ≤ length s.now }
    ensures { (src : List ℕ) → result ≡ table_word (tokens_all src count s.now) }
{
    for here in s.chunks_exact(TOKEN_WORDS).take(count) {
        let i = item_at(here);
        if !is_break(i) {
            return slice_at(here);
        }
    }
    0
}

// How many groups are open behind a token.
fn level(i: Item, d: usize) -> usize
    requires { (0 < d) × (d < 18446744073709551615) }
    ensures { (src : List ℕ) → result ≡ level_of (shown_of src i) d }
{
    match i {
        Item::Opening => d + 1,
        Item::Closing => d - 1,
        _ => d,
    }
}

// How many tokens a group has behind its opening bracket: to the bracket that matches, or to the end.
pub fn extent(s: &[u32], count: usize) -> usize
    requires { count * token_words ≤ length s.now }
    ensures { ((src : List ℕ) → result ≡ extent_of 1 (shown_all src count s.now)) × (result ≤ count) }
{
    let mut d: usize = 1;
    for (k, here) in s.chunks_exact(TOKEN_WORDS).take(count).enumerate() {
        d = level(item_at(here), d);
        if d == 0 {
            return k + 1;
        }
    }
    count
}
