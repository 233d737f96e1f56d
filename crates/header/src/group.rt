// A group behind an opening bracket, as the header walk meets it (01, Header walk; `Parser::parse_header` in the crate): passed
// over, or a table that becomes records in a lent room.
//
//   Entered   how many fonts and colours there are then, and how many tokens are passed over
//   enter     looks at a group, and reads it if it is a table
//
// Each token is looked at by `aim_of` for the bracket before it, by `extent`, and once where a table is read.
ghost use Rattle.std.specs.Prelude.{◌≡◌, List, ℕ, ◌*◌, ◌≤◌, length};
ghost use Rattle.rooms.specs.Rooms.{table_limit};
ghost use Rattle.tokens.specs.Items.{item_at, tokens_all};
ghost use Rattle.fonts.specs.Fonts.{fonts as fonts_of};
ghost use Rattle.colours.specs.Colours.{colours as colours_of, colour_words};
ghost use Rattle.walk.specs.Walk.{group, extent as extent_of, table_word};
ghost use Rattle.header.specs.Entering.{opens, passed, FontsMet, ColoursMet, Enters};
ghost use Rattle.tokens.specs.Tokens.{token_words, shown_by};
ghost use Rattle.fonts.specs.Rows.{font_words};

use answers::{Refusal, Why};
use colours::read_colours;
use fonts::read_fonts;
use tokens::item::kind_at;
use tokens::{Kind, TOKEN_WORDS};
use walk::{Aim, aim_of, extent, table_word};

#[derive(Clone, Copy)]
pub struct Entered {
    pub fonts: usize,
    pub colours: usize,
    pub passed: usize,
}

// Whether the first token of a slice of words is an opening bracket.
pub fn is_opening(t: &[u32]) -> bool
    requires { token_words ≤ length t.now }
    ensures { result ≡ opens (item_at t.now) }
{
    match kind_at(t) {
        Kind::Opening => true,
        _ => false,
    }
}

// Reads the font table that stands behind a bracket, n tokens before the end, where there are `colours` colours.
fn font_table(
    source: &[u8],
    t: &[u32],
    n: usize,
    late: bool,
    colours: usize,
    room: &mut [u32],
) -> Result<Entered, Refusal>
    requires { (n * token_words ≤ length t.now) × (n ≤ 65536) }
    ensures { FontsMet late (table_word (tokens_all source.now n t.now)) (fonts_of (table_limit font_words (length room.old)) (group (tokens_all source.now n t.now))) colours (extent_of 1 (shown_by (tokens_all source.now n t.now))) result room.new × (passed result ≤ n) }
{
    if late {
        let place = table_word(t, n);
        return Err(Refusal::at(Why::TableLineBreak, place));
    }
    let h = extent(t, n);
    let words = h * TOKEN_WORDS;
    let fonts = read_fonts(source, &t[..words], h, room)?;
    Ok(Entered {
        fonts: fonts,
        colours: colours,
        passed: h,
    })
}

// Reads the colour table that stands behind a bracket, n tokens before the end, where there are `fonts` fonts.
fn colour_table(
    t: &[u32],
    n: usize,
    late: bool,
    fonts: usize,
    room: &mut [u32],
) -> Result<Entered, Refusal>
    requires { (n * token_words ≤ length t.now) × (n ≤ 65536) }
    ensures { ((src : List ℕ) → ColoursMet late (table_word (tokens_all src n t.now)) (colours_of (table_limit colour_words (length room.old)) (group (tokens_all src n t.now))) fonts (extent_of 1 (shown_by (tokens_all src n t.now))) result room.new) × (passed result ≤ n) }
{
    if late {
        let place = table_word(t, n);
        return Err(Refusal::at(Why::TableLineBreak, place));
    }
    let h = extent(t, n);
    let words = h * TOKEN_WORDS;
    let colours = read_colours(&t[..words], h, room)?;
    Ok(Entered {
        fonts: fonts,
        colours: colours,
        passed: h,
    })
}

// What stands behind an opening bracket, n tokens before the end, where the rooms hold f fonts and c colours.
pub fn enter(
    source: &[u8],
    t: &[u32],
    n: usize,
    f: usize,
    c: usize,
    fonts: &mut [u32],
    colours: &mut [u32],
) -> Result<Entered, Refusal>
    requires { (n * token_words ≤ length t.now) × (n ≤ 65536) }
    ensures { Enters (table_limit font_words (length fonts.old)) (table_limit colour_words (length colours.old)) (tokens_all source.now n t.now) f c fonts.old colours.old result fonts.new colours.new × (passed result ≤ n) }
{
    let a = aim_of(t, n);
    match a {
        Aim::Nothing => Ok(Entered {
            fonts: f,
            colours: c,
            passed: 0,
        }),
        Aim::Hide => Ok(Entered {
            fonts: f,
            colours: c,
            passed: extent(t, n),
        }),
        Aim::Fonts(late) => font_table(source, t, n, late, c, fonts),
        Aim::Colours(late) => colour_table(t, n, late, f, colours),
    }
}
