// The header (01, Header walk; `Parser::parse_header` in the crate): the tables among a letter's tokens become records in two
// lent rooms, and zeros behind them. A later table replaces an earlier one. The walk is linear, as `enter` is.
#![tactic(auto)]

pub mod group;

ghost use Rattle.std.specs.Prelude.{◌*◌, ◌≤◌, length};
ghost use Rattle.rooms.specs.Rooms.{table_limit};
ghost use Rattle.tokens.specs.Items.{tokens_all};
ghost use Rattle.walk.specs.Walk.{walk as walk_of};
ghost use Rattle.header.specs.Header.{tables, InFronts, ReadHeader};
ghost use Rattle.tokens.specs.Tokens.{token_words};
ghost use Rattle.fonts.specs.Rows.{font_words};
ghost use Rattle.colours.specs.Colours.{colour_words};

use crate::group::{enter, is_opening};
use answers::Refusal;
use fonts::FONT_WORDS;
use rooms::clear_from;
use tokens::TOKEN_WORDS;

// How many fonts and colours.
#[derive(Clone, Copy)]
pub struct HeaderCounts {
    pub fonts: usize,
    pub colours: usize,
}

// Reads the tables of the first `count` tokens: their records are then the fronts of the rooms.
fn walk_tables(
    source: &[u8],
    tokens: &[u32],
    count: usize,
    fonts: &mut [u32],
    colours: &mut [u32],
) -> Result<HeaderCounts, Refusal>
    requires { (count * token_words ≤ length tokens.now) × (count ≤ 65536) }
    ensures { InFronts (tables (table_limit font_words (length fonts.old)) (table_limit colour_words (length colours.old)) (walk_of (tokens_all source.now count tokens.now))) result fonts.new colours.new }
{
    let mut t = tokens;
    let mut n = count;
    let mut held_fonts: usize = 0;
    let mut held_colours: usize = 0;
    // A `while`: a table's tokens are passed over at once.
    while 0 < n {
        let opening = is_opening(t);
        t = &t[TOKEN_WORDS..];
        n -= 1;
        if opening {
            // No `?`: what it hands on goes through memory, bytes first and then words, and each bracket waits for it.
            match enter(source, t, n, held_fonts, held_colours, fonts, colours) {
                Ok(e) => {
                    let passed = e.passed * TOKEN_WORDS;
                    t = &t[passed..];
                    n -= e.passed;
                    held_fonts = e.fonts;
                    held_colours = e.colours;
                }
                Err(refusal) => {
                    return Err(refusal);
                }
            }
        }
    }
    Ok(HeaderCounts {
        fonts: held_fonts,
        colours: held_colours,
    })
}

// The same, and zeros behind the records.
pub fn read_header(
    source: &[u8],
    tokens: &[u32],
    count: usize,
    fonts: &mut [u32],
    colours: &mut [u32],
) -> Result<HeaderCounts, Refusal>
    requires { (count * token_words ≤ length tokens.now) × (count ≤ 65536) }
    ensures { ReadHeader (tables (table_limit font_words (length fonts.old)) (table_limit colour_words (length colours.old)) (walk_of (tokens_all source.now count tokens.now))) (length fonts.old) (length colours.old) result fonts.new colours.new }
{
    let held = walk_tables(source, tokens, count, fonts, colours)?;
    clear_from(fonts, held.fonts * FONT_WORDS, 0);
    clear_from(colours, held.colours, 0);
    Ok(held)
}
