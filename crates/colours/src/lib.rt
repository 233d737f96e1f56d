// The colour table (01, Header walk, "Colours"; `Parser::parse_color_table` in the crate): a group's tokens become colours, one
// word each, in a lent room. The first has key 1.
//
//   Colour        the current colour, whose values carry over
//   Effect        what a token does: a new current colour, one that is stored too, or a number that does not fit
//   step          a token's effect
//   colour_word   a colour as its word
//   read_colours  the whole table
#![tactic(auto)]

ghost use Rattle.std.specs.Prelude.{◌≡◌, List, ℕ, ◌*◌, ◌≤◌, length};
ghost use Rattle.tokens.specs.Items.{tokens_all};
ghost use Rattle.rooms.specs.Rooms.{table_limit};
ghost use Rattle.colours.specs.Colours.{colours as colours_of, colour_word, ReadColours, colour_words};
ghost use Rattle.colours.specs.Effects.{fitted as fitted_of, word_effect, effect_of, Small};
ghost use Rattle.tokens.specs.Tokens.{token_words};

use answers::{Refusal, Why};
use rooms::table_limit;
use tokens::item::{Item, item_at, slice_at};
use tokens::{TOKEN_WORDS, words};

// How many words a colour's record has.
pub const COLOUR_WORDS: usize = 1;

#[derive(Clone, Copy)]
pub struct Colour {
    pub red: u32,
    pub green: u32,
    pub blue: u32,
}

#[derive(Clone, Copy)]
pub enum Effect {
    Set(Colour),
    Store(Colour),
    Unfit,
}

// A value is 0 to 255.
fn fitted(v: u32, e: Effect) -> Effect
    ensures { result ≡ fitted_of v e }
{
    if v < 256 {
        return e;
    }
    Effect::Unfit
}

// `red`, `green` and `blue` are words 37 to 39; the last stores.
#[tactic(auto, unfolding(crate::specs::Effects::word_effect))]
fn word_effect(w: u32, v: u32, c: Colour) -> Effect
    ensures { result ≡ word_effect w v c }
{
    match w {
        words::COLOUR_RED => fitted(v, Effect::Set(Colour { red: v, ..c })),
        words::COLOUR_GREEN => fitted(v, Effect::Set(Colour { green: v, ..c })),
        words::COLOUR_BLUE => fitted(v, Effect::Store(Colour { blue: v, ..c })),
        _ => Effect::Set(c),
    }
}

// What a token does, where c is the current colour. No number means 0.
fn step(i: Item, c: Colour) -> Effect
    ensures { result ≡ effect_of i c }
{
    match i {
        Item::Word(w, number) => {
            let v = number.unwrap_or(0);
            word_effect(w, v, c)
        }
        _ => Effect::Set(c),
    }
}

// A colour's record: red·65,536 + green·256 + blue.
fn colour_word(c: Colour) -> u32
    requires { Small c }
    ensures { result ≡ colour_word c }
{
    let low = c.green * 256 + c.blue;
    c.red * 65536 + low
}

// Reads the table of a group's tokens, which starts anew.
pub fn read_colours(tokens: &[u32], count: usize, room: &mut [u32]) -> Result<usize, Refusal>
    requires { (count * token_words ≤ length tokens.now) × (count ≤ 65536) }
    ensures { (src : List ℕ) → ReadColours (colours_of (table_limit colour_words (length room.old)) (tokens_all src count tokens.now)) room.old result room.new }
{
    let limit = table_limit(room.len(), COLOUR_WORDS);
    let mut colour = Colour {
        red: 0,
        green: 0,
        blue: 0,
    };
    let mut stored: usize = 0;
    for here in tokens.chunks_exact(TOKEN_WORDS).take(count) {
        match step(item_at(here), colour) {
            Effect::Set(c) => {
                colour = c;
            }
            Effect::Store(next) => {
                if limit <= stored {
                    return Err(Refusal::of(Why::ColourRoom));
                }
                room[stored] = colour_word(next);
                stored += 1;
                colour = next;
            }
            Effect::Unfit => {
                return Err(Refusal::at(Why::NumberField, slice_at(here)));
            }
        }
    }
    Ok(stored)
}
