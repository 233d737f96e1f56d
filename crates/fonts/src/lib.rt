// The font table (01, Header walk, "Fonts"; `Parser::parse_font_table` in the crate): a group's tokens become records of three
// words in a lent room, ascending by key.
//
//   Effect      what a token does: a new current font; the current one stored first; stored, and then no number
//   key_of      a number as a key
//   step        a token's effect
//   read_fonts  the whole table
#![tactic(auto)]

mod rows;

ghost use Rattle.std.specs.Prelude.{◌≡◌, ◌*◌, ◌%◌, ◌≤◌, length};
ghost use Rattle.classes.specs.declared.Class.TheVariants.{Semicolon};
ghost use Rattle.classes.specs.Bytes.{in_class, body};
ghost use Rattle.tokens.specs.Items.{part as part_of, tokens_all};
ghost use Rattle.rooms.specs.Rooms.{table_limit};
ghost use Rattle.fonts.specs.Rows.{ReadFonts, font_words};
ghost use Rattle.fonts.specs.Fonts.{fonts as fonts_of};
ghost use Rattle.fonts.specs.Effects.{named_row, numbered as numbered_of, word_effect, effect_of, unnumbered as unnumbered_of};
ghost use Rattle.tokens.specs.Tokens.{token_words};

use crate::rows::{Font, store};
use answers::{Refusal, Why};
use classes::{Class, body_of};
use rooms::table_limit;
use tokens::item::{Item, item_at, part, slice_at};
use tokens::{TOKEN_WORDS, words};

// How many words a font's record has.
pub const FONT_WORDS: usize = 3;

#[derive(Clone, Copy)]
pub enum Effect {
    Set(Font),
    Store(Font),
    Unnumbered,
}

// A signed number modulo 65,536, as the crate's cast to u16: the magnitude of a negative number is subtracted from 0.
fn key_of(v: u32) -> u32
    ensures { result ≡ v % 65536 }
{
    if v < 2147483648 {
        return v % 65536;
    }
    let magnitude = 4294967295 - v + 1;
    std::num::wrapping_sub_u32(0, magnitude) % 65536
}

// The length of a text without the semicolons that it ends with.
fn name_length(source: &[u8], place: u32, count: u32) -> u32
    ensures { result ≡ body (in_class Semicolon) (part_of source.now place count) }
{
    let bytes = part(source, place, count);
    let n = body_of(bytes, Class::Semicolon);
    n as u32
}

// The font with a text for its name; the place of an empty name is 0.
#[tactic(auto, unfolding(crate::specs::Effects::named_row))]
fn named(source: &[u8], place: u32, count: u32, f: Font) -> Font
    ensures { result ≡ named_row f place (part_of source.now place count) }
{
    let n = name_length(source, place, count);
    Font {
        place: if n == 0 { 0 } else { place },
        length: n,
        ..f
    }
}

// `\f` stores, and then needs a number.
fn numbered(number: Option<u32>, f: Font) -> Effect
    ensures { result ≡ numbered_of number f }
{
    match number {
        None => Effect::Unnumbered,
        Some(v) => Effect::Store(Font {
            key: key_of(v),
            ..f
        }),
    }
}

// `f` is word 9; other words say nothing.
fn word_effect(w: u32, number: Option<u32>, f: Font) -> Effect
    ensures { result ≡ word_effect w number f }
{
    if w == words::FONT_NUMBER {
        return numbered(number, f);
    }
    Effect::Set(f)
}

// What a token does, where f is the current font. Nothing is reset between fonts.
fn step(source: &[u8], i: Item, f: Font) -> Effect
    ensures { result ≡ effect_of source.now i f }
{
    match i {
        Item::Word(w, number) => word_effect(w, number, f),
        Item::Text(place, count) => Effect::Set(named(source, place, count, f)),
        Item::Closing => Effect::Store(f),
        _ => Effect::Set(f),
    }
}

// Why `\f` without a number is refused, after the store: the store's refusal comes first.
fn unnumbered(o: Result<usize, Why>) -> Why
    ensures { result ≡ unnumbered_of o }
{
    match o {
        Ok(_) => Why::FontNumber,
        Err(why) => why,
    }
}

// Reads the table of a group's tokens, which starts anew.
pub fn read_fonts(
    source: &[u8],
    tokens: &[u32],
    count: usize,
    room: &mut [u32],
) -> Result<usize, Refusal>
    requires { (count * token_words ≤ length tokens.now) × (count ≤ 65536) }
    ensures { ReadFonts (fonts_of (table_limit font_words (length room.old)) (tokens_all source.now count tokens.now)) room.old result room.new }
{
    let limit = table_limit(room.len(), FONT_WORDS);
    let mut font = Font {
        key: 0,
        place: 0,
        length: 0,
    };
    let mut held: usize = 0;
    for here in tokens.chunks_exact(TOKEN_WORDS).take(count) {
        match step(source, item_at(here), font) {
            Effect::Set(g) => {
                font = g;
            }
            Effect::Store(g) => {
                let place = slice_at(here);
                held = store(room, held, font, limit).map_err(|why| Refusal::at(why, place))?;
                font = g;
            }
            Effect::Unnumbered => {
                let last = store(room, held, font, limit);
                return Err(Refusal::at(unnumbered(last), slice_at(here)));
            }
        }
    }
    Ok(held)
}
