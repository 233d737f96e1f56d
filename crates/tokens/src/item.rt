// Items: a token's record, read back (01, Cutting). The reader sees a letter's tokens through it.
//
//   Item       what a token shows; a text and an unknown word by place and length
//   kind_at    what the token is that a slice of words starts with
//   item_at    that token
//   number_at  its number, if it is a word
//   slice_at   the place of the slice that it was cut from
//   part       the bytes of the source that an item points at
ghost use Rattle.std.specs.Prelude.{◌≡◌, ◌≤◌, ◌<◌, length};
ghost use Rattle.tokens.specs.Tokens.{value_of, token_words};
ghost use Rattle.tokens.specs.Items.{property_of, number_at, word_item, kind_at, item_at, slice_at, part as part_of};

use crate::{Kind, SLICE, words};

#[derive(Clone, Copy)]
pub enum Item {
    Text(u32, u32),
    Opening,
    Closing,
    LineBreak,
    Ignorable,
    Word(u32, Option<u32>),
    Unknown(u32, u32, Option<u32>),
    Symbol(u32, Option<u32>),
}

fn property(has: u32, number: u32) -> Option<u32>
    ensures { (result ≡ property_of has number) × (value_of result < 4294967296) }
{
    if has == 1 {
        return Some(number);
    }
    None
}

fn word_item(w: u32, number: Option<u32>, place: u32, length: u32) -> Item
    ensures { result ≡ word_item w number place length }
{
    if w == words::UNKNOWN {
        return Item::Unknown(place, length, number);
    }
    Item::Word(w, number)
}

// The number of the first token of a slice of words.
pub fn number_at(t: &[u32]) -> Option<u32>
    requires { token_words ≤ length t.now }
    ensures { (result ≡ number_at t.now) × (value_of result < 4294967296) }
{
    let has = t[2];
    let number = t[3];
    property(has, number)
}

// The place of the slice that the first token of a slice of words was cut from.
pub fn slice_at(t: &[u32]) -> u32
    requires { token_words ≤ length t.now }
    ensures { result ≡ slice_at t.now }
{
    t[SLICE]
}

// What the first token of a slice of words is. A number without a kind is a text's.
pub fn kind_at(t: &[u32]) -> Kind
    requires { token_words ≤ length t.now }
    ensures { result ≡ kind_at t.now }
{
    match t[0] {
        1 => Kind::Opening,
        2 => Kind::Closing,
        3 => Kind::LineBreak,
        4 => Kind::Ignorable,
        5 => Kind::Word,
        6 => Kind::Symbol,
        _ => Kind::Text,
    }
}

// The first token of a slice of words.
pub fn item_at(t: &[u32]) -> Item
    requires { token_words ≤ length t.now }
    ensures { result ≡ item_at t.now }
{
    match kind_at(t) {
        Kind::Text => Item::Text(t[4], t[5]),
        Kind::Opening => Item::Opening,
        Kind::Closing => Item::Closing,
        Kind::LineBreak => Item::LineBreak,
        Kind::Ignorable => Item::Ignorable,
        Kind::Word => word_item(t[1], number_at(t), t[4], t[5]),
        Kind::Symbol => Item::Symbol(t[1], number_at(t)),
    }
}

// The bytes of a source from a place on, as far as there are any.
pub fn part(source: &[u8], place: u32, count: u32) -> &[u8]
    ensures { result.now ≡ part_of source.now place count }
{
    let from = place as usize;
    if source.len() < from {
        return &source[..0];
    }
    let t = &source[from..];
    let n = count as usize;
    if t.len() < n {
        return t;
    }
    &t[..n]
}
