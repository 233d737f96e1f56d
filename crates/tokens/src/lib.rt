// Tokens: what a slice of a letter shows, and its record of eight words in the token room (01, Cutting, and 02, A4; `tokens.rs` in
// the crate).
//
//   Kind       what a token is, with its number in 01
//   Record     six words: kind, word number, 1 if a number is present, that number, source place, length
//   put        writes a record at its place in a room
//   seal       writes the two words behind it: place and length of the slice that it was cut from
//
// What a slice shows is found by functions that see a part of the slice; the cutter's loop, which holds all of it, seals.
#![tactic(auto)]

pub mod item;
pub mod words;

ghost use Rattle.std.specs.Prelude.{◌≡◌, ◌-◌, ◌≤◌};
ghost use Rattle.rooms.specs.Rooms.{put as put_words};
ghost use Rattle.tokens.specs.Tokens.{token_words, record_words, kind_number, bare_record, text_record, word_record, unknown_record, symbol_record, sealed, sealed_all, has_of, value_of};

// How many words a token has, and where those of its slice stand.
pub const TOKEN_WORDS: usize = 8;

pub const SLICE: usize = 6;

pub const SLICE_LENGTH: usize = 7;

// What a token is, by the number that its record begins with.
#[derive(Clone, Copy)]
pub enum Kind {
    Text = 0,
    Opening = 1,
    Closing = 2,
    LineBreak = 3,
    Ignorable = 4,
    Word = 5,
    Symbol = 6,
}

impl Kind {
    pub fn number(self) -> u32
        ensures { result ≡ kind_number self }
    {
        self as u32
    }
}

// 1 if a number is present.
pub fn has(property: Option<u32>) -> u32
    ensures { result ≡ has_of property }
{
    match property {
        None => 0,
        Some(_) => 1,
    }
}

// That number; 0 if none is.
pub fn value(property: Option<u32>) -> u32
    ensures { result ≡ value_of property }
{
    property.unwrap_or(0)
}

#[derive(Clone, Copy)]
pub struct Record {
    pub kind: u32,
    pub word: u32,
    pub has: u32,
    pub number: u32,
    pub place: u32,
    pub length: u32,
}

impl Record {
    // A record of a kind that says nothing more.
    pub fn bare(kind: u32) -> Record
        ensures { result ≡ bare_record kind }
    {
        Record {
            kind: kind,
            word: 0,
            has: 0,
            number: 0,
            place: 0,
            length: 0,
        }
    }

    pub fn text(place: u32, length: u32) -> Record
        ensures { result ≡ text_record place length }
    {
        Record {
            kind: Kind::Text as u32,
            word: 0,
            has: 0,
            number: 0,
            place: place,
            length: length,
        }
    }

    // A word that has a name, by its number.
    pub fn word(word: u32, property: Option<u32>) -> Record
        ensures { result ≡ word_record word property }
    {
        Record {
            kind: Kind::Word as u32,
            word: word,
            has: has(property),
            number: value(property),
            place: 0,
            length: 0,
        }
    }

    // Any other word: where it stands, from its backslash, without its number.
    pub fn unknown(place: u32, length: u32, property: Option<u32>) -> Record
        ensures { result ≡ unknown_record place length property }
    {
        Record {
            kind: Kind::Word as u32,
            word: words::UNKNOWN,
            has: has(property),
            number: value(property),
            place: place,
            length: length,
        }
    }

    // A symbol, by the byte behind its backslash; `\'` with the byte that its digits say.
    pub fn symbol(byte: u32, property: Option<u32>) -> Record
        ensures { result ≡ symbol_record byte property }
    {
        Record {
            kind: Kind::Symbol as u32,
            word: byte,
            has: has(property),
            number: value(property),
            place: 0,
            length: 0,
        }
    }
}

// The room with a record at place n, if it holds that place.
pub fn put(room: &mut [u32], n: usize, t: Record)
    ensures { room.new ≡ put_words token_words room.old n (record_words t) }
{
    if n < room.len() / TOKEN_WORDS {
        let at = n * TOKEN_WORDS;
        room[at] = t.kind;
        room[at + 1] = t.word;
        room[at + 2] = t.has;
        room[at + 3] = t.number;
        room[at + 4] = t.place;
        room[at + 5] = t.length;
    }
}

// The room with place and length of a slice behind the record at n, if it holds that record.
fn seal_one(room: &mut [u32], n: usize, place: u32, length: u32)
    ensures { room.new ≡ sealed place length room.old n }
{
    if n < room.len() / TOKEN_WORDS {
        let at = n * TOKEN_WORDS;
        room[at + SLICE] = place;
        room[at + SLICE_LENGTH] = length;
    }
}

// The same behind the records from n up to m.
#[tactic(auto, using(crate::proofs::Sealing::sealed_more, crate::proofs::Sealing::sealed_none))]
pub fn seal(room: &mut [u32], n: usize, m: usize, place: u32, length: u32)
    requires { n ≤ m }
    ensures { room.new ≡ sealed_all place length room.old n (m - n) }
{
    for i in n..m {
        seal_one(room, i, place, length);
    }
}
