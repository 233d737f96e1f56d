// The fields of a state, and what a word sets (01, Body; `Painter`, `Paragraph`, `ParserState` and the arms of `Parser::parse` in
// the crate).
//
//   COLOUR ..                   the fields by name: their places in a row of WIDTH words
//   Painter, Paragraph, State   as in the crate; `fresh` is a fresh one, `row` a state's words
//   Act, act_of                 what a word does: settings of fields, a character, or a refusal
//   rows                        settings done in an array of states, and the style of one
//
// A flag is a field, 1 where it is on. Signed numbers stand in two's complement. Every function here is total.
#![tactic(auto)]

pub mod rows;

ghost use Rattle.std.specs.Prelude.{◌≡◌, ◌<◌};
ghost use Rattle.settings.specs.Fields.{width, fresh_painter, fresh_paragraph, fresh_state, row_of};
ghost use Rattle.settings.specs.Effects.{flag_by, flag_of, fitted, spacing, ending as ending_of, indenting, effect, meaning, Within};

use answers::Why;
use readings::Reading;
use tokens::words;

pub const COLOUR: usize = 0;

pub const FONT: usize = 1;

pub const SIZE: usize = 2;

pub const BOLD: usize = 3;

pub const ITALIC: usize = 4;

pub const UNDERLINE: usize = 5;

pub const SUPERSCRIPT: usize = 6;

pub const SUBSCRIPT: usize = 7;

pub const SMALLCAPS: usize = 8;

pub const STRIKE: usize = 9;

pub const ALIGNMENT: usize = 10;

pub const BEFORE: usize = 11;

pub const AFTER: usize = 12;

pub const KIND: usize = 13;

pub const LINE: usize = 14;

pub const MULTIPLIER: usize = 15;

pub const TAB: usize = 16;

pub const LEFT: usize = 17;

pub const RIGHT: usize = 18;

pub const FIRST: usize = 19;

pub const SKIP: usize = 20;

pub const WIDTH: usize = 21;

// Colour and font by key; the size in half points.
#[derive(Clone, Copy)]
pub struct Painter {
    pub colour: u32,
    pub font: u32,
    pub size: u32,
    pub bold: u32,
    pub italic: u32,
    pub underline: u32,
    pub superscript: u32,
    pub subscript: u32,
    pub smallcaps: u32,
    pub strike: u32,
}

// The space between lines: kind 0 automatic, 1 the value `line`. The indents, `Indentation` in the crate, which never fills it.
#[derive(Clone, Copy)]
pub struct Paragraph {
    pub alignment: u32,
    pub before: u32,
    pub after: u32,
    pub kind: u32,
    pub line: u32,
    pub multiplier: u32,
    pub tab: u32,
    pub left: u32,
    pub right: u32,
    pub first: u32,
}

// What a bracket saves: style, paragraph, and how many units are skipped behind a `u` word.
#[derive(Clone, Copy)]
pub struct State {
    pub painter: Painter,
    pub paragraph: Paragraph,
    pub skip: u32,
}

#[derive(Clone, Copy)]
pub enum Act {
    Nothing,
    // a field and its value
    Sets(usize, u32),
    // kind and value of the space between lines
    Lines(u32, u32),
    // the painter, the paragraph to a fresh one
    Plain,
    Pard,
    Says(u32),
    Refuses(Why),
}

impl Painter {
    pub const SIZE: u32 = 12;

    pub fn fresh() -> Painter
        ensures { result ≡ fresh_painter }
    {
        Painter {
            colour: 0,
            font: 0,
            size: Painter::SIZE,
            bold: 0,
            italic: 0,
            underline: 0,
            superscript: 0,
            subscript: 0,
            smallcaps: 0,
            strike: 0,
        }
    }
}

impl Paragraph {
    pub const LEFT: u32 = 0;

    pub const RIGHT: u32 = 1;

    pub const CENTRE: u32 = 2;

    pub const JUSTIFIED: u32 = 3;

    pub fn fresh() -> Paragraph
        ensures { result ≡ fresh_paragraph }
    {
        Paragraph {
            alignment: Paragraph::LEFT,
            before: 0,
            after: 0,
            kind: 0,
            line: 0,
            multiplier: 0,
            tab: 0,
            left: 0,
            right: 0,
            first: 0,
        }
    }
}

impl State {
    pub const SKIP: u32 = 1;

    pub fn fresh() -> State
        ensures { result ≡ fresh_state }
    {
        let painter = Painter::fresh();
        let paragraph = Paragraph::fresh();
        State {
            painter: painter,
            paragraph: paragraph,
            skip: State::SKIP,
        }
    }

    // Its words, each at its field's place.
    pub fn row(self) -> [u32; WIDTH]
        ensures { result ≡ row_of self }
    {
        let p = self.painter;
        let q = self.paragraph;
        [
            p.colour,
            p.font,
            p.size,
            p.bold,
            p.italic,
            p.underline,
            p.superscript,
            p.subscript,
            p.smallcaps,
            p.strike,
            q.alignment,
            q.before,
            q.after,
            q.kind,
            q.line,
            q.multiplier,
            q.tab,
            q.left,
            q.right,
            q.first,
            self.skip,
        ]
    }
}

// A flag's number: on only for 1; by the specification, for any but 0.
// A test of the reading, which is the host's number, is plainer here than a closure.
fn flag_by(reading: Reading, v: u32) -> u32
    ensures { result ≡ flag_by reading v }
{
    match reading {
        Reading::Plain => u32::from(v == 1),
        Reading::Paragraphs => u32::from(v == 1),
        Reading::Standard => u32::from(v != 0),
    }
}

// No number is on.
fn flag(reading: Reading, number: Option<u32>) -> u32
    ensures { result ≡ flag_of reading number }
{
    match number {
        None => 1,
        Some(v) => flag_by(reading, v),
    }
}

// A field of at most 65,535, as the crate's cast to u16 asks.
fn fit(f: usize, v: u32) -> Act
    requires { f < width }
    ensures { (meaning result ≡ fitted f v) × Within result }
{
    if v <= 65535 {
        return Act::Sets(f, v);
    }
    Act::Refuses(Why::NumberField)
}

// The space between lines. The crate's absolute value of -2147483648 wraps in one build and stops another: 15.
fn space(v: u32) -> Act
    ensures { (meaning result ≡ spacing v) × Within result }
{
    if v == 1000 {
        return Act::Lines(0, 0);
    }
    if v == 2147483648 {
        return Act::Refuses(Why::LineSpacing);
    }
    if v < 2147483648 {
        return Act::Lines(1, v);
    }
    let magnitude = 4294967295 - v + 1;
    Act::Lines(1, magnitude)
}

fn ending(reading: Reading) -> Act
    ensures { (meaning result ≡ ending_of reading) × Within result }
{
    match reading {
        Reading::Plain => Act::Nothing,
        Reading::Paragraphs => Act::Says(10),
        Reading::Standard => Act::Says(10),
    }
}

// An indent: plain reading has none.
fn indent(reading: Reading, f: usize, v: u32) -> Act
    requires { f < width }
    ensures { (meaning result ≡ indenting reading f v) × Within result }
{
    match reading {
        Reading::Plain => Act::Nothing,
        Reading::Paragraphs => Act::Sets(f, v),
        Reading::Standard => Act::Sets(f, v),
    }
}

// A word of the body but `u`.
pub fn act_of(reading: Reading, w: u32, number: Option<u32>) -> Act
    ensures { (meaning result ≡ effect reading w number) × Within result }
{
    let v = number.unwrap_or(0);
    match w {
        words::COLOUR_NUMBER => fit(COLOUR, v),
        words::FONT_NUMBER => fit(FONT, v),
        words::FONT_SIZE => fit(SIZE, v),
        words::BOLD => Act::Sets(BOLD, flag(reading, number)),
        words::ITALIC => Act::Sets(ITALIC, flag(reading, number)),
        words::UNDERLINE => Act::Sets(UNDERLINE, flag(reading, number)),
        words::SUPERSCRIPT => Act::Sets(SUPERSCRIPT, flag(reading, number)),
        words::SUBSCRIPT => Act::Sets(SUBSCRIPT, flag(reading, number)),
        words::SMALLCAPS => Act::Sets(SMALLCAPS, flag(reading, number)),
        words::STRIKETHROUGH => Act::Sets(STRIKE, flag(reading, number)),
        words::UNDERLINE_NONE => Act::Sets(UNDERLINE, 0),
        words::PLAIN => Act::Plain,
        words::PARD => Act::Pard,
        words::SPACE_BETWEEN_LINE => space(v),
        words::SPACE_BEFORE => Act::Sets(BEFORE, v),
        words::SPACE_AFTER => Act::Sets(AFTER, v),
        words::SPACE_LINE_MUL => Act::Sets(MULTIPLIER, v),
        words::PAR_DEF_TAB => Act::Sets(TAB, v),
        words::UNICODE_IGNORE_COUNT => Act::Sets(SKIP, v),
        words::LEFT_ALIGNED => Act::Sets(ALIGNMENT, Paragraph::LEFT),
        words::RIGHT_ALIGNED => Act::Sets(ALIGNMENT, Paragraph::RIGHT),
        words::CENTER => Act::Sets(ALIGNMENT, Paragraph::CENTRE),
        words::JUSTIFY => Act::Sets(ALIGNMENT, Paragraph::JUSTIFIED),
        words::EMDASH => Act::Says(0x2014),
        words::ENDASH => Act::Says(0x2013),
        words::BULLET => Act::Says(0x2022),
        words::LEFT_SINGLE_QUOTE => Act::Says(0x2018),
        words::RIGHT_SINGLE_QUOTE => Act::Says(0x2019),
        words::LEFT_DOUBLE_QUOTE => Act::Says(0x201C),
        words::RIGHT_DOUBLE_QUOTE => Act::Says(0x201D),
        words::TAB => Act::Says(0x9),
        words::LINE => Act::Says(0xA),
        words::PAR => ending(reading),
        words::LEFT_INDENT => indent(reading, LEFT, v),
        words::RIGHT_INDENT => indent(reading, RIGHT, v),
        words::FIRST_LINE_INDENT => indent(reading, FIRST, v),
        _ => Act::Nothing,
    }
}
