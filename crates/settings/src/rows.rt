// Settings done in an array of 64 states, each a row of words, and the style of one of them.
//
//   set_field        one setting
//   set_line         kind and value of the space between lines
//   reset_painter    the painter's fields, fresh
//   reset_paragraph  the paragraph's fields, fresh
//   style_of         what a block says of a state
ghost use Rattle.std.specs.Prelude.{◌≡◌, [], ◌∷◌, ◌<◌, ◌≤◌, length, get_or};
ghost use Rattle.settings.specs.Fields.{width, painter_width, paragraph_width, ◌≔◌, resets, bit as bit_of, flags_of, style_of};
ghost use Rattle.settings.specs.Fields as field;
ghost use Rattle.settings.specs.Rows.{settle_at};

use crate::{
    AFTER, ALIGNMENT, BEFORE, BOLD, COLOUR, FIRST, FONT, ITALIC, KIND, LEFT, LINE, MULTIPLIER,
    Painter, Paragraph, RIGHT, SIZE, SMALLCAPS, STRIKE, SUBSCRIPT, SUPERSCRIPT, TAB, UNDERLINE,
    WIDTH,
};
use styles::Style;

pub const STATES: usize = 64;

// A field of the state at place d gets its value.
pub fn set_field(states: &mut [[u32; WIDTH]; STATES], d: usize, f: usize, v: u32)
    requires { (d < 64) × (f < width) × (length states.old ≡ 64) }
    ensures { states.new ≡ settle_at (f ≔ v ∷ []) states.old d }
{
    states[d][f] = v;
}

// Kind and value of the space between lines.
pub fn set_line(states: &mut [[u32; WIDTH]; STATES], d: usize, kind: u32, v: u32)
    requires { (d < 64) × (length states.old ≡ 64) }
    ensures { states.new ≡ settle_at (field.kind ≔ kind ∷ field.line ≔ v ∷ []) states.old d }
{
    let mut row = states[d];
    row[KIND] = kind;
    row[LINE] = v;
    states[d] = row;
}

// The painter's fields, fresh.
pub fn reset_painter(states: &mut [[u32; WIDTH]; STATES], d: usize)
    requires { (d < 64) × (length states.old ≡ 64) }
    ensures { states.new ≡ settle_at (resets field.colour painter_width) states.old d }
{
    let mut row = states[d];
    row[COLOUR] = 0;
    row[FONT] = 0;
    row[SIZE] = Painter::SIZE;
    row[BOLD] = 0;
    row[ITALIC] = 0;
    row[UNDERLINE] = 0;
    row[SUPERSCRIPT] = 0;
    row[SUBSCRIPT] = 0;
    row[SMALLCAPS] = 0;
    row[STRIKE] = 0;
    states[d] = row;
}

// The paragraph's fields, fresh.
pub fn reset_paragraph(states: &mut [[u32; WIDTH]; STATES], d: usize)
    requires { (d < 64) × (length states.old ≡ 64) }
    ensures { states.new ≡ settle_at (resets field.alignment paragraph_width) states.old d }
{
    let mut row = states[d];
    row[ALIGNMENT] = Paragraph::LEFT;
    row[BEFORE] = 0;
    row[AFTER] = 0;
    row[KIND] = 0;
    row[LINE] = 0;
    row[MULTIPLIER] = 0;
    row[TAB] = 0;
    row[LEFT] = 0;
    row[RIGHT] = 0;
    row[FIRST] = 0;
    states[d] = row;
}

fn bit(v: u32, n: u32) -> u32
    ensures { (result ≡ bit_of v n) × (result ≤ n) }
{
    if v == 1 { n } else { 0 }
}

// 1 bold, 2 italic, 4 underline, 8 super, 16 sub, 32 scaps, 64 strike.
fn flags(states: &[[u32; WIDTH]; STATES], d: usize) -> u32
    requires { (d < 64) × (length states.now ≡ 64) }
    ensures { result ≡ flags_of (get_or states.now d []) }
{
    let bold = bit(states[d][BOLD], 1);
    let italic = bit(states[d][ITALIC], 2);
    let underline = bit(states[d][UNDERLINE], 4);
    let superscript = bit(states[d][SUPERSCRIPT], 8);
    let subscript = bit(states[d][SUBSCRIPT], 16);
    let smallcaps = bit(states[d][SMALLCAPS], 32);
    let strike = bit(states[d][STRIKE], 64);
    bold + italic + underline + superscript + subscript + smallcaps + strike
}

// What a block says of the state at place d.
pub fn style_of(states: &[[u32; WIDTH]; STATES], d: usize) -> Style
    requires { (d < 64) × (length states.now ≡ 64) }
    ensures { result ≡ style_of (get_or states.now d []) }
{
    let flags = flags(states, d);
    Style {
        colour: states[d][COLOUR],
        font: states[d][FONT],
        size: states[d][SIZE],
        flags: flags,
        alignment: states[d][ALIGNMENT],
        before: states[d][BEFORE],
        after: states[d][AFTER],
        kind: states[d][KIND],
        line: states[d][LINE],
        multiplier: states[d][MULTIPLIER],
        tab: states[d][TAB],
        left: states[d][LEFT],
        right: states[d][RIGHT],
        first: states[d][FIRST],
    }
}
