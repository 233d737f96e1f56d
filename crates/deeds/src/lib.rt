// One token (01, Body; the arms of `Parser::parse` in the crate): what is said at it is laid onto the page, then the stack moves.
//
//   stack     what brackets do to the states
//   passing   characters that are passed over
//   act       a word but `u`, or a symbol
//   token     any token but a `u` word, behind the run that it ended
//   turn      any token
#![tactic(auto)]

pub mod passing;
pub mod stack;

ghost use Rattle.std.specs.Prelude.{◌≡◌, false, [], ◌∷◌, ◌≤◌, ◌<◌, length, get_or, drop};
ghost use Rattle.tokens.specs.Tokens.{token_words};
ghost use Rattle.settings.specs.Effects.{meaning, Within};
ghost use Rattle.units.specs.Units.{before};
ghost use Rattle.machine.specs.Stack.{stack_limit, held};
ghost use Rattle.machine.specs.Machine.{says, tells, unit as unit_of, left, is_passed, ended, gave, step_of};
ghost use Rattle.blocks.specs.Laying.{Ready};
ghost use Rattle.runs.specs.Runs.{steps_by};
ghost use Rattle.deeds.specs.Deeds.{doing, symbol_effect};
ghost use Rattle.deeds.specs.Turns.{deed_at, effect_at, turn_of, Turns};

use crate::passing::{is_unit, passed_over};
use crate::stack::{close, open};
use answers::Why;
use blocks::Page;
use readings::Reading;
use runs::say::{character, lay};
use runs::{end_run, unit};
use settings::rows::{STATES, reset_painter, reset_paragraph, set_field, set_line};
use settings::{Act, WIDTH, act_of};
use tokens::Kind;
use tokens::item::{kind_at, number_at, part};
use units::Run;
use windows::character as windows_character;

// What a symbol does: a character, or nothing. `\'` has the byte that its digits say.
fn symbol(byte: u32, number: Option<u32>) -> Act
    ensures { (meaning result ≡ symbol_effect byte number) × Within result }
{
    match byte {
        0x27 => Act::Says(windows_character(number.unwrap_or(0))),
        0x7E => Act::Says(0xA0),
        0x5F => Act::Says(0x2011),
        0x2D => Act::Says(0xAD),
        _ => Act::Nothing,
    }
}

// What a word or a symbol does.
fn act_at(reading: Reading, t: &[u32]) -> Act
    requires { token_words ≤ length t.now }
    ensures { (meaning result ≡ effect_at reading t.now) × Within result }
{
    match kind_at(t) {
        Kind::Word => act_of(reading, t[1], number_at(t)),
        _ => symbol(t[1], number_at(t)),
    }
}

// A word but `u`, or a symbol, by what it does.
fn act(
    act: Act,
    states: &mut [[u32; WIDTH]; STATES],
    depth: usize,
    page: &mut Page,
    blocks: &mut [u32],
    text: &mut [u8],
) -> Result<usize, Why>
    requires { (depth ≤ stack_limit) × (length states.old ≡ stack_limit) × Ready page.old (length blocks.old) (length text.old) × Within act }
    ensures { Turns result states.new before page.new blocks.new text.new (length blocks.old) (length text.old) (turn_of (held [] states.old depth) page.old blocks.old text.old (ended before) (doing (meaning act))) }
{
    if depth == 0 {
        return Err(Why::NoState);
    }
    let d = depth - 1;
    match act {
        Act::Nothing => Ok(depth),
        Act::Sets(f, v) => {
            set_field(states, d, f, v);
            Ok(depth)
        }
        Act::Lines(kind, v) => {
            set_line(states, d, kind, v);
            Ok(depth)
        }
        Act::Plain => {
            reset_painter(states, d);
            Ok(depth)
        }
        Act::Pard => {
            reset_paragraph(states, d);
            Ok(depth)
        }
        Act::Says(c) => character(states, d, c, page, blocks, text).and(Ok(depth)),
        Act::Refuses(why) => Err(why),
    }
}

// A line break.
fn break_token(
    states: &[[u32; WIDTH]; STATES],
    depth: usize,
    page: &mut Page,
    blocks: &mut [u32],
    text: &mut [u8],
) -> Result<usize, Why>
    requires { (depth ≤ stack_limit) × (length states.now ≡ stack_limit) × Ready page.old (length blocks.old) (length text.old) }
    ensures { Turns result states.now before page.new blocks.new text.new (length blocks.old) (length text.old) (turn_of (held [] states.now depth) page.old blocks.old text.old (ended before) (says (10 ∷ []))) }
{
    if depth == 0 {
        return Err(Why::NoState);
    }
    character(states, depth - 1, 10, page, blocks, text).and(Ok(depth))
}

// A text of the source.
fn text_token(
    bytes: &[u8],
    states: &[[u32; WIDTH]; STATES],
    depth: usize,
    page: &mut Page,
    blocks: &mut [u32],
    text: &mut [u8],
) -> Result<usize, Why>
    requires { (depth ≤ stack_limit) × (length states.now ≡ stack_limit) × Ready page.old (length blocks.old) (length text.old) }
    ensures { Turns result states.now before page.new blocks.new text.new (length blocks.old) (length text.old) (turn_of (held [] states.now depth) page.old blocks.old text.old (ended before) (tells bytes.now)) }
{
    if depth == 0 {
        return Err(Why::NoState);
    }
    lay(states, depth - 1, bytes, page, blocks, text).and(Ok(depth))
}

// A `u` word.
fn unit_token(
    reading: Reading,
    number: Option<u32>,
    states: &[[u32; WIDTH]; STATES],
    depth: usize,
    run: &mut Run,
    page: &mut Page,
    blocks: &mut [u32],
    text: &mut [u8],
) -> Result<usize, Why>
    requires { (depth ≤ stack_limit) × (length states.now ≡ stack_limit) × Ready page.old (length blocks.old) (length text.old) }
    ensures { Turns result states.now run.new page.new blocks.new text.new (length blocks.old) (length text.old) (turn_of (held [] states.now depth) page.old blocks.old text.old (step_of (steps_by reading) (held [] states.now depth) run.old number) (unit_of number)) }
{
    if depth == 0 {
        return Err(Why::NoState);
    }
    unit(reading, states, depth - 1, number, run, page, blocks, text).and(Ok(depth))
}

// What is left of a text where `owed` characters are passed over.
fn rest_of(bytes: &[u8], owed: usize) -> &[u8]
    ensures { result.now ≡ drop owed bytes.now }
{
    if bytes.len() < owed {
        return &bytes[..0];
    }
    &bytes[owed..]
}

// Any token but a `u` word, of which something is left, where the walk passes over h tokens behind it and the run has ended.
fn token(
    source: &[u8],
    reading: Reading,
    t: &[u32],
    h: usize,
    owed: usize,
    states: &mut [[u32; WIDTH]; STATES],
    depth: usize,
    page: &mut Page,
    blocks: &mut [u32],
    text: &mut [u8],
) -> Result<usize, Why>
    requires { (depth ≤ stack_limit) × (length states.old ≡ stack_limit) × Ready page.old (length blocks.old) (length text.old) × (token_words ≤ length t.now) × (is_passed (left owed (deed_at reading source.now t.now h)) ≡ false) }
    ensures { Turns result states.new before page.new blocks.new text.new (length blocks.old) (length text.old) (turn_of (held [] states.old depth) page.old blocks.old text.old (ended before) (left owed (deed_at reading source.now t.now h))) }
{
    if 0 < h {
        return Ok(depth);
    }
    match kind_at(t) {
        Kind::Opening => open(states, depth),
        Kind::Closing => close(depth),
        Kind::LineBreak => break_token(states, depth, page, blocks, text),
        Kind::Ignorable => Err(Why::IgnorableInBody),
        Kind::Text => {
            let bytes = rest_of(part(source, t[4], t[5]), owed);
            text_token(bytes, states, depth, page, blocks, text)
        }
        Kind::Word | Kind::Symbol => {
            let a = act_at(reading, t);
            act(a, states, depth, page, blocks, text)
        }
    }
}

// Any token, where the walk passes over h tokens behind it and `owed` characters are still to be passed over.
pub fn turn(
    source: &[u8],
    reading: Reading,
    t: &[u32],
    h: usize,
    owed: usize,
    states: &mut [[u32; WIDTH]; STATES],
    depth: usize,
    run: &mut Run,
    page: &mut Page,
    blocks: &mut [u32],
    text: &mut [u8],
) -> Result<usize, Why>
    requires { (depth ≤ stack_limit) × (length states.old ≡ stack_limit) × Ready page.old (length blocks.old) (length text.old) × (token_words ≤ length t.now) × (0 < h → get_or t.now 0 0 ≡ 1) }
    ensures { Turns result states.new run.new page.new blocks.new text.new (length blocks.old) (length text.old) (turn_of (held [] states.old depth) page.old blocks.old text.old (gave (step_of (steps_by reading) (held [] states.old depth)) run.old (left owed (deed_at reading source.now t.now h))) (left owed (deed_at reading source.now t.now h))) }
{
    if passed_over(source, t, owed) {
        return Ok(depth);
    }
    if is_unit(t) {
        return unit_token(
            reading,
            number_at(t),
            states,
            depth,
            run,
            page,
            blocks,
            text,
        );
    }
    end_run(states, depth, run, page, blocks, text)?;
    token(
        source, reading, t, h, owed, states, depth, page, blocks, text,
    )
}
