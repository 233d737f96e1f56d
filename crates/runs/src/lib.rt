// The run of `u` words under way (01, Body).
//
//   say       text in a state, laid onto the page
//   unit      a `u` word
//   owes      how many characters are passed over behind one
//   end_run   any other token ends the run
#![tactic(auto)]

pub mod say;

ghost use Rattle.std.specs.Prelude.{◌≡◌, [], ◌≤◌, ◌<◌, length, get_or, option_to_list};
ghost use Rattle.units.specs.Units.{before, values};
ghost use Rattle.machine.specs.Stack.{stack_limit, held};
ghost use Rattle.machine.specs.Machine.{ended, parts, written_all, spoken, said};
ghost use Rattle.settings.specs.Fields as field;
ghost use Rattle.blocks.specs.Laying.{on, roomed, Ready};
ghost use Rattle.runs.specs.Runs.{rows, step_by, owed_by, laid_all};

use crate::say::character;
use answers::Why;
use blocks::Page;
use readings::Reading;
use settings::rows::STATES;
use settings::{SKIP, WIDTH};
use units::{Gave, Run, standard_step, step};

// A scalar value, if there is one.
fn lay_value(
    states: &[[u32; WIDTH]; STATES],
    d: usize,
    value: Option<u32>,
    page: &mut Page,
    blocks: &mut [u32],
    text: &mut [u8],
) -> Result<(), Why>
    requires { (d < stack_limit) × (length states.now ≡ stack_limit) × Ready page.old (length blocks.old) (length text.old) }
    ensures laid { roomed result page.new blocks.new text.new ≡ laid_all (on page.old blocks.old text.old) (spoken rows (get_or states.now d []) (written_all (option_to_list value))) }
    ensures ready { Ready page.new (length blocks.old) (length text.old) }
{
    match value {
        Some(c) => character(states, d, c, page, blocks, text),
        None => Ok(()),
    }
}

// What a word gave: a lost surrogate, and then a value.
fn lay_values(
    states: &[[u32; WIDTH]; STATES],
    d: usize,
    g: Gave,
    page: &mut Page,
    blocks: &mut [u32],
    text: &mut [u8],
) -> Result<(), Why>
    requires { (d < stack_limit) × (length states.now ≡ stack_limit) × Ready page.old (length blocks.old) (length text.old) }
    ensures laid { roomed result page.new blocks.new text.new ≡ laid_all (on page.old blocks.old text.old) (spoken rows (get_or states.now d []) (written_all (values g))) }
    ensures ready { Ready page.new (length blocks.old) (length text.old) }
{
    if g.lost {
        lay_value(states, d, Some(0xFFFD), page, blocks, text)?;
    }
    lay_value(states, d, g.value, page, blocks, text)
}

// A step of the run, by the reading. A test of the reading, which is the host's number, is plainer here than a closure.
fn step_by(reading: Reading, skip: u32, run: Run, number: Option<u32>) -> Gave
    ensures { result ≡ step_by reading skip run number }
{
    if reading.is_standard() {
        return standard_step(run, number);
    }
    step(skip, run, number)
}

// How many characters are passed over behind a `u` word, where the skip count is `skip`. A test of the reading, as above.
fn owed_by(reading: Reading, skip: u32) -> usize
    ensures { result ≡ owed_by reading skip }
{
    // a skip count below zero skips nothing
    if reading.is_standard() & (skip < 2147483648) {
        return skip as usize;
    }
    0
}

// The same, in the state at place d.
pub fn owes(reading: Reading, states: &[[u32; WIDTH]; STATES], d: usize) -> usize
    requires { (d < stack_limit) × (length states.now ≡ stack_limit) }
    ensures { result ≡ owed_by reading (get_or (get_or states.now d []) field.skip 0) }
{
    owed_by(reading, states[d][SKIP])
}

// A `u` word in the state at place d.
pub fn unit(
    reading: Reading,
    states: &[[u32; WIDTH]; STATES],
    d: usize,
    number: Option<u32>,
    run: &mut Run,
    page: &mut Page,
    blocks: &mut [u32],
    text: &mut [u8],
) -> Result<(), Why>
    requires { (d < stack_limit) × (length states.now ≡ stack_limit) × Ready page.old (length blocks.old) (length text.old) }
    ensures laid { roomed result page.new blocks.new text.new ≡ laid_all (on page.old blocks.old text.old) (spoken rows (get_or states.now d []) (written_all (values (step_by reading (get_or (get_or states.now d []) field.skip 0) run.old number)))) }
    ensures run_after { run.new ≡ (step_by reading (get_or (get_or states.now d []) field.skip 0) run.old number).run }
    ensures ready { Ready page.new (length blocks.old) (length text.old) }
{
    let g = step_by(reading, states[d][SKIP], *run, number);
    *run = g.run;
    lay_values(states, d, g, page, blocks, text)
}

// A token that is no `u` word ends the run: a surrogate that waits is lost.
pub fn end_run(
    states: &[[u32; WIDTH]; STATES],
    depth: usize,
    run: &mut Run,
    page: &mut Page,
    blocks: &mut [u32],
    text: &mut [u8],
) -> Result<(), Why>
    requires { (depth ≤ stack_limit) × (length states.now ≡ stack_limit) × Ready page.old (length blocks.old) (length text.old) }
    ensures laid { roomed result page.new blocks.new text.new ≡ laid_all (on page.old blocks.old text.old) (said rows (held [] states.now depth) (ended run.old) parts) }
    ensures run_after { run.new ≡ before }
    ensures ready { Ready page.new (length blocks.old) (length text.old) }
{
    let high = run.high;
    *run = Run::before();
    if high == 0 {
        return Ok(());
    }
    if depth == 0 {
        return Ok(());
    }
    character(states, depth - 1, 0xFFFD, page, blocks, text)
}
