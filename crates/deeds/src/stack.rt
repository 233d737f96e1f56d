// The stack of states: an array of 64 rows, of which the first `depth` are held (01, Body).
//
//   open, close   what brackets do to the stack: how many states are held then, or which refusal it is
ghost use Rattle.std.specs.Prelude.{List, [], ℕ, ◌≤◌, ◌≡◌, length};
ghost use Rattle.settings.specs.Fields.{fresh_row};
ghost use Rattle.machine.specs.Stack.{stack_limit, opens, closes, moved as moved_to, held};
ghost use Rattle.deeds.specs.Turns.{Took};

use answers::Why;
use settings::rows::STATES;
use settings::{State, WIDTH};

// An opening bracket: a copy of the top; a fresh state if there is none.
pub fn open(states: &mut [[u32; WIDTH]; STATES], depth: usize) -> Result<usize, Why>
    requires { (depth ≤ stack_limit) × (length states.old ≡ stack_limit) }
    ensures { Took result states.new (moved_to fresh_row (held [] states.old depth) opens) }
{
    if depth == 0 {
        let first = State::fresh().row();
        states[0] = first;
        return Ok(1);
    }
    if depth == STATES {
        return Err(Why::TooDeep);
    }
    let top = states[depth - 1];
    states[depth] = top;
    Ok(depth + 1)
}

// A closing bracket drops the top.
pub fn close(depth: usize) -> Result<usize, Why>
    requires { depth ≤ stack_limit }
    ensures { (states : List (List ℕ)) → length states ≡ stack_limit → Took result states (moved_to fresh_row (held [] states depth) closes) }
{
    if depth == 0 {
        return Err(Why::NoState);
    }
    Ok(depth - 1)
}
