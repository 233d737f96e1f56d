// Characters that are passed over behind a `u` word (02, A1): a token is passed over whole, in part, or ends it.
//
//   is_brace      a brace ends it
//   count_of      how many characters a token is
//   passed_over   whether a token is passed over whole
//   owed_behind   how many are still to be passed over behind it
//
// Nothing is owed in the readings of 01: there each of these is one comparison.
ghost use Rattle.std.specs.Prelude.{◌≡◌, false, List, [], ℕ, ◌≤◌, ◌<◌, length, get_or, eqb, ◌&&◌};
ghost use Rattle.readings.specs.declared.Reading.{Reading as AnyReading};
ghost use Rattle.tokens.specs.Tokens.{token_words};
ghost use Rattle.machine.specs.Stack.{stack_limit, held};
ghost use Rattle.machine.specs.Machine.{is_brace, counts, left, is_passed, owes_of, owed_behind};
ghost use Rattle.runs.specs.Runs.{steps_by};
ghost use Rattle.deeds.specs.Turns.{deed_at};

use readings::Reading;
use runs::owes;
use settings::WIDTH;
use settings::rows::STATES;
use tokens::item::{kind_at, part};
use tokens::{Kind, words};

// Whether a token is a `u` word.
pub fn is_unit(t: &[u32]) -> bool
    requires { token_words ≤ length t.now }
    ensures { result ≡ (eqb (get_or t.now 0 0) 5 && eqb (get_or t.now 1 0) 2) }
{
    match kind_at(t) {
        Kind::Word => t[1] == words::UNICODE,
        _ => false,
    }
}

fn is_brace(t: &[u32]) -> bool
    requires { token_words ≤ length t.now }
    ensures { (rd : AnyReading) (src : List ℕ) (h : ℕ) → (0 < h → get_or t.now 0 0 ≡ 1) → result ≡ is_brace (deed_at rd src t.now h) }
{
    match kind_at(t) {
        Kind::Opening | Kind::Closing => true,
        _ => false,
    }
}

// Of a token that is no brace.
fn count_of(source: &[u8], t: &[u32]) -> usize
    requires { token_words ≤ length t.now }
    ensures { (rd : AnyReading) (h : ℕ) → (0 < h → get_or t.now 0 0 ≡ 1) → is_brace (deed_at rd source.now t.now h) ≡ false → result ≡ counts (deed_at rd source.now t.now h) }
{
    match kind_at(t) {
        Kind::Text => part(source, t[4], t[5]).len(),
        _ => 1,
    }
}

pub fn passed_over(source: &[u8], t: &[u32], owed: usize) -> bool
    requires { token_words ≤ length t.now }
    ensures { (rd : AnyReading) (h : ℕ) → (0 < h → get_or t.now 0 0 ≡ 1) → result ≡ is_passed (left owed (deed_at rd source.now t.now h)) }
{
    if owed == 0 {
        return false;
    }
    if is_brace(t) {
        return false;
    }
    count_of(source, t) <= owed
}

// Behind a token where `owed` is not 0.
fn owed_still(source: &[u8], t: &[u32], owed: usize) -> usize
    requires { (token_words ≤ length t.now) × (0 < owed) }
    ensures { (rd : AnyReading) (owes h : ℕ) → (0 < h → get_or t.now 0 0 ≡ 1) → result ≡ owed_behind owes owed (deed_at rd source.now t.now h) }
{
    if is_brace(t) {
        return 0;
    }
    let n = count_of(source, t);
    if owed <= n {
        return 0;
    }
    owed - n
}

// Behind a `u` word that is read.
fn owes_at(reading: Reading, states: &[[u32; WIDTH]; STATES], depth: usize) -> usize
    requires { (depth ≤ stack_limit) × (length states.now ≡ stack_limit) }
    ensures { result ≡ owes_of (steps_by reading) (held [] states.now depth) }
{
    if depth == 0 {
        return 0;
    }
    owes(reading, states, depth - 1)
}

pub fn owed_behind(
    source: &[u8],
    reading: Reading,
    t: &[u32],
    states: &[[u32; WIDTH]; STATES],
    depth: usize,
    owed: usize,
) -> usize
    requires { (depth ≤ stack_limit) × (length states.now ≡ stack_limit) × (token_words ≤ length t.now) }
    ensures { (h : ℕ) → (0 < h → get_or t.now 0 0 ≡ 1) → result ≡ owed_behind (owes_of (steps_by reading) (held [] states.now depth)) owed (deed_at reading source.now t.now h) }
{
    if 0 < owed {
        return owed_still(source, t, owed);
    }
    if is_unit(t) {
        return owes_at(reading, states, depth);
    }
    0
}
