// The reading that a program is asked for: its first argument is the reading's number, as hosts say it; plain if there is none.
#![tactic(auto)]

ghost use Rattle.std.specs.Prelude.{◌≡◌};
ghost use Rattle.asked.specs.Asked.{asked_by};

use readings::Reading;
use std::env::Env;

// By the argument's first byte.
#[tactic(auto, unfolding(crate::specs::Asked::asked_by))]
fn by_digit(b: u8) -> Reading
    ensures { result ≡ asked_by b }
{
    match b {
        b'1' => Reading::Paragraphs,
        b'2' => Reading::Standard,
        _ => Reading::Plain,
    }
}

// An argument of more than one byte is plain too.
pub fn reading(rt: &impl Env) -> Reading {
    let mut word = [0u8; 2];
    match rt.arg(1, &mut word) {
        Ok(1) => by_digit(word[0]),
        _ => Reading::Plain,
    }
}
