// One answer of ours against the listed one: the refusal, its place, the count of tokens, every word of the room.
ghost use Rattle.std.specs.Prelude.{◌≡◌, ℕ, ◌*◌, ◌<◌, length, get_or, MatchOption};
ghost use Rattle.replay.specs.Listed.{word_at, FirstUnlike, Judged};

use crate::list::{Answer, word};
use answers::{Refusal, count_of, number_of, place_of};

// What differs first.
#[derive(Clone, Copy)]
pub enum Part {
    Refusal,
    Place,
    Count,
    Word(usize),
}

#[derive(Clone, Copy)]
pub struct Difference {
    pub part: Part,
    pub ours: u64,
    pub listed: u64,
}

// The first word of the room that is not the one in the records, or behind them not zero, if there is one.
fn first_unlike(room: &[u32], records: &[u8]) -> Option<usize>
    ensures { MatchOption result ((k : ℕ) → k < length room.now → get_or room.now k 0 ≡ word_at records.now (4 * k)) (λ at. FirstUnlike room.now records.now at) }
{
    for (k, ours) in room.iter().enumerate() {
        if *ours != word(records, 4 * k) {
            return Some(k);
        }
    }
    None
}

// How our answer differs from the listed one, if it does.
pub fn compare(
    outcome: Result<usize, Refusal>,
    room: &[u32],
    answer: Answer,
    records: &[u8],
) -> Option<Difference>
    ensures { Judged outcome room.now answer records.now result }
{
    let refusal = number_of(&outcome);
    if refusal != answer.refusal {
        return Some(Difference {
            part: Part::Refusal,
            ours: u64::from(refusal),
            listed: u64::from(answer.refusal),
        });
    }
    let place = place_of(&outcome);
    if place != answer.place {
        return Some(Difference {
            part: Part::Place,
            ours: u64::from(place),
            listed: u64::from(answer.place),
        });
    }
    let count = count_of(outcome);
    if count != answer.tokens {
        return Some(Difference {
            part: Part::Count,
            ours: count as u64,
            listed: answer.tokens as u64,
        });
    }
    if let Some(at) = first_unlike(room, records) {
        return Some(Difference {
            part: Part::Word(at),
            ours: u64::from(room[at]),
            listed: u64::from(word(records, 4 * at)),
        });
    }
    None
}
