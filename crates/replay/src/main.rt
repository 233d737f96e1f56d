// Replays listed answers of the Rust crate through our cutter, and says where ours differ.
//
//   list    how answers are listed, and where the next one stands
//   judge   one answer of ours against the listed one
//   say     the lines that are written
//
// The list is data/letters.bin; data/README.md says what it holds and how it was made.
#![tactic(auto)]

mod judge;
mod list;
mod say;

ghost use Rattle.std.specs.Prelude.{length};
ghost use Rattle.cutter.specs.Cutting.{cut_answer, cut_room};
ghost use Rattle.replay.specs.Listed.{Whole, Judged};

use input::fill;
use judge::{Difference, compare};
use list::{Answer, End, HEAD_BYTES, ROOM_MOST, next};
use readings::Reading;
use say::Tally;
use std::fs::Files;
use std::{fs, io};

// What every word of a room holds before the cut: no word that the cutter should leave there.
const JUNK: u32 = 0xa5a5_5a5a;

// The longest list that is read, and a byte more.
const LIST_ROOM: usize = 524288;

// Cuts a letter in a room, whatever that holds, and compares.
fn cut_and_compare(
    letter: &[u8],
    records: &[u8],
    answer: Answer,
    room: &mut [u32],
) -> Option<Difference>
    ensures { Judged (cut_answer Reading.Plain letter.now (length room.old)) (cut_room Reading.Plain letter.now (length room.old)) answer records.now result }
{
    let outcome = cutter::cut(letter, Reading::Plain, room);
    compare(outcome, room, answer, records)
}

// The answer at the front of `list`, against what our cutter gives for its letter in a room of its size.
fn replay_one(list: &[u8], answer: Answer) -> Option<Difference>
    requires { Whole (length list.now) answer }
{
    let mut room = [JUNK; ROOM_MOST];
    cut_and_compare(
        &list[HEAD_BYTES..answer.records],
        &list[answer.records..answer.end],
        answer,
        &mut room[..answer.room],
    )
}

// Every answer of the list, up to its end or to what is no answer.
fn replay(rt: &impl Print, list: &[u8]) -> io::Result<Tally> {
    let mut rest = list;
    let mut answers: usize = 0;
    let mut differ: usize = 0;
    // A `loop`: an answer tells where the next one stands.
    loop {
        let answer = match next(rest) {
            Ok(answer) => answer,
            Err(end) => {
                return Ok(Tally {
                    answers,
                    differ,
                    end,
                });
            }
        };
        if let Some(difference) = replay_one(rest, answer) {
            say::line(rt, difference, answers, differ)?;
            differ += 1;
        }
        answers += 1;
        rest = &rest[answer.end..];
    }
}

// Reads the list and replays it.
fn run(rt: &(impl Files + Print), list: &mut [u8]) -> io::Result<()> {
    let Ok(file) = fs::open(rt, "letters.bin") else {
        return println!(rt; "letters.bin cannot be opened");
    };
    let n = fill(file, list)?;
    if n == 0 {
        return println!(rt; "letters.bin is empty or cannot be read");
    }
    if n == list.len() {
        return println!(rt; "letters.bin is longer than this program reads");
    }
    say::last_line(rt, replay(rt, &list[..n])?)
}

fn in_room(rt: &(impl Files + Print), list: &mut [u8; LIST_ROOM]) -> io::Result<()> {
    run(rt, list)
}

fn main(rt: HostRuntime) -> io::Result<()> {
    let mut list = [0u8; LIST_ROOM];
    in_room(&rt, &mut list)
}
