// What the program writes to standard output.
use crate::judge::{Difference, Part};
use crate::list::End;
use answers::Refusal;
use std::{fmt, io};

// At most so many differences are said one by one.
const LINES_MOST: usize = 10;

#[derive(Clone, Copy)]
pub struct Tally {
    pub answers: usize,
    pub differ: usize,
    pub end: End,
}

impl fmt::Display for Part {
    fn fmt<W: fmt::Write>(&self, f: &mut fmt::Formatter<W>) -> fmt::Result {
        match self {
            Part::Refusal => write!(f, "refusal"),
            Part::Place => write!(f, "place"),
            Part::Count => write!(f, "count of tokens"),
            Part::Word(at) => write!(f, "word {at} of the room"),
        }
    }
}

// As the last line says it.
impl fmt::Display for End {
    fn fmt<W: fmt::Write>(&self, f: &mut fmt::Formatter<W>) -> fmt::Result {
        match self {
            End::Whole => Ok(()),
            End::CutShort => write!(f, ", and then the list is cut short"),
            End::Malformed => write!(f, ", and then the list is malformed"),
        }
    }
}

// One line for a difference of the answer at an index, from 0, unless enough were said before.
pub fn line(
    rt: &impl Print,
    difference: Difference,
    answer: usize,
    differ: usize,
) -> io::Result<()> {
    if LINES_MOST <= differ {
        return Ok(());
    }
    let Difference { part, ours, listed } = difference;
    println!(rt; "answer {answer}: {part} is {ours}, listed is {listed}")
}

// The last line.
pub fn last_line(rt: &impl Print, tally: Tally) -> io::Result<()> {
    let Tally {
        answers,
        differ,
        end,
    } = tally;
    println!(rt; "{answers} answers replayed, {differ} differ{end}")
}
