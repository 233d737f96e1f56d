// What the program writes to standard output.
use std::{fmt, io};

// How the file ended.
#[derive(Clone, Copy)]
pub enum End {
    Whole,
    CutShort,
}

// As the last line says it.
impl fmt::Display for End {
    fn fmt<W: fmt::Write>(&self, f: &mut fmt::Formatter<W>) -> fmt::Result {
        match self {
            End::Whole => Ok(()),
            End::CutShort => write!(f, ", and then the file is cut short"),
        }
    }
}

#[derive(Clone, Copy)]
pub struct Tally {
    pub letters: usize,
    pub agree: usize,
    pub end: End,
}

// A letter, by its index from 0, whose listing is not the expected one.
pub fn difference(rt: &impl Print, letter: usize, expected: &[u8], ours: &[u8]) -> io::Result<()> {
    println!(rt; "letter {letter}, expected")?;
    rt.write_all(expected)?;
    println!(rt; "and got")?;
    rt.write_all(ours)
}

// How many letters got each answer, a line for each that was given.
pub fn answers(rt: &impl Print, counts: &[u32]) -> io::Result<()> {
    for (answer, count) in counts.iter().enumerate() {
        if 0 < *count {
            println!(rt; "answer {answer}: {count} letters")?;
        }
    }
    Ok(())
}

// The last line.
pub fn last_line(rt: &impl Print, tally: Tally) -> io::Result<()> {
    let Tally {
        letters,
        agree,
        end,
    } = tally;
    println!(rt; "{agree} of {letters} letters as expected{end}")
}
