// Answers as a host gets them: structs of numbers, 0 or a refusal's number first, for a letter its place (02, A4), and then the counts.
ghost use Rattle.std.specs.Prelude.{◌≡◌, ◌≤◌};
ghost use Rattle.answers.specs.Answers.{outcome_count};
ghost use Rattle.parser.specs.declared.Counts.{Counts};
ghost use Rattle.reader.specs.Reading.{Counted};
ghost use Rattle.host.specs.Exports.{cut_of, read_of, stored_of, write_of};

use answers::{Refusal, count_of, number_of, place_of};
use parser::Counts;

// How many tokens stand in the room.
#[repr(C)]
#[derive(Clone, Copy)]
pub struct CutAnswer {
    pub refusal: u32,
    pub place: u32,
    pub tokens: u32,
}

// How many tokens, fonts, colours, blocks and text bytes stand in the rooms.
#[repr(C)]
#[derive(Clone, Copy)]
pub struct ReadAnswer {
    pub refusal: u32,
    pub place: u32,
    pub tokens: u32,
    pub fonts: u32,
    pub colours: u32,
    pub blocks: u32,
    pub text: u32,
}

// How many blocks and text bytes stand in the rooms.
#[repr(C)]
#[derive(Clone, Copy)]
pub struct StoredAnswer {
    pub refusal: u32,
    pub blocks: usize,
    pub text: usize,
}

// How many bytes stand in the room.
#[repr(C)]
#[derive(Clone, Copy)]
pub struct WriteAnswer {
    pub refusal: u32,
    pub bytes: usize,
}

// The answer of a cutting, which counts at most 65,536 tokens.
pub fn of_cut(outcome: Result<usize, Refusal>) -> CutAnswer
    requires { outcome_count outcome ≤ 65536 }
    ensures { result ≡ cut_of outcome }
{
    CutAnswer {
        refusal: number_of(&outcome),
        place: place_of(&outcome),
        tokens: count_of(outcome) as u32,
    }
}

// The answer of a reading, whose counts are small.
pub fn of_reading(answer: Result<Counts, Refusal>) -> ReadAnswer
    requires { (k : Counts) → answer ≡ Ok k → Counted k }
    ensures { result ≡ read_of answer }
{
    match answer {
        Ok(counts) => ReadAnswer {
            refusal: 0,
            place: 0,
            tokens: counts.tokens as u32,
            fonts: counts.fonts as u32,
            colours: counts.colours as u32,
            blocks: counts.blocks as u32,
            text: counts.text as u32,
        },
        Err(refused) => {
            let refusal = refused.number();
            ReadAnswer {
                refusal: refusal,
                place: refused.place,
                tokens: 0,
                fonts: 0,
                colours: 0,
                blocks: 0,
                text: 0,
            }
        }
    }
}

// The answer of a stored list's reading.
pub fn of_stored(answer: Result<stored::Counts, Refusal>) -> StoredAnswer
    ensures { result ≡ stored_of answer }
{
    let counts = stored::counts_of(answer);
    StoredAnswer {
        refusal: number_of(&answer),
        blocks: counts.blocks,
        text: counts.text,
    }
}

// The answer of a writing.
pub fn of_writing(outcome: Result<usize, Refusal>) -> WriteAnswer
    ensures { result ≡ write_of outcome }
{
    WriteAnswer {
        refusal: number_of(&outcome),
        bytes: count_of(outcome),
    }
}
