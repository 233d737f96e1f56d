// How a letter is read (01, Body; 02, A1 and A2): plain, as the crate does, by paragraphs, or by the RTF 1.9.1 specification. Below the
// cutter, which goes by it too.
#![tactic(auto)]

ghost use Rattle.std.specs.Prelude.{◌≡◌};
ghost use Rattle.readings.specs.Readings.{reading_of, is_standard};

#[derive(Clone, Copy)]
pub enum Reading {
    // as the crate
    Plain,
    // the same, but `par` adds a line feed, indents are set, and a backslash and a carriage return are a line break
    Paragraphs,
    // by the specification: a cutting of its own, text behind `u` passed over, any number but 0 turns a flag on
    Standard,
}

impl Reading {
    // A reading by its number, as hosts say it: 1 is by paragraphs, 2 by the specification, any other number plain.
    pub fn of(number: u32) -> Reading
        ensures { result ≡ reading_of number }
    {
        match number {
            1 => Reading::Paragraphs,
            2 => Reading::Standard,
            _ => Reading::Plain,
        }
    }

    // Whether it is the reading by the specification.
    pub fn is_standard(self) -> bool
        ensures { result ≡ is_standard self }
    {
        matches!(self, Reading::Standard)
    }
}
