// The 49 names of control words (01, Cutting; `ControlWord::from` in the crate), and the search for a word's number.
//
// A constant is laid out anew at each use, so a caller takes the table once by `Names::new()` and lends it to each search.
#![tactic(auto)]

ghost use Rattle.std.specs.Prelude.{◌≡◌, ◌≤◌, ◌<◌};
ghost use Rattle.names.specs.Names.{rows, name_of, same_bytes, word_number};

// Where the rows of the table start; the names' run starts at 0.
const BOUNDS: usize = 203;

const LINKS: usize = 253;

const HEADS: usize = 302;

// The names in 01's order, as one run; where the first begins, and where each ends; for each the number of the next name
// with its first letter, 49 if there is none; for each letter the number of the first name with it, 49 if there is none.
const NAMES: [u8; 328] = *b"\
rtfansiuucfonttblcolortblfiletblstylesheetfcharsetffscfibul\
ulnonesupersubscapsstrikeparpardsectdplainspardeftabqlqrqjqc\
firilisbsaslslmulredgreenblueemdashendashbulletlquoterquote\
ldblquoterdblquotetabline\
\x00\x03\x07\x08\x0a\x11\x19\x20\x2a\x32\x33\x35\x37\x38\x39\x3b\x41\x46\x49\x4e\x54\x57\x5b\x60\x65\
\x66\x6f\x71\x73\x75\x77\x79\x7b\x7d\x7f\x81\x83\x88\x8b\x90\x94\x9a\xa0\xa6\xac\xb2\xbb\xc4\xc7\xcb\
\x25\x31\x0e\x0f\x06\x31\x31\x16\x04\x0a\x1e\x05\x31\x27\x03\x31\x11\x13\x07\x12\x15\x17\x31\x19\x21\
\x31\x1b\x1c\x1d\x31\x08\x2c\x30\x22\x23\x24\x10\x1f\x31\x2a\x29\x31\x31\x2d\x2e\x31\x31\x31\x2b\
\x01\x0d\x0b\x31\x28\x09\x26\x31\x0c\x31\x31\x20\x31\x31\x31\x14\x1a\x00\x18\x2f\x02\x31\x31\x31\x31\x31";

// The table of names: whoever has one has the whole table.
#[derive(Clone, Copy)]
pub struct Names {
    table: [u8; 328],
    pub ghost is_table: { table ≡ rows },
}

impl Names {
    pub fn new() -> Names {
        Names { table: NAMES }
    }

    // Whether w is the name whose number is `row`.
    fn is_row(&self, w: &[u8], row: usize) -> bool
        requires { row < 49 }
        ensures { result ≡ same_bytes w.now (name_of row) }
    {
        let at = BOUNDS + row;
        let begin = usize::from(self.table[at]);
        let end = usize::from(self.table[at + 1]);
        let name = &self.table[begin..end];
        // Not `w == name`, whose way for long slices takes ten instructions more a word.
        w.len() == name.len() && w.iter().zip(name).all(|(a, b)| a == b)
    }

    // The number of a name, 0 to 48; 49 for any other word. Only names that start with the word's first letter are looked
    // at: the table links each to the next.
    // No `Option`: records hold the number, and every caller's clauses name `word_number`.
    pub fn number_of(&self, w: &[u8]) -> u32
        ensures number { result ≡ word_number w.now }
        ensures small { result ≤ 49 }
    {
        let Some(&first) = w.first() else {
            return 49;
        };
        if !classes::is_letter(first) {
            return 49;
        }
        let head = HEADS + usize::from(first - b'a');
        let mut row = usize::from(self.table[head]);
        // A `while`: each row says which one is next.
        while row < 49 {
            if self.is_row(w, row) {
                return row as u32;
            }
            let link = LINKS + row;
            row = usize::from(self.table[link]);
        }
        49
    }
}
