// A Unicode scalar value as UTF-8 (RFC 3629, section 3), by shifts and masks. Every public function is total.
// Not by `char::encode_utf8`: its clauses say nothing of the array that it wrote, which is what is kept here.
#![tactic(auto)]

ghost use Rattle.std.specs.Prelude.{◌≡◌, [], ◌∷◌, ◌+◌, ◌/◌, ◌≤◌, ◌<◌};
ghost use Rattle.utf8.specs.Utf8.{is_scalar, tail, utf8, padded, encoded_of};

// The bytes of one value: the first `length` of four, and then zeros.
#[derive(Clone, Copy)]
pub struct Encoded {
    pub length: usize,
    pub bytes: [u8; 4],
}

// At most 0x10FFFF, and no surrogate.
fn is_scalar(c: u32) -> bool
    ensures { result ≡ is_scalar c }
{
    (c <= 0x10FFFF) & !((0xD800 <= c) & (c <= 0xDFFF))
}

// A byte behind the first: it holds the six low bits.
fn tail_of(x: u32) -> u8
    ensures { result ≡ tail x }
{
    ((x & 63) | 128) as u8
}

// A function for each length: one with the length as a parameter would be a loop, with a table of marks beside it.
fn two(c: u32) -> Encoded
    requires { c < 2048 }
    ensures { result ≡ padded ((192 + c / 64) ∷ (tail c ∷ [])) }
{
    let a = ((c >> 6) | 192) as u8;
    let b = tail_of(c);
    Encoded {
        length: 2,
        bytes: [a, b, 0, 0],
    }
}

fn three(c: u32) -> Encoded
    requires { c < 65536 }
    ensures { result ≡ padded ((224 + c / 4096) ∷ (tail (c / 64) ∷ (tail c ∷ []))) }
{
    let a = ((c >> 12) | 224) as u8;
    let b = tail_of(c >> 6);
    let d = tail_of(c);
    Encoded {
        length: 3,
        bytes: [a, b, d, 0],
    }
}

fn four(c: u32) -> Encoded
    requires { c ≤ 1114111 }
    ensures { result ≡ padded ((240 + c / 262144) ∷ (tail (c / 4096) ∷ (tail (c / 64) ∷ (tail c ∷ [])))) }
{
    let a = ((c >> 18) | 240) as u8;
    let b = tail_of(c >> 12);
    let d = tail_of(c >> 6);
    let e = tail_of(c);
    Encoded {
        length: 4,
        bytes: [a, b, d, e],
    }
}

// The sequence of a value, by its range.
fn sequence_of(c: u32) -> Encoded
    requires { c ≤ 1114111 }
    ensures { result ≡ padded (utf8 c) }
{
    if c < 0x80 {
        let a = c as u8;
        return Encoded {
            length: 1,
            bytes: [a, 0, 0, 0],
        };
    }
    if c < 0x800 {
        return two(c);
    }
    if c < 0x10000 {
        return three(c);
    }
    four(c)
}

// A scalar value's sequence; U+FFFD's for any other number.
pub fn encode(c: u32) -> Encoded
    ensures { result ≡ encoded_of c }
{
    if is_scalar(c) {
        return sequence_of(c);
    }
    sequence_of(0xFFFD)
}
