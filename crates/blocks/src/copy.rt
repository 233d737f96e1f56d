// Bytes copied into a text room, in pieces.
//
//   each     byte by byte
//   piece    a few, by way of an array: that one is neither in the bytes nor in the text, so the compiler makes one load and one store
//   pieces   all, in pieces of one width; the last one begins within the one before
//   copy     all, in the widest pieces that are not longer than the whole
ghost use Rattle.std.specs.Prelude.{◌≡◌, ◌+◌, ◌≤◌, ◌<◌, length, take, drop};
ghost use Rattle.std.proofs.lemmas.List.Edits.{sets};

// How many bytes the widest piece has.
const WIDEST: usize = 16;

fn each(bytes: &[u8], text: &mut [u8], at: usize)
    requires { at + length bytes.now ≤ length text.old }
    ensures { text.new ≡ sets text.old at bytes.now }
{
    let mut i = 0;
    while i < bytes.len() {
        text[at + i] = bytes[i];
        i += 1;
    }
}

// The k bytes from place i on, to where they stand in the text.
fn piece(bytes: &[u8], i: usize, k: usize, text: &mut [u8], at: usize)
    requires { (k ≤ 16) × (i + k ≤ length bytes.now) × (at + length bytes.now ≤ length text.old) }
    ensures { text.new ≡ sets text.old (at + i) (take k (drop i bytes.now)) }
{
    let mut held = [0u8; WIDEST];
    let end = i + k;
    each(&bytes[i..end], &mut held, 0);
    each(&held[..k], text, at + i);
}

fn pieces(bytes: &[u8], k: usize, text: &mut [u8], at: usize)
    requires { (0 < k) × (k ≤ 16) × (k ≤ length bytes.now) × (at + length bytes.now ≤ length text.old) }
    ensures { text.new ≡ sets text.old at bytes.now }
{
    let last = bytes.len() - k;
    let mut i: usize = 0;
    while i < last {
        piece(bytes, i, k, text, at);
        i += k;
    }
    piece(bytes, last, k, text, at);
}

// The bytes at a place of the text.
pub fn copy(bytes: &[u8], text: &mut [u8], at: usize)
    requires { at + length bytes.now ≤ length text.old }
    ensures { text.new ≡ sets text.old at bytes.now }
{
    let n = bytes.len();
    if WIDEST <= n {
        pieces(bytes, WIDEST, text, at);
        return;
    }
    if 8 <= n {
        pieces(bytes, 8, text, at);
        return;
    }
    if 4 <= n {
        pieces(bytes, 4, text, at);
        return;
    }
    each(bytes, text, at);
}
