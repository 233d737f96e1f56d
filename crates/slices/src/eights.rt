// Eight bytes looked at as one number, so that the next byte that can start a slice is found without a look at each.
//
//   marks       a number's bytes that are special: 128 in their place, else 0; the first byte is the lowest
//   starts      the same of those that start a slice in standard reading
//   marks_of, starts_of   each of eight bytes
//
// What a byte is, is said in `classes`; here it is only found faster.
ghost use Rattle.std.specs.Prelude.{◌≡◌, Bool, List, ℕ, ◌<◌, length, get_or};
ghost use Rattle.classes.specs.Bytes.{is_special};
ghost use Rattle.slices.specs.Slices.{is_start};
ghost use Rattle.classes.specs.Eights.{packed, marked};

// 128 in the place of each special byte. The steps are those of one byte, done in eight: no sum touches the next byte, and 128 is
// reached by the special ones alone. Of the braces, which are two apart, both give 0x7D under the mask, the most that there is. A
// backslash is 0x7F behind the first step and reaches 128 with the second; a line feed is 0x7F behind the third, which leaves 128.
fn marks(y: u64) -> u64
    ensures { (s : List ℕ) → length s ≡ 8 → ((i : ℕ) → get_or s i 0 < 256) → y ≡ packed s → result ≡ packed (marked is_special s) }
{
    let x = y & 0x7F7F7F7F7F7F7F7F;
    let braces = ((x + 0x0202020202020202) & 0x7D7D7D7D7D7D7D7D) + 0x0303030303030303;
    let others = (((x ^ 0x2323232323232323) + 0x0101010101010101) ^ 0x5555555555555555)
        + 0x0101010101010101;
    (braces | others) & (y ^ 0xFFFFFFFFFFFFFFFF) & 0x8080808080808080
}

// 128 in the place of each byte that starts a slice in standard reading: of a carriage return, which is 0x7F behind the first
// step, too.
fn starts(y: u64) -> u64
    ensures { (s : List ℕ) → length s ≡ 8 → ((i : ℕ) → get_or s i 0 < 256) → y ≡ packed s → result ≡ packed (marked is_start s) }
{
    let x = y & 0x7F7F7F7F7F7F7F7F;
    let returns = (x ^ 0x7272727272727272) + 0x0101010101010101;
    marks(y) | (returns & (y ^ 0xFFFFFFFFFFFFFFFF) & 0x8080808080808080)
}

// 128 in the place of each special byte of eight. The compiler makes one load of them.
pub fn marks_of(eight: &[u8; 8]) -> u64
    ensures { result ≡ packed (marked is_special eight.now) }
{
    marks(u64::from_le_bytes(*eight))
}

// 128 in the place of each byte of eight that starts a slice in standard reading. What differs is the callee alone.
pub fn starts_of(eight: &[u8; 8]) -> u64
    ensures { result ≡ packed (marked is_start eight.now) }
{
    starts(u64::from_le_bytes(*eight))
}
