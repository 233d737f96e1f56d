// Windows-1252: the character of a byte (02, A1), as Microsoft publishes the table. Bytes 128 to 159 are its own; the others are the
// character of their number. Total: what is no byte, and a byte without a character, is U+FFFD.
#![tactic(auto)]

ghost use Rattle.std.specs.Prelude.{◌≡◌};
ghost use Rattle.windows.specs.Windows.{own, windows1252};

// The characters of bytes 128 to 159.
fn own_characters() -> [u32; 32]
    ensures { result ≡ own }
{
    [
        0x20AC, 0xFFFD, 0x201A, 0x0192, 0x201E, 0x2026, 0x2020, 0x2021, 0x02C6, 0x2030, 0x0160,
        0x2039, 0x0152, 0xFFFD, 0x017D, 0xFFFD, 0xFFFD, 0x2018, 0x2019, 0x201C, 0x201D, 0x2022,
        0x2013, 0x2014, 0x02DC, 0x2122, 0x0161, 0x203A, 0x0153, 0xFFFD, 0x017E, 0x0178,
    ]
}

pub fn character(b: u32) -> u32
    ensures { result ≡ windows1252 b }
{
    match b {
        0..=127 => b,
        128..=159 => {
            let own = own_characters();
            own[(b - 128) as usize]
        }
        160..=255 => b,
        _ => 0xFFFD,
    }
}
