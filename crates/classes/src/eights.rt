// Eight bytes looked at as one number, the first one lowest, with 128 in the place of each byte that is marked.
ghost use Rattle.std.specs.Prelude.{◌≡◌, Bool, List, ℕ, length};
ghost use Rattle.classes.specs.Bytes.{lead};
ghost use Rattle.classes.specs.Eights.{packed, marked, outside};

// How many of eight bytes stand before the first that is marked.
pub fn first_mark(m: u64) -> usize
    ensures { (f : ℕ → Bool) (s : List ℕ) → length s ≡ 8 → m ≡ packed (marked f s) → result ≡ lead (outside f) s }
{
    (m.trailing_zeros() / 8) as usize
}
