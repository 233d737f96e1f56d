// Whether two runs of bytes are the same: `==`, with the two laws that the judge's answers cite.
ghost use Rattle.std.specs.Prelude.{◌≡◌, true};

pub fn same(a: &[u8], b: &[u8]) -> bool
    ensures sound { result ≡ true → a.now ≡ b.now }
    ensures complete { a.now ≡ b.now → result ≡ true }
{
    a == b
}
