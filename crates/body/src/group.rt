// Groups that the header walk passes over or reads as a table: the body reads them as one (01, Body).
ghost use Rattle.std.specs.Prelude.{◌≡◌, List, ℕ, ◌*◌, ◌-◌, ◌≤◌, ◌<◌, length};
ghost use Rattle.tokens.specs.Tokens.{token_words};
ghost use Rattle.tokens.specs.Items.{item_at, shown_of, shown_all};
ghost use Rattle.tokens.proofs.Items.{rest};
ghost use Rattle.walk.specs.Walk.{passed_by, entered_length, aim as aim_of};

use tokens::item::kind_at;
use tokens::{Kind, TOKEN_WORDS};
use walk::{Aim, aim_of, extent};

// How many tokens behind an opening bracket belong to such a group. Most often a text, a bracket or no token stands there, and none
// do.
fn group_length(rest: &[u32], left: usize) -> usize
    requires { left * token_words ≤ length rest.now }
    ensures { ((src : List ℕ) → result ≡ entered_length (aim_of (shown_all src left rest.now)) (shown_all src left rest.now)) × (result ≤ left) }
{
    if left == 0 {
        return 0;
    }
    if rest[0] < Kind::LineBreak.number() {
        return 0;
    }
    let a = aim_of(rest, left);
    match a {
        Aim::Nothing => 0,
        Aim::Hide => extent(rest, left),
        Aim::Fonts(_) => extent(rest, left),
        Aim::Colours(_) => extent(rest, left),
    }
}

// How many of n tokens the walk passes over behind the first.
pub fn passed(t: &[u32], n: usize) -> usize
    requires { (0 < n) × (n * token_words ≤ length t.now) }
    ensures { ((src : List ℕ) → result ≡ passed_by (shown_of src (item_at t.now)) (shown_all src (n - 1) (rest t.now token_words))) × (result ≤ n - 1) }
{
    match kind_at(t) {
        Kind::Opening => group_length(&t[TOKEN_WORDS..], n - 1),
        _ => 0,
    }
}
