// Units: the numbers of adjacent `u` tokens become scalar values, token by token (01, Body; `ControlWord::Unicode` in the
// crate's `Parser::parse`, and `String::from_utf16`).
//
//   Run             what has come of a run so far
//   step            one token: it is skipped, waits for the other half of its pair, or gives a value
//   standard_step   the same by the specification (02, A1): no unit is skipped, and a token without one ends the run
//
// Every public function is total. A surrogate that is no part of a pair gives U+FFFD.
#![tactic(auto)]

ghost use Rattle.std.specs.Prelude.{◌≡◌, ltb};
ghost use Rattle.units.specs.Units.{is_high, is_low, alone as alone_of, pair as pair_of, before as before_of, nothing as nothing_of, cut_short, taken as taken_of, met as met_of, step as step_of, standard_step};

// Whether a unit has come, how many were skipped since the last kept one, a high surrogate that waits (0 if none does).
#[derive(Clone, Copy)]
pub struct Run {
    pub begun: bool,
    pub skipped: u32,
    pub high: u32,
}

impl Run {
    // No unit has come.
    pub fn before() -> Run
        ensures { result ≡ before_of }
    {
        Run {
            begun: false,
            skipped: 0,
            high: 0,
        }
    }
}

// What a token gives: U+FFFD for a waiting surrogate if `lost`, and then a value or none.
#[derive(Clone, Copy)]
pub struct Gave {
    pub run: Run,
    pub lost: bool,
    pub value: Option<u32>,
}

fn is_high(u: u32) -> bool
    ensures { result ≡ is_high u }
{
    (0xD800 <= u) & (u <= 0xDBFF)
}

fn is_low(u: u32) -> bool
    ensures { result ≡ is_low u }
{
    (0xDC00 <= u) & (u <= 0xDFFF)
}

// A unit that is no part of a pair.
fn alone(u: u32) -> u32
    ensures { result ≡ alone_of u }
{
    if (0xD800 <= u) & (u <= 0xDFFF) {
        return 0xFFFD;
    }
    u
}

// The value of a pair: ten low bits of each half.
fn pair(high: u32, low: u32) -> u32
    ensures { result ≡ pair_of high low }
{
    let bits = ((high & 1023) << 10) | (low & 1023);
    bits + 0x10000
}

// A token that gives no value.
fn nothing(run: Run) -> Gave
    ensures { result ≡ nothing_of run }
{
    Gave {
        run: run,
        lost: false,
        value: None,
    }
}

// A unit that is kept.
fn taken(run: Run, u: u32) -> Gave
    ensures { result ≡ taken_of run u }
{
    let high = run.high;
    let lost = 0 < high;
    if lost & is_low(u) {
        let value = pair(high, u);
        let next = Run {
            begun: true,
            skipped: 0,
            high: 0,
        };
        return Gave {
            run: next,
            lost: false,
            value: Some(value),
        };
    }
    if is_high(u) {
        let next = Run {
            begun: true,
            skipped: 0,
            high: u,
        };
        return Gave {
            run: next,
            lost: lost,
            value: None,
        };
    }
    let value = alone(u);
    let next = Run {
        begun: true,
        skipped: 0,
        high: 0,
    };
    Gave {
        run: next,
        lost: lost,
        value: Some(value),
    }
}

// A unit: skipped, or kept.
fn met(skip: u32, run: Run, u: u32) -> Gave
    ensures { result ≡ met_of skip run u }
{
    let begun = run.begun;
    let skipped = run.skipped;
    // a skip count below zero skips nothing
    if begun & ((u <= 255) & ((skip < 2147483648) & (skipped < skip))) {
        let more = skipped + 1;
        return nothing(Run {
            begun: true,
            skipped: more,
            high: run.high,
        });
    }
    taken(run, u)
}

// A token's number: a negative gets 65,536 added; outside 0 to 65,535, or no number, gives no unit.
pub fn step(skip: u32, run: Run, number: Option<u32>) -> Gave
    ensures { result ≡ step_of skip run number }
{
    match number {
        None => nothing(run),
        Some(v) => {
            if v < 65536 {
                return met(skip, run, v);
            }
            if 4294901760 <= v {
                return met(skip, run, v - 4294901760);
            }
            nothing(run)
        }
    }
}

// What ends a run: a surrogate that waits is lost.
fn cut_short(run: Run) -> Gave
    ensures { result ≡ cut_short run }
{
    Gave {
        run: Run::before(),
        lost: 0 < run.high,
        value: None,
    }
}

// A token's number by the specification.
pub fn standard_step(run: Run, number: Option<u32>) -> Gave
    ensures { result ≡ standard_step run number }
{
    match number {
        None => cut_short(run),
        Some(v) => {
            if v < 65536 {
                return taken(run, v);
            }
            if 4294901760 <= v {
                return taken(run, v - 4294901760);
            }
            cut_short(run)
        }
    }
}
