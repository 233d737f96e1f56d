// The body (01, Body; `Parser::parse` in the crate): the tokens that the header walk leaves become blocks and text in two lent
// rooms, by one machine: a stack of 64 states, the run of units under way, the characters still to be
// passed over, the page, one token at a time.
//
// What one token does is said in `deeds`; `group` tells what of the tokens the walk passes over.
//
// States are lent as an array, run and page as structs: what goes through the loop by value is copied at each token.
#![tactic(auto)]

mod group;

ghost use Rattle.std.specs.Prelude.{◌≡◌, [], ◌*◌, ◌≤◌, length};
ghost use Rattle.tokens.specs.Tokens.{token_words};
ghost use Rattle.tokens.specs.Items.{tokens_all};
ghost use Rattle.walk.specs.Walk.{walk};
ghost use Rattle.machine.specs.Stack.{stack_limit, held};
ghost use Rattle.machine.specs.Machine.{ended, parts, said};
ghost use Rattle.blocks.specs.Laying.{told, on, lay_all, blank as blank_page, Ready, Still};
ghost use Rattle.runs.specs.Runs.{rows, laid_all};
ghost use Rattle.body.specs.Body.{body};

use crate::group::passed;
use answers::Refusal;
use blocks::Page;
use deeds::passing::owed_behind;
use deeds::turn;
use readings::Reading;
use runs::end_run;
use settings::rows::STATES;
use settings::{State, WIDTH};
use tokens::TOKEN_WORDS;
use tokens::item::slice_at;
use units::Run;

// What a run that is under way at the end still owes, and the page.
fn finish(
    states: &[[u32; WIDTH]; STATES],
    depth: usize,
    run: &mut Run,
    page: &mut Page,
    blocks: &mut [u32],
    text: &mut [u8],
) -> Result<Page, Refusal>
    requires { (depth ≤ stack_limit) × (length states.now ≡ stack_limit) × Ready page.old (length blocks.old) (length text.old) }
    ensures laid { told result blocks.new text.new ≡ laid_all (on page.old blocks.old text.old) (said rows (held [] states.now depth) (ended run.old) parts) }
    ensures still { Still result (length blocks.old) (length text.old) }
{
    match end_run(states, depth, run, page, blocks, text) {
        Ok(()) => Ok(*page),
        Err(why) => Err(Refusal::of(why)),
    }
}

// Lays the body of the first `count` tokens.
pub fn lay_body(
    source: &[u8],
    reading: Reading,
    tokens: &[u32],
    count: usize,
    blocks: &mut [u32],
    text: &mut [u8],
) -> Result<Page, Refusal>
    requires { (count * token_words ≤ length tokens.now) × (count ≤ 65536) }
    ensures laid { told result blocks.new text.new ≡ lay_all (on blank_page blocks.old text.old) (body reading (walk (tokens_all source.now count tokens.now))) }
    ensures still { Still result (length blocks.old) (length text.old) }
{
    let mut states = [[0u32; WIDTH]; STATES];
    states[0] = State::fresh().row();
    let mut depth: usize = 1;
    let mut run = Run::before();
    let mut owed: usize = 0;
    let mut page = Page::blank();
    let mut t = tokens;
    let mut n = count;
    // A `while`: a group that the walk passes over goes at once.
    while 0 < n {
        let h = passed(t, n);
        let behind = owed_behind(source, reading, t, &states, depth, owed);
        let moved = turn(
            source,
            reading,
            t,
            h,
            owed,
            &mut states,
            depth,
            &mut run,
            &mut page,
            blocks,
            text,
        );
        owed = behind;
        let here = t;
        let at = (h + 1) * TOKEN_WORDS;
        t = &t[at..];
        n -= h + 1;
        match moved {
            Err(why) => {
                return Err(Refusal::at(why, slice_at(here)));
            }
            Ok(d) => {
                depth = d;
            }
        }
    }
    finish(&states, depth, &mut run, &mut page, blocks, text)
}
