// Text in a state, laid onto the page (01, Body; `Parser::add_text_to_document` in the crate).
//
//   lay         bytes
//   character   a scalar value
ghost use Rattle.std.specs.Prelude.{◌≡◌, [], ◌<◌, length, get_or};
ghost use Rattle.utf8.specs.Utf8.{written};
ghost use Rattle.settings.specs.Fields.{style_of};
ghost use Rattle.machine.specs.Stack.{stack_limit};
ghost use Rattle.blocks.specs.Laying.{roomed, add_of, Ready};

use answers::Why;
use blocks::{Page, append, start};
use settings::WIDTH;
use settings::rows::{STATES, style_of};
use utf8::encode;

// Text in the state at place d. It is `blocks::add`, said again here: a function that another crate calls too is not laid into the
// loop, and the style then goes through memory.
pub fn lay(
    states: &[[u32; WIDTH]; STATES],
    d: usize,
    bytes: &[u8],
    page: &mut Page,
    blocks: &mut [u32],
    text: &mut [u8],
) -> Result<(), Why>
    requires { (d < stack_limit) × (length states.now ≡ stack_limit) × Ready page.old (length blocks.old) (length text.old) }
    ensures laid { roomed result page.new blocks.new text.new ≡ add_of page.old (style_of (get_or states.now d [])) bytes.now blocks.old text.old }
    ensures ready { Ready page.new (length blocks.old) (length text.old) }
{
    start(page, style_of(states, d), blocks)?;
    append(page, bytes, blocks, text)
}

// A scalar value in the state at place d.
pub fn character(
    states: &[[u32; WIDTH]; STATES],
    d: usize,
    value: u32,
    page: &mut Page,
    blocks: &mut [u32],
    text: &mut [u8],
) -> Result<(), Why>
    requires { (d < stack_limit) × (length states.now ≡ stack_limit) × Ready page.old (length blocks.old) (length text.old) }
    ensures laid { roomed result page.new blocks.new text.new ≡ add_of page.old (style_of (get_or states.now d [])) (written value) blocks.old text.old }
    ensures ready { Ready page.new (length blocks.old) (length text.old) }
{
    let e = encode(value);
    let bytes = e.bytes;
    lay(states, d, &bytes[..e.length], page, blocks, text)
}
