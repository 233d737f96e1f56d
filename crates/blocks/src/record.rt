// A block's record in a room (01, Body; 02, A5): the words of its style, and place and length of its text.
//
//   lay        words one after the other
//   put        a record
//   style_in   the style that a record says
ghost use Rattle.std.specs.Prelude.{◌≡◌, [], ◌∷◌, ◌++◌, ◌+◌, ◌≤◌, ◌<◌, length};
ghost use Rattle.std.proofs.lemmas.List.Edits.{sets};
ghost use Rattle.rooms.specs.Rooms.{put as put_words, capacity};
ghost use Rattle.styles.specs.Styles.{style_words};
ghost use Rattle.blocks.specs.Pages.{block_words};
ghost use Rattle.blocks.specs.Laying.{style_in};

use crate::{BLOCK_WORDS, TEXT_LENGTH, TEXT_PLACE};
use styles::Style;

fn lay(words: &[u32], room: &mut [u32], at: usize)
    requires { at + length words.now ≤ length room.old }
    ensures { room.new ≡ sets room.old at words.now }
{
    let mut i = 0;
    while i < words.len() {
        room[at + i] = words[i];
        i += 1;
    }
}

// A record at place n, if the room holds that place.
pub fn put(room: &mut [u32], n: usize, s: Style, place: u32, count: u32)
    ensures { room.new ≡ put_words block_words room.old n (style_words s ++ (place ∷ count ∷ [])) }
{
    if n < room.len() / BLOCK_WORDS {
        let at = n * BLOCK_WORDS;
        let words = s.words();
        lay(&words, room, at);
        room[at + TEXT_PLACE] = place;
        room[at + TEXT_LENGTH] = count;
    }
}

// The style that record n says.
pub fn style_in(room: &[u32], n: usize) -> Style
    requires { n < capacity block_words (length room.now) }
    ensures { result ≡ style_in room.now n }
{
    let at = n * BLOCK_WORDS;
    Style::at(&room[at..])
}
