// The reader: a letter's bytes become tokens, tables, blocks and text in five lent rooms, or one refusal (`Lexer::scan` and
// `Parser::parse` in the crate): answers 1 to 20 in 01's order; each room holds its records and zeros, or zeros alone.
//
// `read` is total: every source, every size of room, each of the two readings. What it knows of the cutter and the parser is what
// they promise.
#![tactic(auto)]

ghost use Rattle.std.specs.Prelude.{◌≡◌, ◌≤◌, length, replicate};
ghost use Rattle.cutter.specs.Cutting.{cut_room};
ghost use Rattle.parser.specs.declared.Counts.{Counts};
ghost use Rattle.parser.specs.Parsing.{sizes};
ghost use Rattle.parser.specs.Parts.{LetterInto};
ghost use Rattle.reader.specs.Reading.{letter_of, token_count, Reads};

use answers::Refusal;
use cutter::cut;
use parser::{Counts, parse};
use readings::Reading;
use rooms::clear_from;

// Cuts and parses. After a refusal the rooms may hold anything.
fn attempt(
    source: &[u8],
    reading: Reading,
    tokens: &mut [u32],
    fonts: &mut [u32],
    colours: &mut [u32],
    blocks: &mut [u32],
    text: &mut [u8],
) -> Result<Counts, Refusal>
    ensures token_room { tokens.new ≡ cut_room reading source.now (length tokens.old) }
    ensures few { (k : Counts) → result ≡ Ok k → token_count reading source.now ≤ 65536 }
    ensures letter { LetterInto (letter_of reading source.now (sizes tokens.old fonts.old colours.old blocks.old text.old)) (token_count reading source.now) result fonts.new colours.new blocks.new text.new (length fonts.old) (length colours.old) (length blocks.old) (length text.old) }
{
    let n = cut(source, reading, tokens)?;
    parse(source, reading, tokens, n, fonts, colours, blocks, text)
}

// A refusal, and every room all zero.
fn refuse(
    refusal: Refusal,
    tokens: &mut [u32],
    fonts: &mut [u32],
    colours: &mut [u32],
    blocks: &mut [u32],
    text: &mut [u8],
) -> Result<Counts, Refusal>
    ensures answer { result ≡ Err refusal }
    ensures token_room { tokens.new ≡ replicate (length tokens.old) 0 }
    ensures font_room { fonts.new ≡ replicate (length fonts.old) 0 }
    ensures colour_room { colours.new ≡ replicate (length colours.old) 0 }
    ensures block_room { blocks.new ≡ replicate (length blocks.old) 0 }
    ensures text_room { text.new ≡ replicate (length text.old) 0 }
{
    clear_from(tokens, 0, 0);
    clear_from(fonts, 0, 0);
    clear_from(colours, 0, 0);
    clear_from(blocks, 0, 0);
    clear_from(text, 0, 0);
    Err(refusal)
}

// Reads a letter.
pub fn read(
    source: &[u8],
    reading: Reading,
    tokens: &mut [u32],
    fonts: &mut [u32],
    colours: &mut [u32],
    blocks: &mut [u32],
    text: &mut [u8],
) -> Result<Counts, Refusal>
    ensures { Reads reading source.now (sizes tokens.old fonts.old colours.old blocks.old text.old)
        result tokens.new fonts.new colours.new blocks.new text.new }
{
    match attempt(source, reading, tokens, fonts, colours, blocks, text) {
        Err(refusal) => refuse(refusal, tokens, fonts, colours, blocks, text),
        Ok(counts) => Ok(counts),
    }
}
