// What hosts written in C or Rust call: seven exported functions over sources, lists and lent rooms, each a pointer and a length.
// host/elduvarn.h declares them.
//
//   elduvarn_cut                                     a letter's tokens, by a reading that is said by its number
//   elduvarn_read_plain, _paragraphs, _standard      a letter, read whole
//   elduvarn_stored_check, _read, _write             the stored form
//
// Every function is total, and says what the crate below says.
#![tactic(auto)]

pub mod answer;

ghost use Rattle.readings.specs.Readings.{reading_of};
ghost use Rattle.parser.specs.Parsing.{sizes};
ghost use Rattle.host.specs.Exports.{CutFor, ReadFor, CheckFor, StoredFor, WriteFor};

use crate::answer::{
    CutAnswer, ReadAnswer, StoredAnswer, WriteAnswer, of_cut, of_reading, of_stored, of_writing,
};
use answers::number_of;
use reader::read;
use readings::Reading;
use stored::check::check;
use stored::read_list;
use storing::write_list;

#[unsafe(no_mangle)]
pub extern "C" fn elduvarn_cut(source: &[u8], reading: u32, tokens: &mut [u32]) -> CutAnswer
    ensures { CutFor (reading_of reading) source.now tokens.old result tokens.new }
{
    let by = Reading::of(reading);
    let outcome = cutter::cut(source, by, tokens);
    of_cut(outcome)
}

#[unsafe(no_mangle)]
pub extern "C" fn elduvarn_read_plain(
    source: &[u8],
    tokens: &mut [u32],
    fonts: &mut [u32],
    colours: &mut [u32],
    blocks: &mut [u32],
    text: &mut [u8],
) -> ReadAnswer
    ensures { ReadFor Reading.Plain source.now (sizes tokens.old fonts.old colours.old blocks.old text.old)
        result tokens.new fonts.new colours.new blocks.new text.new }
{
    let answer = read(source, Reading::Plain, tokens, fonts, colours, blocks, text);
    of_reading(answer)
}

#[unsafe(no_mangle)]
pub extern "C" fn elduvarn_read_paragraphs(
    source: &[u8],
    tokens: &mut [u32],
    fonts: &mut [u32],
    colours: &mut [u32],
    blocks: &mut [u32],
    text: &mut [u8],
) -> ReadAnswer
    ensures { ReadFor Reading.Paragraphs source.now (sizes tokens.old fonts.old colours.old blocks.old text.old)
        result tokens.new fonts.new colours.new blocks.new text.new }
{
    let answer = read(
        source,
        Reading::Paragraphs,
        tokens,
        fonts,
        colours,
        blocks,
        text,
    );
    of_reading(answer)
}

#[unsafe(no_mangle)]
pub extern "C" fn elduvarn_read_standard(
    source: &[u8],
    tokens: &mut [u32],
    fonts: &mut [u32],
    colours: &mut [u32],
    blocks: &mut [u32],
    text: &mut [u8],
) -> ReadAnswer
    ensures { ReadFor Reading.Standard source.now (sizes tokens.old fonts.old colours.old blocks.old text.old)
        result tokens.new fonts.new colours.new blocks.new text.new }
{
    let answer = read(
        source,
        Reading::Standard,
        tokens,
        fonts,
        colours,
        blocks,
        text,
    );
    of_reading(answer)
}

// The refusal number that reading a stored list would give, rooms counted as ample.
#[unsafe(no_mangle)]
pub extern "C" fn elduvarn_stored_check(list: &[u8]) -> u32
    ensures { CheckFor list.now result }
{
    let outcome = check(list);
    number_of(&outcome)
}

#[unsafe(no_mangle)]
pub extern "C" fn elduvarn_stored_read(
    list: &[u8],
    blocks: &mut [u32],
    text: &mut [u8],
) -> StoredAnswer
    ensures { StoredFor list.now blocks.old text.old result blocks.new text.new }
{
    let answer = read_list(list, blocks, text);
    of_stored(answer)
}

#[unsafe(no_mangle)]
pub extern "C" fn elduvarn_stored_write(blocks: &[u32], text: &[u8], list: &mut [u8]) -> WriteAnswer
    ensures { WriteFor blocks.now text.now list.old result list.new }
{
    let outcome = write_list(blocks, text, list);
    of_writing(outcome)
}
