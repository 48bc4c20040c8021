// The lines that the programs print, as bytes in a lent block: from a place on, or alone in a block of 128 bytes, which has room
// for every line.
// Kept: bytes and place as two parameters, as in crate text, for the same reason.
// Kept: a line at a place and a line alone in a block as two functions each: `Wrote` and `PutIn` are two promises, and 0 is one of them.
#![tactic(auto)]

ghost use Rattle.std.specs.Prelude.{◌≡◌, leb, length};
ghost use Rattle.rules.specs.Printing.{decimal, printed_line, hole_fields};
ghost use Rattle.text.specs.Wrote.{Wrote};
ghost use Rattle.print.specs.Line.{decimals, line_room, PutIn, line_fits};

mod fields;

use crate::fields::{put_hole, put_numbers};
use rules::Hole;
use text::{put_byte, put_decimal, put_word};

/// Least bytes of a block for a line.
pub const LINE_ROOM: usize = 128;
// Most bytes of the word that a line of numbers begins with.
const MAX_WORD: usize = 32;
// Most numbers behind it.
const MAX_NUMBERS: usize = 4;

/// A word and numbers, each behind a tab, and LF, from place `at` on as crate text has it.
pub fn put_numbers_line(b: &mut [u8], at: usize, word: &[u8], numbers: &[u64]) -> usize
    ensures { Wrote b.old at (printed_line word.now (decimals numbers.now)) b.new result }
{
    let word_end = put_word(b, at, word);
    let numbers_end = put_numbers(b, word_end, numbers);
    put_byte(b, numbers_end, b'\n')
}

/// A line's hole: line, letter, tool, start, end and radius, parted by tabs, and LF, from place `at` on as crate text has it.
pub fn put_hole_line(b: &mut [u8], at: usize, line: usize, hole: Hole) -> usize
    ensures { Wrote b.old at (printed_line (decimal line) (hole_fields hole)) b.new result }
{
    let line_end = put_decimal(b, at, line as u64);
    let hole_end = put_hole(b, line_end, hole);
    put_byte(b, hole_end, b'\n')
}

// Whether the block has room for every line, the word is short and the numbers are few.
#[tactic(auto, unfolding(crate::specs::Line::line_fits))]
fn has_room(block: &[u8], word: &[u8], numbers: &[u64]) -> bool
    ensures { result ≡ line_fits block.now word.now numbers.now }
{
    LINE_ROOM <= block.len() && word.len() <= MAX_WORD && numbers.len() <= MAX_NUMBERS
}

/// A line of a word and numbers at the front of a block: how many bytes, or 0 where the block has under 128 bytes, the word over
/// 32 or there are over four numbers.
pub fn numbers_line(block: &mut [u8], word: &[u8], numbers: &[u64]) -> usize
    ensures { PutIn (line_fits block.old word.now numbers.now) block.old (printed_line word.now (decimals numbers.now)) block.new result }
{
    if !has_room(block, word, numbers) {
        return 0;
    }
    put_numbers_line(block, 0, word, numbers)
}

/// A line's hole at the front of a block: how many bytes, or 0 where the block has under 128 bytes.
pub fn hole_line(block: &mut [u8], line: usize, hole: Hole) -> usize
    ensures { PutIn (leb line_room (length block.old)) block.old (printed_line (decimal line) (hole_fields hole)) block.new result }
{
    if block.len() < LINE_ROOM {
        return 0;
    }
    put_hole_line(block, 0, line, hole)
}
