// What the programs print and read: lines on standard output, each made by crate print; a file from standard input. Output that
// can't be written is passed over, and the program goes on.
#![tactic(auto)]

pub mod arguments;

ghost use Rattle.std.specs.Prelude.{◌≤◌, length, IfOk};

use print::LINE_ROOM;
use rules::Hole;
use std::io;
use std::io::{Print, Read};

/// Standard input can't be read.
#[derive(Clone, Copy, PartialEq, Eq)]
pub struct Unreadable;

/// Why there is no line of standard input: it is too long, or can't be read.
#[derive(Clone, Copy, PartialEq, Eq)]
pub enum LineFault {
    TooLong,
    Unreadable,
}

// Bytes of a line after which its LF is no longer looked for, so that endless input ends.
const MAX_INPUT_LINE: usize = 1048576;

/// Bytes as they are.
pub fn word(output: &impl Print, text: &[u8]) {
    let _ = output.write_all(text);
}

/// A line of a word and at most four numbers, parted by tabs.
pub fn numbers(output: &impl Print, word: &[u8], numbers: &[u64]) {
    let mut block = [0u8; LINE_ROOM];
    let length = print::numbers_line(&mut block, word, numbers);
    let _ = output.write_all(&block[..length]);
}

/// A line's hole.
pub fn hole(output: &impl Print, line: usize, hole: Hole) {
    let mut block = [0u8; LINE_ROOM];
    let length = print::hole_line(&mut block, line, hole);
    let _ = output.write_all(&block[..length]);
}

/// `refused`, then the number, the line and the column of a refusal: any three numbers.
pub fn refused(output: &impl Print, fields: &[u64; 3]) {
    numbers(output, b"refused", fields);
}

fn cannot_read(errors: &impl Print) {
    let _ = errors.write_all(b"standard input can't be read\n");
}

// The next byte of standard input, if it has not ended. One byte and no more: what follows it stays for the next read.
fn read_byte(input: &mut impl Read) -> io::Result<Option<u8>> {
    let mut one = [0u8; 1];
    if input.read(&mut one)? == 0 {
        return Ok(None);
    }
    Ok(Some(one[0]))
}

/// Reads one line of standard input and its LF: how many of its bytes the block holds. Bytes for which it has no room are dropped.
pub fn read_line(
    input: &mut impl Read,
    errors: &impl Print,
    block: &mut [u8],
) -> Result<usize, LineFault>
    ensures { IfOk result (λ n. n ≤ length block.old) }
{
    let mut got = 0;
    for _ in 0..MAX_INPUT_LINE {
        let Ok(next) = read_byte(input) else {
            cannot_read(errors);
            return Err(LineFault::Unreadable);
        };
        let Some(byte) = next else {
            return Ok(got);
        };
        if byte == b'\n' {
            return Ok(got);
        }
        if got < block.len() {
            block[got] = byte;
            got += 1;
        }
    }
    Err(LineFault::TooLong)
}

/// Reads standard input until it ends or the block is full: how many bytes. Nothing but a failed read is an error.
pub fn read_input(
    input: &mut impl Read,
    errors: &impl Print,
    block: &mut [u8],
) -> Result<usize, Unreadable>
    ensures { IfOk result (λ n. n ≤ length block.old) }
{
    let mut got = 0;
    // Kept: how far each read comes is the input's to say, so no count of turns is known.
    while got < block.len() {
        match input.read(&mut block[got..]) {
            Ok(0) => {
                return Ok(got);
            }
            Ok(more) => {
                got += more;
            }
            Err(_) => {
                cannot_read(errors);
                return Err(Unreadable);
            }
        }
    }
    Ok(got)
}
