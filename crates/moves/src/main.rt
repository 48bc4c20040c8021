// Prints what else on the board moves when one line of an XNC file changes. Standard input has the line's number, a tab and the
// new text on its first line; the file follows. Holes and tools that differ go to standard output. The argument 2019 has file and
// text read by that revision.
#![tactic(auto)]

ghost use Rattle.std.specs.Prelude.{◌≡◌};
ghost use Rattle.rules.specs.Asking.{hole_answer};
ghost use Rattle.moves.specs.Moves as Moves;

use rules::{Counts, Hole, MAX_FILE, MAX_TOOL, Refusal, Revision, TABLE_ROOM};
use show::LineFault;
use std::io::{Print, Read};

// Kept: number by number, and no `==`, so that an edit that takes one number for another is refused for what it says.
#[tactic(auto, unfolding(crate::specs::Moves::same_hole))]
fn same_hole(a: Hole, b: Hole) -> bool
    ensures { result ≡ Moves.same_hole a b }
{
    a.kind == b.kind
        && a.tool == b.tool
        && a.radius == b.radius
        && a.start.same(b.start)
        && a.end.same(b.end)
}

// Whether a line's hole moved, came or went.
fn differs(old: Option<Hole>, new: Option<Hole>) -> bool
    ensures { result ≡ Moves.differ old new }
{
    match (old, new) {
        (Some(a), Some(b)) => !same_hole(a, b),
        _ => old.is_some() || new.is_some(),
    }
}

fn print_span(output: &impl Print, line: usize, meeting: usize) {
    let fields = [line as u64, meeting as u64];
    show::numbers(output, b"span", &fields);
}

// A line's hole, if it makes one, behind the sign of the table it is in and a tab.
fn print_hole(output: &impl Print, sign: &[u8], line: usize, hole: Option<Hole>) {
    if let Some(hole) = hole {
        show::word(output, sign);
        show::hole(output, line, hole);
    }
}

// A line's hole, if it makes one. A refused question is no hole.
fn hole(table: &[i32], n: usize, line: usize) -> Option<Hole>
    ensures { result ≡ Moves.made (hole_answer table.now n line) }
{
    query::hole(table, n, line).unwrap_or(None)
}

// A table of n rows before an edit and after it.
#[derive(Clone, Copy)]
struct Boards<'a> {
    old: &'a [i32],
    new: &'a [i32],
    n: usize,
}

// The old and the new hole of a line where they differ, and whether they do.
fn print_move(output: &impl Print, boards: Boards, line: usize) -> bool {
    let before = hole(boards.old, boards.n, line);
    let after = hole(boards.new, boards.n, line);
    if differs(before, after) {
        print_hole(output, b"-\t", line, before);
        print_hole(output, b"+\t", line, after);
        return true;
    }
    false
}

// The holes that differ from a line to the meeting line, and how many lines have one.
fn print_moves(output: &impl Print, boards: Boards, line: usize, meeting: usize) -> usize {
    let mut count: usize = 0;
    for passed in line..=meeting {
        if print_move(output, boards, passed) {
            count = count.saturating_add(1);
        }
    }
    count
}

// A tool's diameters, where they differ. One that isn't declared has none, and is printed as 0.
fn print_tool(output: &impl Print, boards: Boards, tool: u32) {
    let before = query::diameter(boards.old, boards.n, tool).ok();
    let after = query::diameter(boards.new, boards.n, tool).ok();
    if before != after {
        let fields = [
            u64::from(tool),
            u64::from(before.unwrap_or(0)),
            u64::from(after.unwrap_or(0)),
        ];
        show::numbers(output, b"tool", &fields);
    }
}

// The tools whose diameter differs, by number.
fn print_tools(output: &impl Print, boards: Boards) {
    for tool in 1..=MAX_TOOL {
        print_tool(output, boards, tool);
    }
}

fn print_count(output: &impl Print, count: usize) {
    let fields = [count as u64];
    show::numbers(output, b"moved", &fields);
}

// The edit goes into a copy, so that both tables can be asked.
fn try_edit(
    output: &impl Print,
    old: &[i32; TABLE_ROOM],
    n: usize,
    line: usize,
    text: &[u8],
    revision: Revision,
    counts: Counts,
) {
    let mut new = *old;
    let edited = editor::edit(&mut new, n, line, text, revision, counts);
    match edited.answer {
        Err(refused) => show::refused(output, &refused.numbers()),
        Ok(meeting) => {
            let boards = Boards { old, new: &new, n };
            print_span(output, line, meeting);
            let count = print_moves(output, boards, line, meeting);
            print_tools(output, boards);
            print_count(output, count);
        }
    }
}

// The number that at most four digits give; 0, which no digit or only zeros give, is no line's. Other bytes give none.
fn line_number(digits: &[u8]) -> Option<usize> {
    if 4 < digits.len() {
        return None;
    }
    let mut line: usize = 0;
    for &digit in digits {
        if !digit.is_ascii_digit() {
            return None;
        }
        line = line * 10 + (digit - b'0') as usize;
    }
    Some(line)
}

// The line's number and its new text, parted by the first tab.
fn parted(first: &[u8]) -> Option<(usize, &[u8])> {
    let tab = first.iter().position(|byte| *byte == b'\t')?;
    let line = line_number(&first[..tab])?;
    Some((line, &first[tab + 1..]))
}

fn answer(
    output: &impl Print,
    old: &[i32; TABLE_ROOM],
    n: usize,
    first: &[u8],
    revision: Revision,
    counts: Counts,
) {
    let Some((line, text)) = parted(first) else {
        show::refused(output, &Refusal::NoSuchLine.at(0).numbers());
        return;
    };
    try_edit(output, old, n, line, text, revision, counts);
}

fn report(output: &impl Print, first: &[u8], file: &[u8], revision: Revision) {
    let mut old = [0i32; TABLE_ROOM];
    let read = reader::read(file, revision, &mut old);
    match read.answer {
        Err(refused) => show::refused(output, &refused.numbers()),
        Ok(n) => answer(output, &old, n, first, revision, read.counts),
    }
}

// Kept: alike in each program, and short. A function that is handed what to do with the file would be no plainer.
fn read_file(
    input: &mut impl Read,
    output: &impl Print,
    errors: &impl Print,
    first: &[u8],
    revision: Revision,
) {
    // One byte more than a file may have, so that a longer one is seen.
    let mut file = [0u8; MAX_FILE + 1];
    if let Ok(got) = show::read_input(input, errors, &mut file) {
        report(output, first, &file[..got], revision);
    }
}

fn read_first(input: &mut impl Read, output: &impl Print, errors: &impl Print, revision: Revision) {
    // More than a number, a tab and the longest new line: what doesn't fit would be refused anyway.
    let mut first = [0u8; 1024];
    match show::read_line(input, errors, &mut first) {
        Ok(got) => read_file(
            input,
            output,
            errors,
            line::text_of(&first[..got]),
            revision,
        ),
        Err(LineFault::TooLong) => show::refused(output, &Refusal::FileTooLong.at(0).numbers()),
        Err(LineFault::Unreadable) => {}
    }
}

fn main(rt: HostRuntime) {
    let errors = rt.stderr();
    let chosen = show::arguments::chosen_revision(
        &rt,
        &errors,
        b"usage: moves [2019|2021], and on standard input a line's number, a tab and its new text, then the file\n",
    );
    if let Some(revision) = chosen {
        read_first(&mut rt.stdin(), &rt.stdout(), &errors, revision);
    }
}
