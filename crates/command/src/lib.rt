// Bytes to a command. The first of them say which forms a line can have. Its form is decided to the line's end before any
// number is asked for its range.
// Kept: bytes and a place side by side, as crate number takes them.
#![tactic(auto)]

ghost use Rattle.std.specs.Prelude.{◌≡◌, ◌≤◌, MatchOption};
ghost use Rattle.number.specs.Capped.{decimal_of, coordinate_read};
ghost use Rattle.rules.specs.Commands.{fewest_declared, tool_digits, says, command_of};
ghost use Rattle.rules.specs.Numbers.{max_tool};
ghost use Rattle.rules.specs.declared.Revision.{Revision};
ghost use Rattle.command.specs.Parts.{number_behind, PairAt, placed, SizeAt, PointLine, ArcLine, DeclareLine, ToolLine, NoWord, said};

use number::Written;
use points::{Arc, Point};
use rules::{Command, LineAnswer, Refusal, Revision};

// The fewest digits of a tool number in a selection.
const FEWEST_SELECTED: usize = 1;

// The most digits of any tool number.
const MOST_DIGITS: usize = 2;

// The column of a tool number: T is the first byte of its line.
const TOOL_COLUMN: usize = 2;

// X, a number, Y, a number, as they are written.
#[derive(Clone, Copy)]
struct Pair {
    x: Written,
    y: Written,
}

impl Pair {
    // The point that it is, or which of its numbers is out of range.
    fn point(self) -> Result<Point, Refusal>
        ensures { result ≡ placed (coordinate_read self.x.column (decimal_of self.x)) (coordinate_read self.y.column (decimal_of self.y)) }
    {
        let x = number::coordinate(self.x)?;
        let y = number::coordinate(self.y)?;
        Ok(Point { x, y })
    }
}

// A letter and a number behind it, from the place `at` on.
#[tactic(auto, using(number::proofs::Runs::stands_within))]
fn number_behind(s: &[u8], at: usize, letter: u8) -> Option<Written>
    ensures { result ≡ number_behind s.now at letter }
{
    if !number::stands(s, at, letter) {
        return None;
    }
    number::signed(s, at + 1)
}

// X, a number, Y, a number from the place `at` on.
#[tactic(auto, using(crate::proofs::Points::pairs))]
fn pair_at(s: &[u8], at: usize) -> Option<Pair>
    ensures { PairAt s.now at result }
{
    let x = number_behind(s, at, b'X')?;
    let y = number_behind(s, x.next, b'Y')?;
    Some(Pair { x, y })
}

// A number without a sign, a diameter or a radius, from the place `at` to the line's end.
#[tactic(auto, using(crate::proofs::Points::size_ends))]
fn size_at(s: &[u8], at: usize) -> Option<Written>
    ensures { SizeAt s.now at result }
{
    number::unsigned(s, at).filter(|size| size.next == s.len())
}

// X#Y# from the place `at` to the line's end.
#[tactic(auto, using(crate::proofs::Points::points))]
fn point_line(s: &[u8], at: usize) -> Result<Point, Refusal>
    ensures { PointLine s.now at result }
{
    let pair = pair_at(s, at).ok_or(Refusal::NoSuchForm)?;
    if pair.y.next != s.len() {
        return Err(Refusal::NoSuchForm);
    }
    pair.point()
}

// X#Y#A# from the place `at` to the line's end.
#[tactic(auto, using(crate::proofs::Points::arcs))]
fn arc_line(s: &[u8], at: usize) -> Result<Arc, Refusal>
    ensures { ArcLine s.now at result }
{
    let pair = pair_at(s, at).ok_or(Refusal::NoSuchForm)?;
    let end = pair.y.next;
    if !number::stands(s, end, b'A') {
        return Err(Refusal::NoSuchForm);
    }
    let radius = size_at(s, end + 1).ok_or(Refusal::NoSuchForm)?;
    Ok(Arc {
        to: pair.point()?,
        radius: number::size(radius)?,
        decimals: radius.places as u32,
    })
}

// The diameter that `tool` is declared with, from the place `at` to the line's end.
#[tactic(auto, using(crate::proofs::Tools::declarations))]
fn declare_line(s: &[u8], at: usize, tool: u32) -> Result<Command, Refusal>
    requires { tool ≤ max_tool }
    ensures { DeclareLine s.now at tool result }
{
    let diameter = size_at(s, at).ok_or(Refusal::NoSuchForm)?;
    if tool == 0 {
        return Err(rules::out_of_range(TOOL_COLUMN));
    }
    Ok(Command::Declare(tool, number::size(diameter)?))
}

// The fewest digits of a tool number in a declaration: all that a revision decides.
fn fewest_declared(revision: Revision) -> usize
    ensures { result ≡ fewest_declared revision }
{
    match revision {
        Revision::Rev2019 => 1,
        Revision::Rev2021 => 2,
    }
}

// Are these as many digits as a tool number may have, where it has `fewest` at least?
fn tool_digits(fewest: usize, digits: usize) -> bool
    ensures { result ≡ tool_digits fewest digits }
{
    (fewest..=MOST_DIGITS).contains(&digits)
}

// T, a tool number; or T, a tool number, C, a number. How many digits a tool number has is form.
#[tactic(auto, using(crate::proofs::Tools::tools))]
fn tool_line(s: &[u8], revision: Revision) -> Result<Command, Refusal>
    ensures { ToolLine revision s.now result }
{
    let tool = number::run_at(s, 1);
    let end = tool.next;
    let digits = end - 1;
    if number::stands(s, end, b'C') {
        if !tool_digits(fewest_declared(revision), digits) {
            return Err(Refusal::NoSuchForm);
        }
        return declare_line(s, end + 1, tool.value);
    }
    if !tool_digits(FEWEST_SELECTED, digits) || end != s.len() {
        return Err(Refusal::NoSuchForm);
    }
    if tool.value == 0 {
        return Err(rules::out_of_range(TOOL_COLUMN));
    }
    Ok(Command::Select(tool.value))
}

// The commands that are a word.
#[tactic(auto, using(crate::proofs::Words::words))]
fn word(s: &[u8]) -> Option<Command>
    ensures { MatchOption result (NoWord s.now) (λ c. (rev : Revision) → says c ≡ command_of rev s.now) }
{
    match s {
        b"M48" => Some(Command::M48),
        b"METRIC" => Some(Command::Metric),
        b"INCH" => Some(Command::Inch),
        b"%" => Some(Command::Percent),
        b"G05" => Some(Command::G05),
        b"M15" => Some(Command::M15),
        b"M16" => Some(Command::M16),
        b"M30" => Some(Command::M30),
        _ => None,
    }
}

// What a line says. After its `;` a comment holds no second one.
#[tactic(auto, using(crate::proofs::Lines::lines))]
fn command(s: &[u8], revision: Revision) -> Result<Command, Refusal>
    ensures { said result ≡ command_of revision s.now }
{
    match s {
        [b'X', ..] => point_line(s, 0).map(Command::Hit),
        [b'G', b'0', b'0', ..] => point_line(s, 3).map(Command::G00),
        [b'G', b'0', b'1', ..] => point_line(s, 3).map(Command::G01),
        [b'G', b'0', b'2', ..] => arc_line(s, 3).map(Command::G02),
        [b'G', b'0', b'3', ..] => arc_line(s, 3).map(Command::G03),
        [b'T', ..] => tool_line(s, revision),
        [b';', text @ ..] if !text.contains(&b';') => Ok(Command::Comment),
        _ => word(s).ok_or(Refusal::NoSuchForm),
    }
}

/// What bytes without a line's end say by a revision: a command, or the refusal 5 or, in its column, 7.
pub fn read(s: &[u8], revision: Revision) -> LineAnswer
    ensures { result ≡ command_of revision s.now }
{
    LineAnswer {
        command: command(s, revision),
    }
}
