// The things that document 01 speaks of, as types, with its sizes and refusals by name. What they mean stands in specs/,
// a file for each section.
#![tactic(auto)]

pub mod kind;
pub mod motion;
pub mod phase;
mod steps;
pub mod unit;

ghost use Rattle.std.specs.Prelude.{◌≡◌};
ghost use Rattle.rules.specs.Refusals.{refusal_number, refusal_column, forbidden_byte, out_of_range};
ghost use Rattle.rules.specs.Results.{at_line, refused_numbers};

use points::{Arc, Point};
use tools::Tools;

/// Most bytes of a file.
pub const MAX_FILE: usize = 65536;
/// Most lines of a file.
pub const MAX_LINES: usize = 1000;
/// Most bytes of a line, its end not counted.
pub const MAX_LINE: usize = 256;
/// The largest coordinate, diameter and radius, in millionths.
pub const MAX_NUMBER: u32 = 999999999;
/// Most digits after the point.
pub const MAX_PLACES: u32 = 6;
/// The largest tool number.
pub const MAX_TOOL: u32 = 99;
/// How many tools there are: a number for each stands at the tool's number less one.
pub const TOOLS: usize = 99;
/// The largest count that an edit takes in.
pub const MAX_COUNT: u32 = 1000;
/// Lent numbers of a row.
pub const ROW_WIDTH: usize = 16;
/// Lent numbers of the longest table.
pub const TABLE_ROOM: usize = ROW_WIDTH * MAX_LINES;

/// The column of a refusal that names none.
// Kept: 0, and no option: out_of_range promises every column.
pub const NO_COLUMN: usize = 0;

/// 7 for a question's tool, which is in no text.
pub const NO_SUCH_TOOL: Refusal = Refusal::OutOfRange(NO_COLUMN);

/// The revision of XNC by whose rule a line is read. It decides how a declaration is written, and nothing else.
#[derive(Clone, Copy)]
pub enum Revision {
    Rev2019,
    Rev2021,
}

/// One kind together with the numbers that kind carries.
#[derive(Clone, Copy)]
pub enum Command {
    Comment,
    M48,
    Metric,
    Inch,
    Declare(u32, u32),
    Percent,
    G05,
    G00(Point),
    Select(u32),
    Hit(Point),
    M15,
    M16,
    G01(Point),
    G02(Arc),
    G03(Arc),
    M30,
}

/// What a line leaves for the next. It starts all zero.
#[derive(Clone, Copy, PartialEq, Eq)]
pub struct State {
    pub phase: u32,
    pub unit: u32,
    pub motion: u32,
    pub tool: u32,
    pub at: Point,
    pub tools: Tools,
}

/// Why something is refused, in the order in which it is tested. 4 and 7 name the column in their line; columns count from 1.
#[derive(Clone, Copy, PartialEq, Eq)]
pub enum Refusal {
    /// 1: the file is over 65,536 bytes.
    FileTooLong,
    /// 2: a 1,001st line begins.
    TooManyLines,
    /// 3: the line has no LF.
    LineNotEnded,
    /// 6: the line is over 256 bytes.
    LineTooLong,
    /// 4: a byte outside 32 to 126, the first of them in this column.
    ForbiddenByte(usize),
    /// 5: no command has this form.
    NoSuchForm,
    /// 7: a number or tool number out of range, or over six decimals; the leftmost begins in this column.
    OutOfRange(usize),
    /// 8: the command is not allowed in this phase.
    WrongPhase,
    /// 12: the command is not allowed in this motion.
    WrongMotion,
    /// 9: the tool is declared already.
    DeclaredAlready,
    /// 10: the tool is not declared.
    NotDeclared,
    /// 11: no tool is selected.
    NoToolSelected,
    /// 13: there is no such arc.
    ImpossibleArc,
    /// 14: the lines end before M30.
    EndsTooSoon,
    /// 15: what is lent is too short.
    NoRoom,
    /// 16: the table has no such line.
    NoSuchLine,
    /// 17: the new line holds a CR or LF.
    HoldsLineEnd,
    /// 18: the table is not a good one.
    BadTable,
}

/// A refusal and the line that it is given at; 0 where it is no line's.
#[derive(Clone, Copy)]
pub struct Refused {
    pub refusal: Refusal,
    pub line: usize,
}

/// What a line's bytes say: the command, or why they say none.
// Kept: a struct, which document 01 names as the form.
#[derive(Clone, Copy)]
pub struct LineAnswer {
    pub command: Result<Command, Refusal>,
}

/// A row of a table: a command, and the state after it.
#[derive(Clone, Copy)]
pub struct Row {
    pub command: Command,
    pub state: State,
}

/// What a hit or a rout takes out of the board. The kind is the command's.
#[derive(Clone, Copy, PartialEq, Eq)]
pub struct Hole {
    pub kind: u32,
    pub tool: u32,
    pub start: Point,
    pub end: Point,
    pub radius: u32,
}

/// A way of making holes: the first and the last of its kinds.
#[derive(Clone, Copy)]
pub struct Way {
    pub first: u32,
    pub last: u32,
}

pub const HITS: Way = Way {
    first: kind::HIT,
    last: kind::HIT,
};

pub const ROUTS: Way = Way {
    first: kind::G01,
    last: kind::G03,
};

/// How many hits and how many routs each tool makes, tool 1 first.
// Kept: two arrays side by side, which document 02's #103 names as the form.
#[derive(Clone, Copy)]
pub struct Counts {
    pub hits: [u32; TOOLS],
    pub routs: [u32; TOOLS],
}

/// What reading or editing answers, the number of lines or the meeting line, and the counts that go with the table afterwards.
#[derive(Clone, Copy)]
pub struct Counted {
    pub answer: Result<usize, Refused>,
    pub counts: Counts,
}

impl Refusal {
    /// Its number in document 01.
    pub fn number(self) -> u32
        ensures { result ≡ refusal_number self }
    {
        match self {
            Self::FileTooLong => 1,
            Self::TooManyLines => 2,
            Self::LineNotEnded => 3,
            Self::LineTooLong => 6,
            Self::ForbiddenByte(_) => 4,
            Self::NoSuchForm => 5,
            Self::OutOfRange(_) => 7,
            Self::WrongPhase => 8,
            Self::WrongMotion => 12,
            Self::DeclaredAlready => 9,
            Self::NotDeclared => 10,
            Self::NoToolSelected => 11,
            Self::ImpossibleArc => 13,
            Self::EndsTooSoon => 14,
            Self::NoRoom => 15,
            Self::NoSuchLine => 16,
            Self::HoldsLineEnd => 17,
            Self::BadTable => 18,
        }
    }

    /// The column that it names, 0 where it names none.
    pub fn column(self) -> usize
        ensures { result ≡ refusal_column self }
    {
        match self {
            Self::ForbiddenByte(column) | Self::OutOfRange(column) => column,
            _ => NO_COLUMN,
        }
    }

    /// The refusal, given at a line.
    pub fn at(self, line: usize) -> Refused
        ensures { result ≡ at_line self line }
    {
        Refused {
            refusal: self,
            line,
        }
    }
}

impl Refused {
    /// Its number, its line and its column, in the order in which they are printed.
    pub fn numbers(self) -> [u64; 3]
        ensures { result ≡ refused_numbers self }
    {
        [
            u64::from(self.refusal.number()),
            self.line as u64,
            self.refusal.column() as u64,
        ]
    }
}

// Kept: two functions beside the variants: docs/PROMISES.md has their promises.
/// 4, in the column of the first forbidden byte.
pub fn forbidden_byte(column: usize) -> Refusal
    ensures { result ≡ forbidden_byte column }
{
    Refusal::ForbiddenByte(column)
}

/// 7, in the column of the leftmost number that is out of range.
pub fn out_of_range(column: usize) -> Refusal
    ensures { result ≡ out_of_range column }
{
    Refusal::OutOfRange(column)
}
