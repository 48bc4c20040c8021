// One row in lent numbers: which numbers a row may have, and the row that they are.
#![tactic(auto)]

ghost use Rattle.std.specs.Prelude.{◌≡◌, ◌&&◌, ◌+◌, ◌<◌};
ghost use Rattle.rules.specs.Kinds as Kinds;
ghost use Rattle.rules.specs.Rows as R;
ghost use Rattle.row.specs.Parts as P;
ghost use Rattle.row.specs.Row as S;

use points::{Arc, Point, place_of};
use rules::{
    Command, MAX_NUMBER, MAX_PLACES, MAX_TOOL, ROW_WIDTH, Row, State, kind, motion, phase, unit,
};
use tools::Tools;

// The places of a row's numbers: the command's five, the ten of the state after it, and last the decimals of the command's
// radius. A point takes two, the words four.
const KIND: usize = 0;

const TOOL: usize = 1;

const TO: usize = 2;

const SIZE: usize = 4;

const PHASE: usize = 5;

const UNIT: usize = 6;

const MOTION: usize = 7;

const SELECTED: usize = 8;

const AT: usize = 9;

const WORDS: usize = 11;

const DECIMALS: usize = 15;

// The largest number of 25 bits.
const MAX_WORD: u32 = 33554431;

// The largest coordinate.
const MAX_COORD: i32 = MAX_NUMBER as i32;

// ---- one number of a row

// From lo to hi.
#[tactic(auto, unfolding(rules::specs::Rows::within))]
fn within(number: i32, lo: u32, hi: u32) -> bool
    ensures { result ≡ R.within lo hi number }
{
    u32::try_from(number).is_ok_and(|n| (lo..=hi).contains(&n))
}

// In the range of coordinates.
#[tactic(auto, unfolding(rules::specs::Rows::is_coord))]
fn is_coord(number: i32) -> bool
    ensures { result ≡ R.is_coord number }
{
    (-MAX_COORD..=MAX_COORD).contains(&number)
}

// ---- a point, two numbers

fn point_at(row: &[i32; ROW_WIDTH], j: usize) -> Point
    requires { j + 1 < R.row_width }
    ensures { result ≡ P.point_at row.now j }
{
    Point {
        x: row[j],
        y: row[j + 1],
    }
}

fn coords(point: Point) -> bool
    ensures { result ≡ (R.is_coord point.x && R.is_coord point.y) }
{
    is_coord(point.x) && is_coord(point.y)
}

#[tactic(auto, using(points::proofs::Same::same_point_eq), unfolding(rules::specs::Rows::within))]
fn zeros(point: Point) -> bool
    ensures { result ≡ (R.is_zero point.x && R.is_zero point.y) }
{
    point == Point { x: 0, y: 0 }
}

// ---- a row's kind, and which numbers a kind carries

// Kept: kinds are numbers here: a row holds any number, and untested_command promises a command for each.

// The kind without its sign; one that a test let through has none.
fn kind_at(row: &[i32; ROW_WIDTH]) -> u32
    ensures { result ≡ R.field_n row.now 0 }
{
    row[KIND].unsigned_abs()
}

fn carries_tool(kind: u32) -> bool
    ensures { result ≡ Kinds.carries_tool kind }
{
    matches!(kind, kind::DECLARE | kind::SELECT)
}

fn carries_point(kind: u32) -> bool
    ensures { result ≡ Kinds.carries_point kind }
{
    matches!(
        kind,
        kind::G00 | kind::HIT | kind::G01 | kind::G02 | kind::G03
    )
}

fn carries_radius(kind: u32) -> bool
    ensures { result ≡ Kinds.carries_radius kind }
{
    matches!(kind, kind::G02 | kind::G03)
}

// ---- the command's six numbers: in range where the kind carries them, else 0

#[tactic(auto, unfolding(rules::specs::Rows::legal_tool, rules::specs::Rows::within))]
fn legal_tool(row: &[i32; ROW_WIDTH]) -> bool
    ensures { result ≡ R.legal_tool (R.field_n row.now 0) (R.field row.now 1) }
{
    if carries_tool(kind_at(row)) {
        return within(row[TOOL], 1, MAX_TOOL);
    }
    row[TOOL] == 0
}

#[tactic(auto, unfolding(rules::specs::Rows::legal_point))]
fn legal_point(row: &[i32; ROW_WIDTH]) -> bool
    ensures { result ≡ R.legal_point (R.field_n row.now 0) (R.field row.now 2) (R.field row.now 3) }
{
    let point = point_at(row, TO);
    if carries_point(kind_at(row)) {
        return coords(point);
    }
    zeros(point)
}

// A radius, and its decimals: at most six, of whose last place it is a multiple.
fn legal_radius(row: &[i32; ROW_WIDTH]) -> bool
    ensures { result ≡ P.legal_radius row.now }
{
    within(row[SIZE], 1, MAX_NUMBER)
        && within(row[DECIMALS], 0, MAX_PLACES)
        && row[SIZE].unsigned_abs() % place_of(row[DECIMALS].unsigned_abs()) == 0
}

// A radius with its decimals, a diameter, or neither.
#[tactic(auto, unfolding(rules::specs::Rows::legal_size, rules::specs::Rows::legal_decimals, rules::specs::Rows::within))]
fn legal_size(row: &[i32; ROW_WIDTH]) -> bool
    ensures { result ≡ P.legal_sizes (R.field_n row.now 0) row.now }
{
    let kind = kind_at(row);
    if carries_radius(kind) {
        return legal_radius(row);
    }
    if kind == kind::DECLARE {
        return within(row[SIZE], 1, MAX_NUMBER) && row[DECIMALS] == 0;
    }
    row[SIZE] == 0 && row[DECIMALS] == 0
}

#[tactic(auto, unfolding(rules::specs::Rows::legal_command))]
fn legal_command(row: &[i32; ROW_WIDTH]) -> bool
    ensures { result ≡ R.legal_command row.now }
{
    within(row[KIND], 0, kind::M30) && legal_tool(row) && legal_point(row) && legal_size(row)
}

fn arc_at(row: &[i32; ROW_WIDTH]) -> Arc
    ensures { result ≡ P.arc_at row.now }
{
    Arc {
        to: point_at(row, TO),
        radius: row[SIZE].unsigned_abs(),
        decimals: row[DECIMALS].unsigned_abs(),
    }
}

// Of its numbers, those that its kind carries.
#[tactic(auto, unfolding(rules::specs::Rows::command_at, rules::specs::Rows::command_from))]
fn command_at(row: &[i32; ROW_WIDTH]) -> Command
    ensures { result ≡ R.command_at row.now }
{
    match kind_at(row) {
        kind::COMMENT => Command::Comment,
        kind::M48 => Command::M48,
        kind::METRIC => Command::Metric,
        kind::INCH => Command::Inch,
        kind::DECLARE => Command::Declare(row[TOOL].unsigned_abs(), row[SIZE].unsigned_abs()),
        kind::PERCENT => Command::Percent,
        kind::G05 => Command::G05,
        kind::G00 => Command::G00(point_at(row, TO)),
        kind::SELECT => Command::Select(row[TOOL].unsigned_abs()),
        kind::HIT => Command::Hit(point_at(row, TO)),
        kind::M15 => Command::M15,
        kind::M16 => Command::M16,
        kind::G01 => Command::G01(point_at(row, TO)),
        kind::G02 => Command::G02(arc_at(row)),
        kind::G03 => Command::G03(arc_at(row)),
        _ => Command::M30,
    }
}

// ---- the state's ten numbers

// Tool 0 is in no set.
#[tactic(auto, unfolding(rules::specs::Rows::is_even))]
fn legal_words(row: &[i32; ROW_WIDTH]) -> bool
    ensures { result ≡ P.legal_words row.now }
{
    within(row[WORDS], 0, MAX_WORD)
        && row[WORDS].unsigned_abs() % 2 == 0
        && within(row[WORDS + 1], 0, MAX_WORD)
        && within(row[WORDS + 2], 0, MAX_WORD)
        && within(row[WORDS + 3], 0, MAX_WORD)
}

// Phase, unit, motion and selected tool.
fn legal_modes(row: &[i32; ROW_WIDTH]) -> bool
    ensures { result ≡ P.legal_modes row.now }
{
    within(row[PHASE], 0, phase::OVER)
        && within(row[UNIT], 0, unit::INCH)
        && within(row[MOTION], 0, motion::TOOL_DOWN)
        && within(row[SELECTED], 0, MAX_TOOL)
}

#[tactic(auto, unfolding(rules::specs::Rows::legal_state))]
fn legal_state(row: &[i32; ROW_WIDTH]) -> bool
    ensures { result ≡ R.legal_state row.now }
{
    legal_modes(row) && coords(point_at(row, AT)) && legal_words(row)
}

fn tools_at(row: &[i32; ROW_WIDTH]) -> Tools
    ensures { result ≡ P.tools_at row.now }
{
    Tools {
        a: row[WORDS].unsigned_abs(),
        b: row[WORDS + 1].unsigned_abs(),
        c: row[WORDS + 2].unsigned_abs(),
        d: row[WORDS + 3].unsigned_abs(),
    }
}

#[tactic(auto, unfolding(rules::specs::Rows::state_at))]
fn state_at(row: &[i32; ROW_WIDTH]) -> State
    ensures { result ≡ R.state_at row.now }
{
    State {
        phase: row[PHASE].unsigned_abs(),
        unit: row[UNIT].unsigned_abs(),
        motion: row[MOTION].unsigned_abs(),
        tool: row[SELECTED].unsigned_abs(),
        at: point_at(row, AT),
        tools: tools_at(row),
    }
}

// ---- a row

#[tactic(auto, unfolding(rules::specs::Rows::look_of, rules::specs::Rows::row_test))]
fn row_of(row: &[i32; ROW_WIDTH]) -> Option<Row>
    ensures { result ≡ R.look_of row.now }
{
    let legal = legal_command(row) && legal_state(row);
    legal.then(|| Row {
        command: command_at(row),
        state: state_at(row),
    })
}

/// The row that numbers are, if they are one. Too few or too many are none.
#[tactic(auto, unfolding(crate::specs::Row::looked))]
pub fn look(a: &[i32]) -> Option<Row>
    ensures { result ≡ S.looked a.now }
{
    row_of(a.try_into().ok()?)
}

/// The command in a row's numbers, of which nothing is tested: the row's own where they are a row. In too few or too many
/// there is none, as in a comment.
#[tactic(auto, unfolding(crate::specs::Row::untested_in))]
pub fn untested_command(a: &[i32]) -> Command
    ensures { result ≡ S.untested_in a.now }
{
    let Ok(row) = a.try_into() else {
        return Command::Comment;
    };
    command_at(row)
}
