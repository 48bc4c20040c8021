// Numbers put into a lent table: those of a block, or a row's. The others stay as they were.
#![tactic(auto)]

ghost use Rattle.std.specs.Prelude.{◌≡◌, [], ◌∷◌, pos};
ghost use Rattle.lists.specs.Put.{put_in};
ghost use Rattle.rules.specs.Rows as R;
ghost use Rattle.put.specs.PutRow as P;

use points::Point;
use rules::{Command, ROW_WIDTH, State, kind};

// ---- a row's numbers

// No row in range has a number over the largest signed one. Such a number is written as that one, which lies in no
// field's range.
#[tactic(auto, unfolding(crate::specs::PutRow::capped))]
fn signed(n: u32) -> i32
    ensures { result ≡ pos (P.capped n) }
{
    i32::try_from(n).unwrap_or(i32::MAX)
}

// Kept: no From: it could stand in crate rules alone, whose matter rows are not.
// The command's numbers: its kind, and those that the kind carries, where the others are 0: the tool, the point, the diameter or
// the radius, and the radius's decimals.
#[tactic(auto, unfolding(rules::specs::Rows::command_numbers, rules::specs::Rows::decimals_of, crate::specs::PutRow::capped, crate::specs::PutRow::capped_command))]
fn fields(command: Command) -> (u32, i32, Point, i32, i32)
    ensures five { R.command_numbers (P.capped_command command)
        ≡ pos (P.capped result.0) ∷ result.1 ∷ result.2.x ∷ result.2.y ∷ result.3 ∷ [] }
    ensures decimals { pos (R.decimals_of (P.capped_command command)) ≡ result.4 }
{
    let none = Point { x: 0, y: 0 };
    match command {
        Command::Comment => (kind::COMMENT, 0, none, 0, 0),
        Command::M48 => (kind::M48, 0, none, 0, 0),
        Command::Metric => (kind::METRIC, 0, none, 0, 0),
        Command::Inch => (kind::INCH, 0, none, 0, 0),
        Command::Declare(tool, size) => (kind::DECLARE, signed(tool), none, signed(size), 0),
        Command::Percent => (kind::PERCENT, 0, none, 0, 0),
        Command::G05 => (kind::G05, 0, none, 0, 0),
        Command::G00(to) => (kind::G00, 0, to, 0, 0),
        Command::Select(tool) => (kind::SELECT, signed(tool), none, 0, 0),
        Command::Hit(to) => (kind::HIT, 0, to, 0, 0),
        Command::M15 => (kind::M15, 0, none, 0, 0),
        Command::M16 => (kind::M16, 0, none, 0, 0),
        Command::G01(to) => (kind::G01, 0, to, 0, 0),
        Command::G02(arc) => (
            kind::G02,
            0,
            arc.to,
            signed(arc.radius),
            signed(arc.decimals),
        ),
        Command::G03(arc) => (
            kind::G03,
            0,
            arc.to,
            signed(arc.radius),
            signed(arc.decimals),
        ),
        Command::M30 => (kind::M30, 0, none, 0, 0),
    }
}

// The command's five, the ten of the state after it, and the decimals.
fn numbers(command: Command, state: State) -> [i32; ROW_WIDTH]
    ensures { result ≡ P.capped_numbers command state }
{
    let (kind, tool, to, size, decimals) = fields(command);
    [
        signed(kind),
        tool,
        to.x,
        to.y,
        size,
        signed(state.phase),
        signed(state.unit),
        signed(state.motion),
        signed(state.tool),
        state.at.x,
        state.at.y,
        signed(state.tools.a),
        signed(state.tools.b),
        signed(state.tools.c),
        signed(state.tools.d),
        decimals,
    ]
}

// ---- put into a table

/// The numbers of `a` from place `at` on, as many as there is room for, and the rest as it was.
pub fn copy(table: &mut [i32], at: usize, a: &[i32])
    ensures { table.new ≡ put_in table.old at a.now }
{
    let Some(room) = table.len().checked_sub(at) else {
        return;
    };
    let n = a.len().min(room);
    table[at..at + n].copy_from_slice(&a[..n]);
}

/// Row i becomes a command and the state after it. Past the end nothing changes.
#[tactic(auto, unfolding(crate::specs::PutRow::put_row))]
pub fn row(table: &mut [i32], i: usize, command: Command, state: State)
    ensures { table.new ≡ P.put_row table.old i command state }
{
    let rows = table.len() / ROW_WIDTH;
    if rows <= i {
        return;
    }
    let (_, rest) = table.split_at_mut(ROW_WIDTH * i);
    if let Some(row) = rest.first_chunk_mut() {
        *row = numbers(command, state);
    }
}
