// A table in lent numbers, looked at. `i` counts the rows before a row: row i is line i + 1.
// Kept: the numbers and n side by side. C lends them so, and each public function promises an answer for every n, one that fits or not.
#![tactic(auto)]

ghost use Rattle.std.specs.Prelude.{◌≡◌, ◌-◌};
ghost use Rattle.rules.specs.Rows as Rows;
ghost use Rattle.rules.specs.Editing as Editing;
ghost use Rattle.table.specs.Table as S;

use rules::{Command, MAX_LINES, ROW_WIDTH, Row, State};

// ---- its sizes

/// Whether n is 1 to 1,000, and no more than the lent numbers hold.
#[tactic(auto, unfolding(rules::specs::Rows::sizes_fit))]
pub fn sizes_fit(table: &[i32], n: usize) -> bool
    ensures { result ≡ Rows.sizes_fit table.now n }
{
    if n == 0 {
        return false;
    }
    if MAX_LINES < n {
        return false;
    }
    n <= table.len() / ROW_WIDTH
}

/// Whether a table of n rows has the line.
#[tactic(auto, unfolding(rules::specs::Editing::is_line))]
pub fn is_line(n: usize, line: usize) -> bool
    ensures { result ≡ Editing.is_line n line }
{
    if line == 0 {
        return false;
    }
    line <= n
}

// ---- its rows

// Kept: a row cut out by hand, twice: by `as_chunks` it proves, and writing 100 lines takes 1.21 and 1.24 times plain Rust, over 1.2.

/// Row i, as its numbers are: no other number is looked at. Past the end there is none.
#[tactic(auto, using(crate::proofs::Looks::row_past, crate::proofs::Looks::row_part), unfolding(crate::specs::Table::look_at, row::specs::Row::looked))]
pub fn look(table: &[i32], i: usize) -> Option<Row>
    ensures { result ≡ S.look_at table.now i }
{
    if table.len() / ROW_WIDTH <= i {
        return None;
    }
    let start = ROW_WIDTH * i;
    let end = start + ROW_WIDTH;
    row::look(&table[start..end])
}

/// The command in row i, of which nothing is tested: for a row that was looked at before. Past the end there is none.
#[tactic(auto, using(crate::proofs::Looks::row_past, crate::proofs::Looks::row_part), unfolding(crate::specs::Table::untested_at, row::specs::Row::untested_in))]
pub fn untested_command(table: &[i32], i: usize) -> Command
    ensures { result ≡ S.untested_at table.now i }
{
    if table.len() / ROW_WIDTH <= i {
        return Command::Comment;
    }
    let first = ROW_WIDTH * i;
    row::untested_command(&table[first..first + ROW_WIDTH])
}

/// Row i, where it is one and follows from the state before it.
#[tactic(auto, unfolding(crate::specs::Table::followed))]
pub fn following(table: &[i32], i: usize, before: State) -> Option<Row>
    ensures { result ≡ S.followed before (S.look_at table.now i) }
{
    let row = look(table, i)?;
    // Kept: no `.ok()?`, by which it proves and writing 100 lines of routs takes 1.201 times plain Rust, over 1.2; as it stands, 1.19.
    let Ok(next) = before.step(row.command) else {
        return None;
    };
    if next.same(row.state) {
        return Some(row);
    }
    None
}

/// The state before a line, as it stands in the row before; the first line starts all zero.
#[tactic(auto, using(crate::proofs::Looks::before_row), unfolding(rules::specs::Editing::before_line))]
pub fn state_before(table: &[i32], line: usize) -> Option<State>
    ensures { result ≡ Editing.before_line line (S.row_at table.now (line - 1)) }
{
    if line <= 1 {
        return Some(State::new());
    }
    let row = look(table, line - 2)?;
    Some(row.state)
}
