// Editing one line of a lent table, and keeping the counts that go with it. An edit asks first, then takes the old holes from the
// counts, and only then writes: nothing lent has changed when it is refused.
#![tactic(auto)]

ghost use Rattle.std.specs.Prelude.{◌≡◌, ◌-◌, ◌*◌, ◌≤◌, length, drop};
ghost use Rattle.lists.specs.Put.{put_at};
ghost use Rattle.rules.specs.Answers.{said};
ghost use Rattle.rules.specs.Rows.{row_width, entries_of, table_numbers};
ghost use Rattle.rules.specs.Editing.{no_line_end, rerun_from, edit_from, meeting_of, edit_of, meeting_answer};
ghost use Rattle.rules.specs.Ranges.{CommandOk, StateOk};
ghost use Rattle.editor.specs.Parts.{span_written, new_rows, edited_to, LineFound, Asks, not_edited};
ghost use Rattle.editor.specs.Edit.{EditIs};

use rules::{Command, Counted, Counts, ROW_WIDTH, Refusal, Refused, Revision, Row, State};

// What an edit would do, whatever the counts: the meeting line, and the edited line's new row.
#[derive(Clone, Copy)]
struct Change {
    meeting: usize,
    row: Row,
}

// Whether a new line's bytes hold none of a line end.
fn no_line_end(text: &[u8]) -> bool
    ensures { result ≡ no_line_end text.now }
{
    text.iter().all(|b| *b != b'\n' && *b != b'\r')
}

// The rows from `from` on rerun from a state: the first line after which the new state is the one that stands there, or the
// refusal. No row past it is looked at.
#[tactic(auto, using(crate::proofs::Spans::meeting_rules), unfolding(runs::specs::Machine::rerun))]
fn find_meeting(table: &[i32], n: usize, from: usize, before: State) -> Result<usize, Refused>
    requires { (row_width * n ≤ length table.now) × (from ≤ n) }
    ensures { result ≡ meeting_of (rerun_from before (drop from (entries_of n table.now)) from) }
{
    let mut state = before;
    for i in from..n {
        let Some(row) = table::look(table, i) else {
            return Err(Refusal::BadTable.at(i + 1));
        };
        let next = state
            .step(row.command)
            .map_err(|refusal| refusal.at(i + 1))?;
        if next.same(row.state) {
            return Ok(i + 1);
        }
        state = next;
    }
    if state.has_ended() {
        return Ok(n);
    }
    Err(Refusal::EndsTooSoon.at(n + 1))
}

// The same rows again, each written with its new state, up to the meeting line.
// Kept: a walk of its own, since nothing is written before the verdict.
#[tactic(auto, using(crate::proofs::Spans::span_rules))]
fn write_span(table: &mut [i32], n: usize, from: usize, before: State)
    requires { (row_width * n ≤ length table.old) × (from ≤ n) × StateOk before }
    ensures { table.new ≡ span_written table.old n from before }
{
    let mut state = before;
    for i in from..n {
        let Some(row) = table::look(table, i) else {
            return;
        };
        let Ok(next) = state.step(row.command) else {
            return;
        };
        put::row(table, i, row.command, next);
        if next.same(row.state) {
            return;
        }
        state = next;
    }
}

// The line would take a new row in the place of one that left the state `old`.
#[tactic(auto, using(crate::proofs::Spans::asked_rules))]
fn ask_row(table: &[i32], n: usize, line: usize, row: Row, old: State) -> Result<Change, Refused>
    requires { LineFound table.now n line × CommandOk row.command × StateOk row.state }
    ensures { Asks table.now n line (edited_to (entries_of n table.now) line row.command row.state old) result }
{
    if row.state.same(old) {
        return Ok(Change { meeting: line, row });
    }
    let meeting = find_meeting(table, n, line, row.state)?;
    Ok(Change { meeting, row })
}

// The line would take a new command in the state before it; `old` is the state that stands after it.
#[tactic(auto, using(crate::proofs::Spans::taken_first))]
fn ask_from(
    table: &[i32],
    n: usize,
    line: usize,
    before: State,
    old: State,
    command: Command,
) -> Result<Change, Refused>
    requires { LineFound table.now n line × StateOk before × CommandOk command }
    ensures { Asks table.now n line (edit_from (entries_of n table.now) line before old command) result }
{
    let state = before.step(command).map_err(|refusal| refusal.at(line))?;
    let row = Row { command, state };
    ask_row(table, n, line, row, old)
}

// A line of a table of n rows would get new bytes.
#[tactic(auto, using(crate::proofs::Tests::ask_rules))]
fn ask(
    table: &[i32],
    n: usize,
    line: usize,
    text: &[u8],
    revision: Revision,
) -> Result<Change, Refused>
    ensures { Asks table.now n line (edit_of revision table.now n line text.now) result }
{
    // Kept: tests one by one, in document 01's order.
    if !table::sizes_fit(table, n) {
        return Err(Refusal::BadTable.at(0));
    }
    if !table::is_line(n, line) {
        return Err(Refusal::NoSuchLine.at(0));
    }
    if !no_line_end(text) {
        return Err(Refusal::HoldsLineEnd.at(0));
    }
    let Some(before) = table::state_before(table, line) else {
        return Err(Refusal::BadTable.at(line - 1));
    };
    let Some(old) = table::look(table, line - 1) else {
        return Err(Refusal::BadTable.at(line));
    };
    let command = line::read(text, revision)
        .command
        .map_err(|refusal| refusal.at(line))?;
    ask_from(table, n, line, before, old.state, command)
}

/// Where an edit of a line would meet, or why it would be refused, whatever the counts. Nothing changes.
#[tactic(auto, using(crate::proofs::Changes::told_refused, crate::proofs::Changes::told_met))]
pub fn meeting(
    table: &[i32],
    n: usize,
    line: usize,
    text: &[u8],
    revision: Revision,
) -> Result<usize, Refused>
    ensures { said result ≡ said (meeting_answer revision table.now n line text.now) }
{
    let change = ask(table, n, line, text, revision)?;
    Ok(change.meeting)
}

// The edited line's new row is written, and the rows after it up to the meeting line.
#[tactic(auto, using(crate::proofs::Spans::write_rules))]
fn write(table: &mut [i32], n: usize, line: usize, change: Change)
    requires { LineFound table.old n line × CommandOk change.row.command × StateOk change.row.state }
    ensures { table.new ≡ put_at table.old (row_width * (line - 1)) (table_numbers (new_rows (entries_of n table.old) line change.meeting change.row.command change.row.state)) }
{
    put::row(table, line - 1, change.row.command, change.row.state);
    if line < change.meeting {
        write_span(table, n, line, change.row.state);
    }
}

// A refused edit: the counts are as they were handed in.
fn not_edited(refused: Refused, counts: Counts) -> Counted
    ensures { result ≡ not_edited refused counts }
{
    Counted {
        answer: Err(refused),
        counts,
    }
}

/// A line of a table of n rows gets new bytes, read by a revision; the table's counts are handed in, and handed back as they are
/// afterwards. The answer is the meeting line: the first, from the edited one on, after which old and new states agree, or the
/// last. Only rows from the edited line to it change; a refused edit changes nothing.
pub fn edit(
    table: &mut [i32],
    n: usize,
    line: usize,
    text: &[u8],
    revision: Revision,
    counts: Counts,
) -> Counted
    ensures { EditIs revision table.old n line text.now counts result table.new }
{
    match ask(table, n, line, text, revision) {
        Err(refused) => not_edited(refused, counts),
        Ok(change) => {
            let first = ROW_WIDTH * (line - 1);
            let end = ROW_WIDTH * change.meeting;
            let Ok(left) = tally::without_rows(counts, &table[first..end]) else {
                return not_edited(Refusal::BadTable.at(0), counts);
            };
            write(table, n, line, change);
            Counted {
                answer: Ok(change.meeting),
                counts: tally::with_rows(left, &table[first..end]),
            }
        }
    }
}
