// The whole print-outs of the programs `holes` and `counts` as bytes in a lent block, so that a program only reads, calls and
// writes. Each part writes from place `at` on, as crate text has it, and hands back the place after it; the longest print-out has
// room.
// Kept: bytes and place as two parameters, as in crate text, for the same reason.
// Kept: 0 where a block is too short, which `Reports` promises; no print-out has 0 bytes.
#![tactic(auto)]

ghost use Rattle.std.specs.Prelude.{◌≡◌, List, ℕ};
ghost use Rattle.rules.specs.Printing.{refused_text, printed, counts_printed};
ghost use Rattle.text.specs.Wrote.{Wrote};
ghost use Rattle.report.specs.Parts.{table_text, Out, PutsOut, PrintsOut};
ghost use Rattle.report.specs.Report.{blocks_fit, Reports};

mod count_parts;
mod parts;

use crate::count_parts::put_counts;
use crate::parts::{put_lines, put_tools, put_unit};
use rules::{Counts, Refused, Revision, State, TABLE_ROOM};

/// Least bytes of the text: the longest print-out of `holes` has 12 for the unit, 99 * 47 for tools, 1,000 * 93 for holes and 27
/// for their count. That of `counts`, 99 lines, is shorter.
pub const TEXT_ROOM: usize = 98304;

// Whether the table has room for the longest file, and the text for the longest print-out.
#[tactic(auto, unfolding(crate::specs::Report::blocks_fit))]
fn blocks_fit(table: &[i32], text: &[u8]) -> bool
    ensures { result ≡ blocks_fit table.now text.now }
{
    TABLE_ROOM <= table.len() && TEXT_ROOM <= text.len()
}

// The line of a refused file, which is its whole print-out.
#[tactic(auto, unfolding(rules::specs::Printing::refused_text, print::specs::Line::decimals))]
fn put_refused(text: &mut [u8], refused: Refused) -> usize
    ensures { Wrote text.old 0 (refused_text refused.refusal refused.line) text.new result }
{
    print::put_numbers_line(text, 0, b"refused", &refused.numbers())
}

// The lines of a table, given the state after its last row.
fn put_table(text: &mut [u8], table: &[i32], n: usize, last: State) -> usize
    ensures { Wrote text.old 0 (table_text table.now n last) text.new result }
{
    let unit_end = put_unit(text, 0, last.unit);
    let tools_end = put_tools(text, unit_end, table, n, last.tools);
    let lines = put_lines(text, tools_end, table, n);
    print::put_numbers_line(text, lines.end, b"holes", &[lines.holes as u64])
}

// What is printed for a file: one line if it is refused, else what `put` puts, given the table that was read, the state after its
// last row and its counts. 0, and everything as it was, where the table has no room for the longest file or the text under
// `TEXT_ROOM` bytes.
fn print_out<F: Fn(&mut [u8], &[i32], usize, State, &Counts) -> usize>(
    file: &[u8],
    revision: Revision,
    table: &mut [i32],
    text: &mut [u8],
    put: F,
) -> usize
    requires { F.IsAlwaysCallable put }
    ensures { (out : Out) (x : List ℕ) → PutsOut (F.post put) out → PrintsOut revision file.now out x → Reports x revision file.now table.old text.old result table.new text.new }
{
    if !blocks_fit(table, text) {
        return 0;
    }
    let read = reader::read(file, revision, table);
    let n = match read.answer {
        Ok(n) => n,
        Err(refused) => return put_refused(text, refused),
    };
    // The last row of what was read is whole.
    let Some(last) = table::look(table, n - 1) else {
        return 0;
    };
    put(text, table, n, last.state, &read.counts)
}

/// What `holes` prints for a file, read by a revision: how many bytes. The table is the one that reading fills. 0, and everything
/// as it was, where the table has no room for the longest file or the text under 98,304 bytes.
pub fn holes(file: &[u8], revision: Revision, table: &mut [i32], text: &mut [u8]) -> usize
    ensures { Reports (printed revision file.now) revision file.now table.old text.old result table.new text.new }
{
    print_out(file, revision, table, text, |text, table, n, last, _| {
        put_table(text, table, n, last)
    })
}

/// What `counts` prints for a file, read by a revision: how many bytes. The table, and 0, are as `holes` has them.
pub fn counts(file: &[u8], revision: Revision, table: &mut [i32], text: &mut [u8]) -> usize
    ensures { Reports (counts_printed revision file.now) revision file.now table.old text.old result table.new text.new }
{
    print_out(
        file,
        revision,
        table,
        text,
        |text, table, n, last, counts| { put_counts(text, table, n, last.tools, counts) },
    )
}
