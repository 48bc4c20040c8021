// The tools of a table with their counts, which come as reading made them: no row is looked at for them.
ghost use Rattle.std.specs.Prelude.{◌≤◌};
ghost use Rattle.rules.specs.Numbers.{max_tool};
ghost use Rattle.text.specs.Wrote.{Wrote};
ghost use Rattle.report.specs.Parts.{diameter_of, counts_line_of, lines_of_tools};

use crate::parts::put_each_tool;
use rules::Counts;
use tools::Tools;

// A tool's line. The tool stands where other lines have a word.
fn put_tool_counts(text: &mut [u8], at: usize, tool: u32, diameter: u32, counts: &Counts) -> usize
    requires low { 1 ≤ tool }
    requires high { tool ≤ max_tool }
    ensures { Wrote text.old at (counts_line_of counts.now tool diameter) text.new result }
{
    // A tool's count stands at its number less one.
    let i = tool as usize - 1;
    let hits = counts.hits[i];
    let routs = counts.routs[i];
    let tool_end = text::put_decimal(text, at, u64::from(tool));
    let fields = [u64::from(diameter), u64::from(hits), u64::from(routs)];
    print::put_numbers_line(text, tool_end, b"", &fields)
}

// The declared tools, by number, from the text's start on.
pub(crate) fn put_counts(
    text: &mut [u8],
    table: &[i32],
    n: usize,
    declared: Tools,
    counts: &Counts,
) -> usize
    ensures { Wrote text.old 0 (lines_of_tools (counts_line_of counts.now) (diameter_of table.now n declared) max_tool) text.new result }
{
    put_each_tool(text, 0, table, n, declared, |text, at, tool, diameter| {
        put_tool_counts(text, at, tool, diameter, counts)
    })
}
