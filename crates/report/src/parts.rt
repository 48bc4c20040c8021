// The unit, the tools and the holes of a table.
ghost use Rattle.std.specs.Prelude.{◌≡◌, ◌≤◌, ℕ, List};
ghost use Rattle.rules.specs.Numbers.{max_tool};
ghost use Rattle.rules.specs.Asking.{hole_answer};
ghost use Rattle.rules.specs.Printing.{hole_line, one_hole};
ghost use Rattle.text.specs.Wrote.{Wrote};
ghost use Rattle.report.specs.Parts.{unit_text, diameter_of, holes_line, TakesTools, PutsTools, lines_of_tools, lines_text, holes_in};

use rules::{MAX_TOOL, unit};
use tools::Tools;

// The place after some lines, and how many holes they have.
#[derive(Clone, Copy)]
pub(crate) struct Lines {
    pub(crate) end: usize,
    pub(crate) holes: usize,
}

// The unit's line: its name stands behind a tab.
#[tactic(auto, unfolding(rules::specs::Printing::printed_line))]
pub(crate) fn put_unit(text: &mut [u8], at: usize, unit: u32) -> usize
    ensures { Wrote text.old at (unit_text unit) text.new result }
{
    if unit == unit::METRIC {
        return text::put_word(text, at, b"unit\tMETRIC\n");
    }
    text::put_word(text, at, b"unit\tINCH\n")
}

// A tool's diameter. One that is not declared has none, and it isn't looked for.
#[tactic(auto, using(rules::proofs::Said::diameter_said_one), unfolding(crate::specs::Parts::diameter_of))]
fn diameter_of(table: &[i32], n: usize, declared: Tools, tool: u32) -> Option<u32>
    ensures { result ≡ diameter_of table.now n declared tool }
{
    if !declared.has(tool) {
        return None;
    }
    query::diameter(table, n, tool).ok()
}

// Kept: table, n and tools as three: a struct of them would be made in one function and read in three.
// The lines of the tools that have a diameter, by number. What puts one gets the tool and its diameter.
pub(crate) fn put_each_tool<F: Fn(&mut [u8], usize, u32, u32) -> usize>(
    text: &mut [u8],
    at: usize,
    table: &[i32],
    n: usize,
    declared: Tools,
    put: F,
) -> usize
    requires { TakesTools (F.pre put) }
    ensures { (line : ℕ → ℕ → List ℕ) → PutsTools (F.post put) line → Wrote text.old at (lines_of_tools line (diameter_of table.now n declared) max_tool) text.new result }
{
    let mut end = at;
    for tool in 1..=MAX_TOOL {
        if let Some(diameter) = diameter_of(table, n, declared, tool) {
            end = put(text, end, tool, diameter);
        }
    }
    end
}

// The line of a tool.
#[tactic(auto, unfolding(print::specs::Line::decimals))]
fn put_tool(text: &mut [u8], at: usize, tool: u32, diameter: u32) -> usize
    ensures { Wrote text.old at (holes_line tool diameter) text.new result }
{
    print::put_numbers_line(text, at, b"tool", &[u64::from(tool), u64::from(diameter)])
}

// The declared tools, by number.
pub(crate) fn put_tools(
    text: &mut [u8],
    at: usize,
    table: &[i32],
    n: usize,
    declared: Tools,
) -> usize
    ensures { Wrote text.old at (lines_of_tools holes_line (diameter_of table.now n declared) max_tool) text.new result }
{
    put_each_tool(text, at, table, n, declared, put_tool)
}

// The hole of a line, if it makes one.
fn put_line(text: &mut [u8], at: usize, table: &[i32], n: usize, line: usize) -> Lines
    ensures { Wrote text.old at (hole_line line (hole_answer table.now n line)) text.new result.end × (result.holes ≡ one_hole (hole_answer table.now n line)) × (result.holes ≤ 1) }
{
    let Ok(Some(hole)) = query::hole(table, n, line) else {
        return Lines { end: at, holes: 0 };
    };
    let end = print::put_hole_line(text, at, line, hole);
    Lines { end, holes: 1 }
}

// The holes by line.
pub(crate) fn put_lines(text: &mut [u8], at: usize, table: &[i32], n: usize) -> Lines
    ensures { Wrote text.old at (lines_text table.now n 0 n) text.new result.end × (result.holes ≡ holes_in table.now n 0 n) }
{
    let mut end = at;
    let mut holes = 0;
    for i in 0..n {
        let line = put_line(text, end, table, n, i + 1);
        end = line.end;
        holes += line.holes;
    }
    Lines { end, holes }
}
