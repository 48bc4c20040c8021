// One count for each tool, of hits and of routs, and the holes of rows added to them or taken away. Rows are handed in as their
// numbers, of which nothing is tested: they were tested, or made, just before.
#![tactic(auto)]

ghost use Rattle.std.specs.Prelude.{◌≡◌, is_some};
ghost use Rattle.rules.specs.Answers.{said};
ghost use Rattle.rules.specs.Counting as Counting;
ghost use Rattle.tally.specs.Standing as S;

use rules::{
    Counts, HITS, MAX_COUNT, MAX_TOOL, NO_SUCH_TOOL, ROUTS, ROW_WIDTH, Refused, TOOLS, Way,
};

// The places of the kind and of the selected tool in a row.
const KIND: usize = 0;

const SELECTED: usize = 8;

// The tool with which a row makes a hole that way, if it makes one.
#[tactic(auto, unfolding(crate::specs::Standing::tool_in))]
fn tool_in(row: &[i32; ROW_WIDTH], way: Way) -> Option<usize>
    ensures { S.Tells result (S.tool_in way row.now 0) }
{
    let kind = row[KIND].unsigned_abs();
    let tool = row[SELECTED].unsigned_abs();
    let makes = (way.first..=way.last).contains(&kind) && (1..=MAX_TOOL).contains(&tool);
    makes.then_some(tool as usize)
}

// The holes that rows make one way, added.
#[tactic(auto, using(crate::proofs::Steps::more_none))]
fn add(counts: &mut [u32; TOOLS], rows: &[i32], way: Way)
    ensures { counts.new ≡ S.more way rows.now counts.old }
{
    for row in rows.as_chunks::<ROW_WIDTH>().0 {
        if let Some(tool) = tool_in(row, way) {
            counts[tool - 1] = counts[tool - 1].saturating_add(1);
        }
    }
}

// The holes that rows make one way, taken away, unless a tool has fewer.
// Kept: a walk beside that of `add`: it stops where a tool has fewer.
fn take(counts: &mut [u32; TOOLS], rows: &[i32], way: Way) -> Option<()>
    ensures { S.Takes way rows.now counts.old (is_some result) counts.new }
{
    for row in rows.as_chunks::<ROW_WIDTH>().0 {
        if let Some(tool) = tool_in(row, way) {
            counts[tool - 1] = counts[tool - 1].checked_sub(1)?;
        }
    }
    Some(())
}

// Whether no count is over the largest that is taken in. All are looked at, so that there is no branch for each.
#[tactic(auto, using(crate::proofs::Steps::largest_all))]
fn none_over(counts: &[u32; TOOLS]) -> bool
    ensures { result ≡ S.none_over counts.now }
{
    let mut most = 0;
    for count in counts {
        most = most.max(*count);
    }
    most <= MAX_COUNT
}

/// No holes yet.
#[tactic(auto, unfolding(rules::specs::Counting::from_tool, rules::specs::Counting::how_many, rules::specs::Counting::counts_of))]
pub fn none() -> Counts
    ensures { result ≡ Counting.no_counts }
{
    Counts {
        hits: [0; TOOLS],
        routs: [0; TOOLS],
    }
}

/// Counts with the holes of some rows.
#[tactic(auto, unfolding(crate::specs::Standing::with_rows))]
pub fn with_rows(mut counts: Counts, rows: &[i32]) -> Counts
    ensures { result ≡ S.with_rows counts rows.now }
{
    add(&mut counts.hits, rows, HITS);
    add(&mut counts.routs, rows, ROUTS);
    counts
}

/// Counts without the holes of some rows, where each count is at most 1,000 and at least what the rows take from it. Else they
/// can't be counts of a table with those rows, and are handed back as they were.
// a call of its own, so that its copies take no stack while others run
#[inline(never)]
#[tactic(auto, using(crate::proofs::Whole::is_tested))]
pub fn without_rows(counts: Counts, rows: &[i32]) -> Result<Counts, Counts>
    ensures { result ≡ S.without_rows counts rows.now }
{
    if !(none_over(&counts.hits) && none_over(&counts.routs)) {
        return Err(counts);
    }
    let mut left = counts;
    if take(&mut left.hits, rows, HITS).is_none() {
        return Err(counts);
    }
    if take(&mut left.routs, rows, ROUTS).is_none() {
        return Err(counts);
    }
    Ok(left)
}

// A tool's number among those of all tools; 7 at line 0 where there is no such tool.
#[tactic(auto, unfolding(rules::specs::Numbers::is_tool))]
fn of_tool(counts: &[u32; TOOLS], tool: u32) -> Result<usize, Refused>
    ensures { result ≡ Counting.count_of counts.now tool }
{
    if !(1..=MAX_TOOL).contains(&tool) {
        return Err(NO_SUCH_TOOL.at(0));
    }
    Ok(counts[tool as usize - 1] as usize)
}

/// How many hits a tool makes.
#[tactic(auto, unfolding(rules::specs::Counting::hits_answer))]
pub fn hits(counts: Counts, tool: u32) -> Result<usize, Refused>
    ensures { said result ≡ said (Counting.hits_answer counts tool) }
{
    of_tool(&counts.hits, tool)
}

/// How many routs a tool makes.
#[tactic(auto, unfolding(rules::specs::Counting::routs_answer))]
pub fn routs(counts: Counts, tool: u32) -> Result<usize, Refused>
    ensures { said result ≡ said (Counting.routs_answer counts tool) }
{
    of_tool(&counts.routs, tool)
}
