// Questions put to a lent table: the hole of a line, a tool's diameter.
// Kept: the numbers and n side by side. C lends them so, and each public function promises an answer for every n, one that fits or not.
#![tactic(auto)]

ghost use Rattle.std.specs.Prelude.{◌≡◌, ◌*◌, ◌≤◌, length};
ghost use Rattle.rules.specs.Rows as Rows;
ghost use Rattle.rules.specs.Answers.{hole_said, diameter_said};
ghost use Rattle.rules.specs.Asking as Asking;

use rules::{Hole, MAX_TOOL, NO_SUCH_TOOL, Refusal, Refused};

/// The hole of a line, where it makes one. The row before is tested, and the row itself, and no other.
#[tactic(auto, using(laws::proofs::Sizes::sizes_say, laws::proofs::Sizes::line_says, table::proofs::Looks::before_is, table::proofs::Looks::entry_is), unfolding(rules::specs::Asking::hole_answer, rules::specs::Asking::hole_in))]
pub fn hole(table: &[i32], n: usize, line: usize) -> Result<Option<Hole>, Refused>
    ensures { hole_said result ≡ hole_said (Asking.hole_answer table.now n line) }
{
    // Kept: tests one by one, in document 01's order.
    if !table::sizes_fit(table, n) {
        return Err(Refusal::BadTable.at(0));
    }
    if !table::is_line(n, line) {
        return Err(Refusal::NoSuchLine.at(0));
    }
    let Some(before) = table::state_before(table, line) else {
        return Err(Refusal::BadTable.at(line - 1));
    };
    let Some(row) = table::look(table, line - 1) else {
        return Err(Refusal::BadTable.at(line));
    };
    gives::hole(row.command, before.at, row.state)
}

// The rows from the first on, each tested, up to the one that declares the tool.
#[tactic(auto, using(table::proofs::Looks::entries_cons), unfolding(rules::specs::Asking::diameter_in))]
fn find_diameter(table: &[i32], n: usize, tool: u32) -> Result<u32, Refused>
    requires { Rows.row_width * n ≤ length table.now }
    ensures { result ≡ Asking.diameter_in tool (Rows.entries_of n table.now) 0 }
{
    for i in 0..n {
        let Some(row) = table::look(table, i) else {
            return Err(Refusal::BadTable.at(i + 1));
        };
        if let Some(diameter) = gives::diameter(row.command, tool) {
            return Ok(diameter);
        }
    }
    Err(Refusal::NotDeclared.at(0))
}

/// A tool's diameter, looked up from its declaration.
#[tactic(auto, using(laws::proofs::Sizes::sizes_say), unfolding(rules::specs::Asking::diameter_answer, rules::specs::Numbers::is_tool))]
pub fn diameter(table: &[i32], n: usize, tool: u32) -> Result<u32, Refused>
    ensures { diameter_said result ≡ diameter_said (Asking.diameter_answer table.now n tool) }
{
    if !table::sizes_fit(table, n) {
        return Err(Refusal::BadTable.at(0));
    }
    if !(1..=MAX_TOOL).contains(&tool) {
        return Err(NO_SUCH_TOOL.at(0));
    }
    find_diameter(table, n, tool)
}
