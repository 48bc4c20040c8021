// The writer: text in lent bytes, each byte straight at its place.
// Kept: the numbers and n side by side. C lends them so, and each public function promises an answer for every n, one that fits or not.
#![tactic(auto)]

ghost use Rattle.std.specs.Prelude.{◌≡◌, ◌*◌, ◌≤◌, length};
ghost use Rattle.lists.specs.Put.{put_in};
ghost use Rattle.rules.specs.Numbers.{max_lines};
ghost use Rattle.rules.specs.Rows.{row_width, entries_of};
ghost use Rattle.rules.specs.State.{start};
ghost use Rattle.rules.specs.Answers.{said};
ghost use Rattle.rules.specs.Writing.{follow_from, write_answer, write_leaves};
ghost use Rattle.writer.specs.Walk.{bytes_from, text_to};

use rules::{Refusal, Refused, State};
use spell::{line_length, put_line};

// How many bytes the text of n rows has; each is tested, and so is that the last has ended.
#[tactic(auto, using(crate::proofs::Walk::follow_turn, crate::proofs::Walk::follow_over, crate::proofs::Walk::bytes_before), unfolding(rules::specs::Writing::text_of_rows))]
fn measure(table: &[i32], n: usize) -> Result<usize, Refused>
    requires { (row_width * n ≤ length table.now) × (n ≤ max_lines) }
    ensures { result ≡ bytes_from 0 (follow_from start (entries_of n table.now) 0) }
{
    let mut state = State::new();
    let mut bytes = 0;
    for i in 0..n {
        let Some(row) = table::following(table, i, state) else {
            return Err(Refusal::BadTable.at(i + 1));
        };
        bytes += line_length(row.command);
        state = row.state;
    }
    if state.has_ended() {
        return Ok(bytes);
    }
    Err(Refusal::BadTable.at(n))
}

// The lines of n rows, one after another. All were measured, so nothing of them is tested again.
fn put_rows(table: &[i32], n: usize, text: &mut [u8])
    ensures { text.new ≡ put_in text.old 0 (text_to table.now n) }
{
    let mut at = 0;
    for i in 0..n {
        at = put_line(text, at, table::untested_command(table, i));
    }
}

/// A table's text into lent bytes: how many bytes it has, or why there is none. The bytes beyond the text stay as they
/// were, and so do all of them on refusal: the rows are looked at first, and written second.
///
/// A whole number has no point: two millimetres are `X2`, which is legal. Some older programs guess a point where a
/// number has none, and misplace such holes.
#[tactic(auto, using(laws::proofs::Sizes::sizes_say, crate::proofs::Answers::answer_is, crate::proofs::Answers::leaves_are))]
pub fn write(table: &[i32], n: usize, text: &mut [u8]) -> Result<usize, Refused>
    ensures { (said result ≡ said (write_answer table.now n text.old)) × (text.new ≡ write_leaves table.now n text.old) }
{
    // Kept: tests one by one, in document 01's order.
    if !table::sizes_fit(table, n) {
        return Err(Refusal::BadTable.at(0));
    }
    let bytes = measure(table, n)?;
    if text.len() < bytes {
        return Err(Refusal::NoRoom.at(0));
    }
    put_rows(table, n, text);
    Ok(bytes)
}
