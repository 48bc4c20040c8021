// The door for C and Rust: numbers and slices only. An answer is its number in document 01 times 2^48, plus its column times 2^32, plus the
// line of the refusal or, where the number is 0, the count.
#![tactic(auto)]

ghost use Rattle.std.specs.Prelude.{◌≡◌, ◌+◌, ◌≤◌, length, take, drop};
ghost use Rattle.lists.specs.Put.{put_at};
ghost use Rattle.rules.specs.Numbers.{max_tool};
ghost use Rattle.rules.specs.Answers.{refused, said, hole_numbers};
ghost use Rattle.rules.specs.Counting.{count_of, hits_answer, routs_answer};
ghost use Rattle.rules.specs.Writing.{write_answer, write_leaves};
ghost use Rattle.rules.specs.Asking.{hole_answer};
ghost use Rattle.xnc.specs.Door.{hole_width, revision_of, Narrow, packed, packed_refusal, HoleOk, hole_packed, hole_leaves};
ghost use Rattle.xnc.specs.Counts.{counts_width, counts_numbers, counts_in, no_block, last_block, counts_left, room_for, ReadDoor, EditDoor};

use rules::{Counted, Counts, Hole, MAX_TOOL, NO_SUCH_TOOL, Refusal, Refused, Revision, TOOLS};

const NUMBER_SHIFT: u64 = 1 << 48;

const COLUMN_SHIFT: u64 = 1 << 32;

// Numbers of a hole: kind, tool, start x and y, end x and y, radius.
const HOLE_WIDTH: usize = 7;

// Numbers of the counts: the hits of each tool, then the routs.
const COUNTS_WIDTH: usize = 2 * TOOLS;

// The revision that a caller's number names: 2019 is that one, any other number 2021.
// Kept: a From<u32> for Revision would stand in crate rules and say of every number what only the door says.
fn revision_of(number: u32) -> Revision
    ensures { result ≡ revision_of number }
{
    if number == 2019 {
        return Revision::Rev2019;
    }
    Revision::Rev2021
}

// A refusal's number, column and line. No line and no count comes near 2^32, no number or column near 2^16, so nothing is cut off.
// Kept: `Narrow` asked for in four places: a type that says it would be made at each call, to be taken apart at once.
fn pack_refusal(no: Refused) -> u64
    requires { Narrow (refused no.refusal no.line) }
    ensures { result ≡ packed_refusal no.refusal no.line }
{
    let number = u64::from(no.refusal.number());
    let column = no.refusal.column() as u64;
    number * NUMBER_SHIFT + column * COLUMN_SHIFT + no.line as u64
}

#[tactic(auto, unfolding(crate::specs::Door::packed))]
fn pack(answer: Result<usize, Refused>) -> u64
    requires { Narrow (said answer) }
    ensures { result ≡ packed answer }
{
    match answer {
        Ok(count) => count as u64,
        Err(refused) => pack_refusal(refused),
    }
}

// ---- counts in a lent block

fn counts_in(block: &[u32; COUNTS_WIDTH]) -> Counts
    ensures { result ≡ counts_in block.now }
{
    let mut counts = Counts {
        hits: [0; TOOLS],
        routs: [0; TOOLS],
    };
    let (hits, routs) = block.split_at(TOOLS);
    counts.hits.copy_from_slice(hits);
    counts.routs.copy_from_slice(routs);
    counts
}

fn put_counts(block: &mut [u32; COUNTS_WIDTH], counts: &Counts)
    ensures { block.new ≡ put_at block.old 0 (counts_numbers counts.now) }
{
    let (hits, routs) = block.split_at_mut(TOOLS);
    hits.copy_from_slice(&counts.hits);
    routs.copy_from_slice(&counts.routs);
}

// What a call that counts answers. On success the counts are put into the block.
fn hand_out(block: &mut [u32; COUNTS_WIDTH], counted: &Counted) -> u64
    requires { Narrow (said counted.now.answer) }
    ensures answer { result ≡ packed counted.now.answer }
    ensures counts { block.new ≡ counts_left counted.now.answer block.old counted.now.counts }
{
    if counted.answer.is_ok() {
        put_counts(block, &counted.counts);
    }
    pack(counted.answer)
}

// How many of the lent numbers reading may write: none where the block is too short for the counts. Then every file is refused, for
// a fault of its own first.
fn room_for(numbers: usize, counts: usize) -> usize
    ensures { (result ≡ room_for numbers counts) × (result ≤ numbers) }
{
    if counts < COUNTS_WIDTH {
        return 0;
    }
    numbers
}

/// See include/xnc.h.
pub fn xnc_read(file: &[u8], revision: u32, table: &mut [i32], counts: &mut [u32]) -> u64
    ensures { ReadDoor revision file.now table.old counts.old result table.new counts.new }
{
    let room = room_for(table.len(), counts.len());
    let read = reader::read(file, revision_of(revision), &mut table[..room]);
    // without a block there was no room, and the answer is a refusal
    let Some(block) = counts.first_chunk_mut() else {
        return pack(read.answer);
    };
    hand_out(block, &read)
}

// The answer where the block is too short: 15 after every refusal that does not look into it.
fn pack_without_block(answer: Result<usize, Refused>) -> u64
    requires { Narrow (said answer) }
    ensures { result ≡ packed (no_block answer) }
{
    pack(answer.and(Err(Refusal::NoRoom.at(0))))
}

/// See include/xnc.h.
pub fn xnc_edit(
    table: &mut [i32],
    n: usize,
    line: usize,
    text: &[u8],
    revision: u32,
    counts: &mut [u32],
) -> u64
    ensures { EditDoor table.old n line text.now revision counts.old result table.new counts.new }
{
    let by = revision_of(revision);
    let Some(block) = counts.first_chunk_mut() else {
        return pack_without_block(editor::meeting(table, n, line, text, by));
    };
    let edited = editor::edit(table, n, line, text, by, counts_in(block));
    hand_out(block, &edited)
}

// A tool's count, of those from a place of the block on.
#[tactic(auto, using(crate::proofs::Blocks::part_get), unfolding(crate::specs::Door::packed, rules::specs::Numbers::is_tool))]
fn count_at(block: &[u32], at: usize, tool: u32) -> u64
    requires { at + max_tool ≤ counts_width }
    ensures { result ≡ packed (last_block block.now (count_of (take max_tool (drop at block.now)) tool)) }
{
    if tool == 0 || MAX_TOOL < tool {
        return pack_refusal(NO_SUCH_TOOL.at(0));
    }
    if block.len() < COUNTS_WIDTH {
        return pack_refusal(Refusal::NoRoom.at(0));
    }
    u64::from(block[at + (tool as usize - 1)])
}

/// See include/xnc.h.
#[tactic(auto, unfolding(rules::specs::Counting::hits_answer))]
pub fn xnc_hits(counts: &[u32], tool: u32) -> u64
    ensures { result ≡ packed (last_block counts.now (hits_answer (counts_in counts.now) tool)) }
{
    count_at(counts, 0, tool)
}

/// See include/xnc.h.
#[tactic(auto, unfolding(rules::specs::Counting::routs_answer))]
pub fn xnc_routs(counts: &[u32], tool: u32) -> u64
    ensures { result ≡ packed (last_block counts.now (routs_answer (counts_in counts.now) tool)) }
{
    count_at(counts, TOOLS, tool)
}

// A hole's seven numbers at the front of the block, the rest as it was.
#[tactic(auto, unfolding(rules::specs::Answers::hole_numbers))]
fn put_hole(block: &mut [i32], h: Hole)
    requires { (hole_width ≤ length block.old) × HoleOk h }
    ensures { block.new ≡ put_at block.old 0 (hole_numbers h) }
{
    block[..HOLE_WIDTH].copy_from_slice(&[
        h.kind as i32,
        h.tool as i32,
        h.start.x,
        h.start.y,
        h.end.x,
        h.end.y,
        h.radius as i32,
    ]);
}

/// See include/xnc.h.
#[tactic(auto, using(rules::proofs::Said::hole_said_one), unfolding(crate::specs::Door::hole_packed, crate::specs::Door::hole_leaves, crate::specs::Door::with_block, rules::specs::Answers::hole_numbers))]
pub fn xnc_hole(table: &[i32], n: usize, line: usize, hole: &mut [i32]) -> u64
    ensures { (result ≡ hole_packed (hole_answer table.now n line) hole.old) × (hole.new ≡ hole_leaves (hole_answer table.now n line) hole.old) }
{
    match query::hole(table, n, line) {
        Err(refused) => pack_refusal(refused),
        Ok(_) if hole.len() < HOLE_WIDTH => pack_refusal(Refusal::NoRoom.at(0)),
        Ok(Some(made)) => {
            put_hole(hole, made);
            1
        }
        Ok(None) => 0,
    }
}

/// See include/xnc.h.
pub fn xnc_write(table: &[i32], n: usize, text: &mut [u8]) -> u64
    ensures { (result ≡ packed (write_answer table.now n text.old)) × (text.new ≡ write_leaves table.now n text.old) }
{
    pack(writer::write(table, n, text))
}
