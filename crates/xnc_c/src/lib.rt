// The door's symbols for C: each calls the function of the same name in crate xnc, and promises what that one promises.
// Kept: a function here for each there: C needs the symbols, and a static library can't be imported.
#![tactic(auto)]

ghost use Rattle.std.specs.Prelude.{◌≡◌};
ghost use Rattle.rules.specs.Counting.{hits_answer, routs_answer};
ghost use Rattle.rules.specs.Writing.{write_answer, write_leaves};
ghost use Rattle.rules.specs.Asking.{hole_answer};
ghost use Rattle.xnc.specs.Door.{packed, hole_packed, hole_leaves};
ghost use Rattle.xnc.specs.Counts.{counts_in, last_block, ReadDoor, EditDoor};

/// See include/xnc.h.
#[unsafe(no_mangle)]
pub extern "C" fn xnc_read(file: &[u8], revision: u32, table: &mut [i32], counts: &mut [u32]) -> u64
    ensures { ReadDoor revision file.now table.old counts.old result table.new counts.new }
{
    xnc::xnc_read(file, revision, table, counts)
}

/// See include/xnc.h.
#[unsafe(no_mangle)]
pub extern "C" fn xnc_edit(
    table: &mut [i32],
    n: usize,
    line: usize,
    text: &[u8],
    revision: u32,
    counts: &mut [u32],
) -> u64
    ensures { EditDoor table.old n line text.now revision counts.old result table.new counts.new }
{
    xnc::xnc_edit(table, n, line, text, revision, counts)
}

/// See include/xnc.h.
#[unsafe(no_mangle)]
pub extern "C" fn xnc_hits(counts: &[u32], tool: u32) -> u64
    ensures { result ≡ packed (last_block counts.now (hits_answer (counts_in counts.now) tool)) }
{
    xnc::xnc_hits(counts, tool)
}

/// See include/xnc.h.
#[unsafe(no_mangle)]
pub extern "C" fn xnc_routs(counts: &[u32], tool: u32) -> u64
    ensures { result ≡ packed (last_block counts.now (routs_answer (counts_in counts.now) tool)) }
{
    xnc::xnc_routs(counts, tool)
}

/// See include/xnc.h.
#[unsafe(no_mangle)]
pub extern "C" fn xnc_hole(table: &[i32], n: usize, line: usize, hole: &mut [i32]) -> u64
    ensures { (result ≡ hole_packed (hole_answer table.now n line) hole.old) × (hole.new ≡ hole_leaves (hole_answer table.now n line) hole.old) }
{
    xnc::xnc_hole(table, n, line, hole)
}

/// See include/xnc.h.
#[unsafe(no_mangle)]
pub extern "C" fn xnc_write(table: &[i32], n: usize, text: &mut [u8]) -> u64
    ensures { (result ≡ packed (write_answer table.now n text.old)) × (text.new ≡ write_leaves table.now n text.old) }
{
    xnc::xnc_write(table, n, text)
}
