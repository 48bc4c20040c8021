// Reading a file into a lent table, and counting its holes. Its rows are made in a block of our own first, so that nothing lent
// has changed when the file is refused.
#![tactic(auto)]

ghost use Rattle.std.specs.Prelude.{◌≡◌};
ghost use Rattle.reader.specs.Parts.{LinesRead, not_read};
ghost use Rattle.reader.specs.Read.{ReadIs};

use rules::{Counted, MAX_FILE, ROW_WIDTH, Refusal, Refused, Revision, State, TABLE_ROOM};

// The file's lines one after another, each read and taken, and its row put into the block.
fn read_lines(
    file: &[u8],
    revision: Revision,
    rows: &mut [i32; TABLE_ROOM],
) -> Result<usize, Refused>
    ensures { LinesRead revision file.now rows.old result rows.new }
{
    let mut state = State::new();
    let mut n = 0;
    let mut at = 0;
    // Kept: no iterator: where a line ends is line::find_lf's to say, whose promise docs/PROMISES.md has.
    while at < file.len() {
        let number = n + 1;
        let end = line::find_lf(file, at);
        let ended = end < file.len();
        let command = line::answer(number, &file[at..end], ended, revision)
            .command
            .map_err(|refusal| refusal.at(number))?;
        state = state.step(command).map_err(|refusal| refusal.at(number))?;
        put::row(rows, n, command, state);
        n = number;
        at = end + 1;
    }
    if state.has_ended() {
        return Ok(n);
    }
    Err(Refusal::EndsTooSoon.at(n + 1))
}

// A refused file has no counts.
fn not_read(refused: Refused) -> Counted
    ensures { result ≡ not_read refused }
{
    Counted {
        answer: Err(refused),
        counts: tally::none(),
    }
}

/// A file's bytes by a revision into lent numbers: the number of lines and the counts of their holes, or the refusal and its line,
/// and no counts. On success the rows stand first, and all beyond them is as it was; a refused file changes nothing.
pub fn read(file: &[u8], revision: Revision, table: &mut [i32]) -> Counted
    ensures { ReadIs revision file.now table.old result table.new }
{
    if MAX_FILE < file.len() {
        return not_read(Refusal::FileTooLong.at(0));
    }
    let mut block = [0i32; TABLE_ROOM];
    let n = match read_lines(file, revision, &mut block) {
        Ok(n) => n,
        Err(refused) => return not_read(refused),
    };
    if table.len() / ROW_WIDTH < n {
        return not_read(Refusal::NoRoom.at(0));
    }
    let rows = &block[..ROW_WIDTH * n];
    put::copy(table, 0, rows);
    Counted {
        answer: Ok(n),
        counts: tally::with_rows(tally::none(), rows),
    }
}
