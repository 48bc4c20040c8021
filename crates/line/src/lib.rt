// A line of a file: where its LF is, its text without the CR, and what it says, given its number.
#![tactic(auto)]

ghost use Rattle.std.specs.Prelude.{◌≡◌, ◌+◌, drop};
ghost use Rattle.rules.specs.Lines.{text_of, allowed_bytes};
ghost use Rattle.rules.specs.Commands.{says_no, line_of};
ghost use Rattle.rules.specs.Reading.{answer_in};
ghost use Rattle.line.specs.Line.{line_of_bytes, find_lf};

use rules::{LineAnswer, MAX_LINE, MAX_LINES, Refusal, Revision};

/// Where the line that begins at `from` has its LF, or the file's end; past the end it is `from` itself.
// Kept: the end where there is no LF, and no option: docs/PROMISES.md has that promise.
pub fn find_lf(file: &[u8], from: usize) -> usize
    ensures { result ≡ from + find_lf (drop from file.now) }
{
    let Some(rest) = file.get(from..) else {
        return from;
    };
    from + rest.iter().position(|b| *b == b'\n').unwrap_or(rest.len())
}

/// A line's bytes without the one CR that belongs to its end.
#[tactic(auto, using(crate::proofs::Texts::text_cr, crate::proofs::Texts::text_other, crate::proofs::Texts::text_empty))]
pub fn text_of(line: &[u8]) -> &[u8]
    ensures { (result.now ≡ text_of line.now) × (result.ref_ptr ≡ line.entry.ref_ptr) }
{
    match line {
        [text @ .., b'\r'] => text,
        _ => line,
    }
}

fn says_no(refusal: Refusal) -> LineAnswer
    ensures { result ≡ says_no refusal }
{
    LineAnswer {
        command: Err(refusal),
    }
}

// How many bytes it begins with that are in 32 to 126: the first forbidden byte stands behind them.
fn allowed_bytes(s: &[u8]) -> usize
    ensures { result ≡ allowed_bytes s.now }
{
    s.iter().take_while(|b| (32..=126).contains(*b)).count()
}

/// What a line's text says by a revision: a command, or the refusal 6, 4, 5 or 7, the first that there is ground for; 4 and 7 in their
/// column.
#[tactic(auto, using(crate::proofs::Texts::too_long, crate::proofs::Texts::forbidden, crate::proofs::Texts::allowed))]
pub fn read(text: &[u8], revision: Revision) -> LineAnswer
    ensures { result ≡ line_of revision text.now }
{
    if MAX_LINE < text.len() {
        return says_no(Refusal::LineTooLong);
    }
    let allowed = allowed_bytes(text);
    if allowed < text.len() {
        return says_no(rules::forbidden_byte(allowed + 1));
    }
    command::read(text, revision)
}

/// What a line of a file says by a revision, given its number, its bytes up to its LF, and whether the LF is there: 2, 3, then its
/// text's own.
// Kept: `ended` beside the bytes: docs/PROMISES.md has that promise.
#[tactic(auto, using(crate::proofs::Texts::too_many, crate::proofs::Texts::not_ended, crate::proofs::Texts::text_says))]
pub fn answer(number: usize, line: &[u8], ended: bool, revision: Revision) -> LineAnswer
    ensures { result ≡ answer_in revision number (line_of_bytes line.now ended) }
{
    if MAX_LINES < number {
        return says_no(Refusal::TooManyLines);
    }
    if !ended {
        return says_no(Refusal::LineNotEnded);
    }
    read(text_of(line), revision)
}
