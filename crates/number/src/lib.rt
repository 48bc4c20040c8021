// Bytes to a number. Whether the bytes are a number (the form) and whether the number is in range are two questions: a
// number out of range still says where it ends, since the form of a whole line is decided before any range.
// Kept: bytes and a place side by side: each function promises an answer at every place.
#![tactic(auto)]

ghost use Rattle.std.specs.Prelude.{◌≡◌, [], ◌∷◌, ◌<◌, ◌≤◌, ◌+◌, ◌*◌, ◌^◌, ◌-◌, length, drop, cond};
ghost use Rattle.lists.specs.Words.{starts_with};
ghost use Rattle.rules.specs.Numbers.{max_places, digits_of, magnitude_of, unsigned_of, signed_of, millionths, is_coordinate};
ghost use Rattle.rules.specs.Refusals.{out_of_range};
ghost use Rattle.number.specs.Capped.{cap, pushed, held_run, number_at, decimal_of, coordinate_read, size_read};

use rules::Refusal;

// What a run's value stops at: this stands for all from there on.
const CAP: u32 = 1_000_000_000;

// Most digits after the point.
const MAX_PLACES: usize = rules::MAX_PLACES as usize;

// The largest coordinate, diameter and radius, in millionths.
const MAX_NUMBER: u64 = rules::MAX_NUMBER as u64;

/// Digits: their value, exact below 1000000000, which stands for all from there on; and the place after them.
#[derive(Clone, Copy)]
pub struct Run {
    pub value: u32,
    pub next: usize,
}

/// A number as it is written: the column of its first byte, its sign, its digits as one number (a run's value), how many of them stand
/// after the point, and the place after it.
#[derive(Clone, Copy)]
pub struct Written {
    pub column: usize,
    pub negative: bool,
    pub digits: u32,
    pub places: usize,
    pub next: usize,
}

/// Does the byte b stand at the place `at`?
#[tactic(auto, using(crate::proofs::Runs::stands_at, crate::proofs::Runs::stands_past))]
pub fn stands(s: &[u8], at: usize, b: u8) -> bool
    ensures { result ≡ starts_with (drop at s.now) (b ∷ []) }
{
    s.get(at) == Some(&b)
}

// One more digit.
fn push(value: u32, d: u32) -> u32
    requires { d < 10 }
    ensures { (result ≡ pushed value d) × (result ≤ cap) }
{
    if value < CAP / 10 {
        value * 10 + d
    } else {
        CAP
    }
}

// The digits from the place `at` on, as further digits of the number `from`.
#[tactic(auto, using(crate::proofs::Runs::turns))]
fn digits(s: &[u8], at: usize, from: u32) -> Run
    requires { from ≤ cap }
    ensures { (result ≡ held_run at from (digits_of (drop at s.now))) × (result.value ≤ cap) × (at ≤ result.next) }
{
    let mut run = Run {
        value: from,
        next: at,
    };
    for b in s.get(at..).unwrap_or_default() {
        let b'0'..=b'9' = *b else { break };
        run.value = push(run.value, u32::from(*b - b'0'));
        run.next += 1;
    }
    run
}

/// The digits from the place `at` on.
pub fn run_at(s: &[u8], at: usize) -> Run
    ensures { (result ≡ held_run at 0 (digits_of (drop at s.now))) × (result.value ≤ cap) × (at ≤ result.next) }
{
    digits(s, at, 0)
}

// Digits with at most one point, at least one digit in all, from the place `at` on. The number begins at `from`, with its sign.
#[tactic(auto, using(crate::proofs::Readings::magnitudes))]
fn magnitude(s: &[u8], from: usize, at: usize, negative: bool) -> Option<Written>
    requires { from ≤ at }
    ensures { result ≡ number_at (from + 1) (length s.now) (magnitude_of negative (drop at s.now)) }
{
    let whole = run_at(s, at);
    if stands(s, whole.next, b'.') {
        let first = whole.next + 1;
        let both = digits(s, first, whole.value);
        if both.next == at + 1 {
            return None;
        }
        return Some(Written {
            column: from + 1,
            negative,
            digits: both.value,
            places: both.next - first,
            next: both.next,
        });
    }
    if whole.next == at {
        return None;
    }
    Some(Written {
        column: from + 1,
        negative,
        digits: whole.value,
        places: 0,
        next: whole.next,
    })
}

/// A number without a sign, a diameter or a radius, as it is written, or that none begins here.
#[tactic(auto, unfolding(rules::specs::Numbers::unsigned_of))]
pub fn unsigned(s: &[u8], at: usize) -> Option<Written>
    ensures { result ≡ number_at (at + 1) (length s.now) (unsigned_of (drop at s.now)) }
{
    magnitude(s, at, at, false)
}

/// A number that may have a sign, a coordinate, as it is written, or that none begins here.
#[tactic(auto, unfolding(rules::specs::Numbers::signed_of, rules::specs::Numbers::unsigned_of, lists::specs::Words::starts_with))]
pub fn signed(s: &[u8], at: usize) -> Option<Written>
    ensures { result ≡ number_at (at + 1) (length s.now) (signed_of (drop at s.now)) }
{
    match s.get(at) {
        Some(b'-') => magnitude(s, at, at + 1, true),
        Some(b'+') => magnitude(s, at, at + 1, false),
        _ => unsigned(s, at),
    }
}

// The number in whole millionths, or that it has too many places or is too large, and where.
#[tactic(auto, unfolding(rules::specs::Numbers::is_coordinate, rules::specs::Numbers::millionths))]
fn in_millionths(w: Written) -> Result<u32, Refusal>
    ensures { result ≡ cond (is_coordinate (decimal_of w)) (Ok (millionths (decimal_of w))) (Err (out_of_range w.column)) }
{
    if w.places > MAX_PLACES {
        return Err(rules::out_of_range(w.column));
    }
    let n = u64::from(w.digits) * u64::from(points::place_of(w.places as u32));
    if n > MAX_NUMBER {
        return Err(rules::out_of_range(w.column));
    }
    Ok(n as u32)
}

/// The coordinate in millionths that a number is, or that it is out of range, and where. The sign is the number's, not its whole
/// part's: -0.5 is below 0, and -0 is 0.
#[tactic(auto, unfolding(rules::specs::Numbers::coordinate_of, rules::specs::Numbers::is_coordinate, crate::specs::Capped::coordinate_read))]
pub fn coordinate(w: Written) -> Result<i32, Refusal>
    ensures { result ≡ coordinate_read w.column (decimal_of w) }
{
    let n = in_millionths(w)? as i32;
    Ok(if w.negative { -n } else { n })
}

/// The diameter or radius in millionths that a number without a sign is, or that it is out of range, and where.
#[tactic(auto, unfolding(rules::specs::Numbers::is_size, rules::specs::Numbers::is_coordinate, crate::specs::Capped::size_read))]
pub fn size(w: Written) -> Result<u32, Refusal>
    ensures { result ≡ size_read w.column (decimal_of w) }
{
    match in_millionths(w)? {
        0 => Err(rules::out_of_range(w.column)),
        n => Ok(n),
    }
}
