// Numbers of millionths as text: how long it is, and its bytes, from place `at` on as crate text has it.
// Kept: bytes and place as two parameters, as in crate text, for the same reason.
#![tactic(auto)]

ghost use Rattle.std.specs.Prelude.{◌≡◌, ℕ, ◌+◌, ◌%◌, ◌≤◌, ◌<◌, min, [], ◌∷◌, length};
ghost use Rattle.rules.specs.Writing.{last_digits, width_of, places_of, fraction_text, number_text, radius_text, coordinate_text};
ghost use Rattle.rules.specs.Numbers.{max_places};
ghost use Rattle.text.specs.Wrote.{Wrote};

use points::size;
use rules::MAX_PLACES;
use text::put_byte;

const MILLION: u32 = 1000000;

// How many digits a number below 1,000 has.
#[tactic(auto, unfolding(rules::specs::Writing::width_of))]
fn width(w: u32) -> usize
    ensures { (result ≡ width_of w) × (result ≤ 3) }
{
    match w {
        0..=9 => 1,
        10..=99 => 2,
        _ => 3,
    }
}

// How many decimals f millionths need, without trailing zeros.
#[tactic(auto, unfolding(rules::specs::Writing::places_of))]
fn places(f: u32) -> usize
    ensures { (result ≡ places_of f) × (result ≤ 6) }
{
    if f % 1000000 == 0 {
        return 0;
    }
    if f % 100000 == 0 {
        return 1;
    }
    if f % 10000 == 0 {
        return 2;
    }
    if f % 1000 == 0 {
        return 3;
    }
    if f % 100 == 0 {
        return 4;
    }
    if f % 10 == 0 {
        return 5;
    }
    6
}

// The decimals that a radius is written with: no number has more than six.
fn radius_places(decimals: u32) -> usize
    ensures { (result ≡ min decimals max_places) × (result ≤ 6) }
{
    decimals.min(MAX_PLACES) as usize
}

// ---- lengths

// The point and so many decimals of any number, or nothing for none.
#[tactic(auto, using(crate::proofs::Numbers::no_fraction, crate::proofs::Numbers::some_fraction_length))]
fn fraction_length(decimals: usize) -> usize
    requires { decimals ≤ max_places }
    ensures { ((f : ℕ) → result ≡ length (fraction_text decimals f)) × (result ≤ 7) }
{
    if decimals == 0 { 0 } else { 1 + decimals }
}

/// Bytes of a number of millionths as it is written.
#[tactic(auto, using(crate::proofs::Numbers::parts_length), unfolding(rules::specs::Writing::number_text))]
pub fn number_length(v: u32) -> usize
    ensures { (result ≡ length (number_text v)) × (result ≤ 10) }
{
    width(v / MILLION) + fraction_length(places(v % MILLION))
}

/// Bytes of a radius as it is written, with so many decimals.
#[tactic(auto, using(crate::proofs::Numbers::parts_length), unfolding(rules::specs::Writing::radius_text))]
pub fn radius_length(decimals: u32, v: u32) -> usize
    ensures { (result ≡ length (radius_text decimals v)) × (result ≤ 10) }
{
    width(v / MILLION) + fraction_length(radius_places(decimals))
}

/// Bytes of a coordinate as it is written.
pub fn coordinate_length(x: i32) -> usize
    ensures { (result ≡ length (coordinate_text x)) × (result ≤ 11) }
{
    let n = number_length(size(x));
    if x < 0 { 1 + n } else { n }
}

// ---- bytes

// The last digit of n.
fn put_digit(b: &mut [u8], at: usize, n: u32) -> usize
    ensures { Wrote b.old at ((48 + n % 10) ∷ []) b.new result }
{
    put_byte(b, at, b'0' + (n % 10) as u8)
}

// The digits before the point, three at most.
// Kept: `put_digits` of `width` would do it, but it writes any count of digits: tried, and writing takes over 1.2 times plain Rust.
#[tactic(auto, using(text::proofs::Wrote::wrote_more), unfolding(rules::specs::Writing::width_of, rules::specs::Writing::last_digits))]
fn put_whole(b: &mut [u8], at: usize, w: u32) -> usize
    ensures { Wrote b.old at (last_digits (width_of w) w) b.new result }
{
    match w {
        0..=9 => put_digit(b, at, w),
        10..=99 => {
            let ones = put_digit(b, at, w / 10);
            put_digit(b, ones, w)
        }
        _ => {
            let tens = put_digit(b, at, w / 100);
            let ones = put_digit(b, tens, w / 10);
            put_digit(b, ones, w)
        }
    }
}

// No point for a whole number. The decimals come out first to last, and end where nothing is left.
// Kept: `put_decimals` of `places` would do it, but looks for the zeros first: tried, and writing takes over 1.2 times plain Rust.
fn put_fraction(b: &mut [u8], at: usize, millionths: u32) -> usize
    requires { millionths < 1000000 }
    ensures { Wrote b.old at (fraction_text (places_of millionths) millionths) b.new result }
{
    if millionths == 0 {
        return at;
    }
    let mut end = put_byte(b, at, b'.');
    let mut rest = millionths;
    while 0 < rest {
        let tenfold = 10 * rest;
        end = put_digit(b, end, tenfold / MILLION);
        rest = tenfold % MILLION;
    }
    end
}

// Just so many decimals, and no point for none.
#[tactic(auto, using(crate::proofs::Numbers::no_fraction, text::proofs::Wrote::wrote_nothing))]
fn put_decimals(b: &mut [u8], at: usize, count: usize, millionths: u32) -> usize
    requires { (count ≤ max_places) × (millionths < 1000000) }
    ensures { Wrote b.old at (fraction_text count millionths) b.new result }
{
    if count == 0 {
        return at;
    }
    let mut next = put_byte(b, at, b'.');
    let mut rest = millionths;
    for _ in 0..count {
        let tenfold = 10 * rest;
        next = put_digit(b, next, tenfold / MILLION);
        rest = tenfold % MILLION;
    }
    next
}

/// A number of millionths: its whole part, and its decimals without trailing zeros.
pub fn put_number(b: &mut [u8], at: usize, v: u32) -> usize
    ensures { Wrote b.old at (number_text v) b.new result }
{
    let point = put_whole(b, at, v / MILLION);
    put_fraction(b, point, v % MILLION)
}

/// A radius: its whole part, and just so many decimals.
pub fn put_radius(b: &mut [u8], at: usize, decimals: u32, v: u32) -> usize
    ensures { Wrote b.old at (radius_text decimals v) b.new result }
{
    let point = put_whole(b, at, v / MILLION);
    put_decimals(b, point, radius_places(decimals), v % MILLION)
}

/// A coordinate: a number with a minus where negative.
pub fn put_coordinate(b: &mut [u8], at: usize, x: i32) -> usize
    ensures { Wrote b.old at (coordinate_text x) b.new result }
{
    let digits = if x < 0 { put_byte(b, at, b'-') } else { at };
    put_number(b, digits, size(x))
}
