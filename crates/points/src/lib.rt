// Points, and the arc rule for every two points and every radius: no number here can overflow.
#![tactic(auto)]

ghost use Rattle.std.specs.Prelude.{◌≡◌, ◌+◌, ◌*◌, ◌/◌, ◌≤◌, leb, nat_abs, ◌-ℤ◌};
ghost use Rattle.points.specs.Points as S;

/// A place on the board, in millionths of the file's unit.
#[derive(Clone, Copy, PartialEq, Eq)]
pub struct Point {
    pub x: i32,
    pub y: i32,
}

/// Where an arc ends, its radius, and with how many decimals the radius was written.
#[derive(Clone, Copy)]
pub struct Arc {
    pub to: Point,
    pub radius: u32,
    pub decimals: u32,
}

// The largest number of 32 bits: the largest whose square fits 64.
const LARGEST: u64 = 4294967295;

impl Point {
    /// Whether two points are one.
    // Kept: a function beside `==`, since docs/PROMISES.md has its promise; and number by number, so that an edit that takes one number
    // for the other is refused for what it says.
    pub fn same(self, other: Point) -> bool
        ensures { result ≡ S.same_point self other }
    {
        (self.x, self.y) == (other.x, other.y)
    }
}

/// How far a and b are apart. The difference is signed and widened; its size is below 2^32, so that its square fits 64 bits.
// Kept: widened first, which document 01 names as the form.
pub fn distance(a: i32, b: i32) -> u64
    ensures { (result ≡ nat_abs (a -ℤ b)) × (result ≤ 4294967295) }
{
    let d = (a as i64) - (b as i64);
    d.unsigned_abs()
}

/// A number without its sign. It fits 32 bits.
pub fn size(x: i32) -> u32
    ensures { result ≡ nat_abs x }
{
    x.unsigned_abs()
}

fn square_of_difference(a: i32, b: i32) -> u64
    ensures { (result ≡ S.square_of_difference a b) × (result ≤ 4294967295 * 4294967295) }
{
    let d = distance(a, b);
    d * d
}

/// One unit of the last of so many decimals, in millionths.
pub fn place_of(decimals: u32) -> u32
    ensures { (result ≡ S.place_of decimals) × (1 ≤ result) × (result ≤ 1000000) }
{
    match decimals {
        0 => 1000000,
        1 => 100000,
        2 => 10000,
        3 => 1000,
        4 => 100,
        5 => 10,
        _ => 1,
    }
}

// The same where fewer than three decimals count as three.
#[tactic(auto, unfolding(crate::specs::Points::last_unit))]
fn last_unit(decimals: u32) -> u64
    ensures { (result ≡ S.last_unit decimals) × (result ≤ 1000000) }
{
    place_of(decimals.max(3)) as u64
}

// A quarter of x + y. The sum itself may not fit, so it is taken in quarters.
fn quarter_of_sum(x: u64, y: u64) -> u64
    ensures { result ≡ (x + y) / 4 }
{
    x / 4 + y / 4 + (x % 4 + y % 4) / 4
}

// Whether x + y is at most the square of s, where neither need fit. With q for s / 2 and e for s % 2 the square is 4 q (q + e) + e; so a
// quarter of the sum, rounded up once e is taken off, is compared with q (q + e). A q beyond 32 bits is beyond every sum.
fn at_most_square(x: u64, y: u64, s: u64) -> bool
    requires { x ≤ 4294967295 * 4294967295 }
    ensures { result ≡ leb (x + y) (S.square s) }
{
    let q = s / 2;
    let e = s % 2;
    if LARGEST < q {
        return true;
    }
    quarter_of_sum(x + (3 - e), y) <= q * (q + e)
}

impl Arc {
    // Whether the square of the distance from a point is at most that of 2 r + u.
    fn reaches(self, from: Point) -> bool
        ensures { result ≡ leb (S.square_of_distance from self.to) (S.square (2 * self.radius + S.last_unit self.decimals)) }
    {
        let to = self.to;
        let x = square_of_difference(to.x, from.x);
        let y = square_of_difference(to.y, from.y);
        let unit = last_unit(self.decimals);
        let radius = self.radius as u64;
        at_most_square(x, y, 2 * radius + unit)
    }

    /// Whether there is an arc from a point: the ends differ, and are no further apart than two radii and one unit of the radius's
    /// last written place.
    #[tactic(auto, unfolding(crate::specs::Points::is_possible))]
    pub fn is_possible(self, from: Point) -> bool
        ensures { result ≡ S.is_possible from self }
    {
        let to = self.to;
        if from.same(to) {
            return false;
        }
        self.reaches(from)
    }
}
