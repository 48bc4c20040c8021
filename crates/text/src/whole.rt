// Whole numbers in decimal, without leading zeros.
ghost use Rattle.std.specs.Prelude.{◌≡◌, length};
ghost use Rattle.rules.specs.Printing.{decimal, signed_decimal};
ghost use Rattle.text.specs.Wrote.{Wrote};

use crate::digits::put_digits;
use crate::parts::put_byte;

#[tactic(auto, using(crate::proofs::Decimals::power_length, crate::proofs::Decimals::one_digit_length))]
fn digit_count(n: u64) -> usize
    ensures { result ≡ length (decimal n) }
{
    1 + n.checked_ilog10().unwrap_or(0) as usize
}

/// A number in decimal.
#[tactic(auto, using(crate::proofs::Decimals::decimal_digits))]
pub fn put_decimal(b: &mut [u8], at: usize, n: u64) -> usize
    ensures { Wrote b.old at (decimal n) b.new result }
{
    put_digits(b, at, digit_count(n), n)
}

/// A minus where negative, no plus.
// Kept: the minus here and in crate millionths: one line, and a function for it would be no plainer.
pub fn put_signed(b: &mut [u8], at: usize, x: i32) -> usize
    ensures { Wrote b.old at (signed_decimal x) b.new result }
{
    let digits = if x < 0 { put_byte(b, at, b'-') } else { at };
    put_decimal(b, digits, u64::from(points::size(x)))
}
