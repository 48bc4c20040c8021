// The last digits of a number.
ghost use Rattle.std.specs.Prelude.{◌+◌, ◌≤◌, length};
ghost use Rattle.rules.specs.Writing.{last_digits};
ghost use Rattle.text.specs.Wrote.{Wrote};

// Digits for which there is room. They come out last first, so they are written from the end.
#[tactic(auto, using(crate::proofs::LastDigits::digits_turn))]
fn write_digits(b: &mut [u8], at: usize, count: usize, n: u64) -> usize
    requires { at + count ≤ length b.old }
    ensures { Wrote b.old at (last_digits count n) b.new result }
{
    let mut rest = n;
    for left in (0..count).rev() {
        b[at + left] = b'0' + (rest % 10) as u8;
        rest /= 10;
    }
    at + count
}

/// The last `count` digits of n, with zeros in front where it has fewer.
#[tactic(auto, using(crate::proofs::LastDigits::digits_drop))]
pub fn put_digits(b: &mut [u8], at: usize, count: usize, n: u64) -> usize
    ensures { Wrote b.old at (last_digits count n) b.new result }
{
    let Some(room) = b.len().checked_sub(at) else {
        return at;
    };
    // Digits for which there is no room are the last ones.
    let fitting = count.min(room);
    let mut rest = n;
    for _ in fitting..count {
        rest /= 10;
    }
    write_digits(b, at, fitting, rest)
}
