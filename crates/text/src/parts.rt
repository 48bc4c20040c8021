// Bytes and words.
ghost use Rattle.std.specs.Prelude.{[], ◌∷◌};
ghost use Rattle.text.specs.Wrote.{Wrote};

/// One byte.
#[tactic(auto, using(crate::proofs::Wrote::wrote_past))]
pub fn put_byte(b: &mut [u8], at: usize, v: u8) -> usize
    ensures { Wrote b.old at (v ∷ []) b.new result }
{
    if at < b.len() {
        b[at] = v;
        return at + 1;
    }
    at
}

/// A word, byte by byte: one that stands in the code is then stored from there, and not first built in memory.
// Kept: byte by byte, for what is said above.
#[tactic(auto, using(crate::proofs::Wrote::wrote_more))]
pub fn put_word(b: &mut [u8], at: usize, word: &[u8]) -> usize
    ensures { Wrote b.old at word.now b.new result }
{
    let mut end = at;
    for &byte in word {
        end = put_byte(b, end, byte);
    }
    end
}
