// The declared set: tool t is bit t mod 25 of word t div 25.
#![tactic(auto)]

ghost use Rattle.std.specs.Prelude.{◌≡◌, ◌<◌, ◌^◌};
ghost use Rattle.tools.specs.Set as D;

/// The declared tools, in four masked words: tool t is bit t mod 25 of word t div 25.
// Kept: four words, which document 01 names as the form.
#[derive(Clone, Copy, PartialEq, Eq)]
pub struct Tools {
    pub a: u32,
    pub b: u32,
    pub c: u32,
    pub d: u32,
}

// Tools to a word.
const PER_WORD: u32 = 25;

// Bit b of a word.
fn bit(w: u32, b: u32) -> bool
    requires { b < 25 }
    ensures { result ≡ D.bit_of w b }
{
    (w >> b) % 2 == 1
}

// The word whose one bit is b.
fn mask(b: u32) -> u32
    requires { b < 25 }
    ensures { result ≡ 2 ^ b }
{
    1 << b
}

// Word k, which is w, with tool t added.
fn set_bit(w: u32, k: u32, t: u32) -> u32
    ensures { result ≡ D.set_bit w k t }
{
    if t / PER_WORD == k {
        return w | mask(t % PER_WORD);
    }
    w
}

impl Tools {
    // Word k of the four.
    fn word(self, k: u32) -> u32
        ensures { result ≡ D.word_of self k }
    {
        match k {
            0 => self.a,
            1 => self.b,
            2 => self.c,
            _ => self.d,
        }
    }

    /// Whether tool t is declared.
    pub fn has(self, t: u32) -> bool
        ensures { result ≡ D.has self t }
    {
        let w = self.word(t / PER_WORD);
        bit(w, t % PER_WORD)
    }

    /// The set with tool t added.
    pub fn insert(self, t: u32) -> Tools
        ensures { result ≡ D.insert self t }
    {
        Tools {
            a: set_bit(self.a, 0, t),
            b: set_bit(self.b, 1, t),
            c: set_bit(self.c, 2, t),
            d: set_bit(self.d, 3, t),
        }
    }

    /// Whether two sets agree in all four words.
    // Kept: a function beside `==`: docs/PROMISES.md has its promise.
    #[tactic(auto, unfolding(crate::specs::Set::same_tools))]
    pub fn same(self, other: Tools) -> bool
        ensures { result ≡ D.same_tools self other }
    {
        self == other
    }
}
