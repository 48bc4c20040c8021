// A program's arguments: the word of a revision, or none.
ghost use Rattle.std.specs.Prelude.{◌≡◌};
ghost use Rattle.show.specs.Arguments.{named_by};

use rules::Revision;
use std::env::{Env, FillError};
use std::io::Print;

// The revision that a word names, if it names one.
#[tactic(auto, using(crate::proofs::Words::other_length, crate::proofs::Words::first_other, crate::proofs::Words::second_other, crate::proofs::Words::third_other, crate::proofs::Words::is_2019, crate::proofs::Words::not_2019, crate::proofs::Words::is_2021, crate::proofs::Words::not_2021))]
fn named_by(word: &[u8]) -> Option<Revision>
    ensures { result ≡ named_by word.now }
{
    match word {
        b"2019" => Some(Revision::Rev2019),
        b"2021" => Some(Revision::Rev2021),
        _ => None,
    }
}

// Whether there is an argument `i`. Argument 0 is the program's own name.
fn is_given(arguments: &impl Env, i: usize) -> bool {
    let mut first = [0u8; 1];
    !matches!(arguments.arg(i, &mut first), Err(FillError::NotPresent))
}

// The first argument. A longer one than the block holds is no word, and names nothing.
fn first_named(arguments: &impl Env) -> Option<Revision> {
    let mut word = [0u8; 4];
    let length = arguments.arg(1, &mut word).ok()?;
    named_by(&word[..length])
}

// The revision that the arguments name: 2021 where there are none.
fn named(arguments: &impl Env) -> Option<Revision> {
    if !is_given(arguments, 1) {
        return Some(Revision::Rev2021);
    }
    if is_given(arguments, 2) {
        return None;
    }
    first_named(arguments)
}

/// The revision that the one argument names, 2021 where there is none. Any other arguments get the line of usage on standard error.
pub fn chosen_revision(
    arguments: &impl Env,
    errors: &impl Print,
    usage: &[u8],
) -> Option<Revision> {
    let revision = named(arguments);
    if revision.is_none() {
        let _ = errors.write_all(usage);
    }
    revision
}
