//! The entries of a commit list that are of private scalars: one for each run of neighbours.

ghost use Rattle.std.specs.Prelude.{◌≡◌, ◌≤◌, ◌+◌, length};
ghost use Rattle.memory_map.specs.Spots.{private_words};
ghost use Rattle.lower.specs.Runs.{run_at, is_followed_by, longer, runs_from, runs_of};
ghost use Rattle.source_needs.specs.Stretches.{run_of};

use memory_map::PrivateScalar;

/// Neighbouring words: the first home, the first copy, and how many they are.
#[derive(Clone, Copy)]
pub struct Stretch {
    home: u16,
    copy: u16,
    words: u32,
}

// A scalar alone.
#[tactic(auto, using(crate::proofs::Stretches::at_most_two))]
fn stretch_at(scalar: &PrivateScalar) -> Stretch
    ensures run { run_of result ≡ run_at scalar.now }
    ensures words { result.words ≤ 2 }
{
    Stretch {
        home: scalar.home,
        copy: scalar.copy,
        words: scalar.width.words() as u32,
    }
}

// Whether the words and the copy of a scalar stand right behind it.
fn is_followed_by(stretch: Stretch, scalar: &PrivateScalar) -> bool
    requires { stretch.words ≤ 0xFFFF }
    ensures { result ≡ is_followed_by (run_of stretch) scalar.now }
{
    let bytes = 2 * stretch.words;
    stretch.home as u32 + bytes == scalar.home as u32
        && stretch.copy as u32 + bytes == scalar.copy as u32
}

// With the words of a scalar more.
#[tactic(auto, using(crate::proofs::Stretches::at_most_two))]
fn longer(stretch: Stretch, scalar: &PrivateScalar) -> Stretch
    requires { stretch.words ≤ 0xFFFF }
    ensures run { run_of result ≡ longer (run_of stretch) scalar.now }
    ensures words { result.words ≤ stretch.words + 2 }
{
    Stretch {
        home: stretch.home,
        copy: stretch.copy,
        words: stretch.words + scalar.width.words() as u32,
    }
}

// How many runs a stretch and the scalars behind it make.
#[tactic(auto, using(crate::proofs::Stretches::followed, crate::proofs::Stretches::apart, crate::proofs::Stretches::last_run))]
fn runs_behind(first: Stretch, privates: &[PrivateScalar]) -> u32
    requires few { length privates.now ≤ 512 }
    requires short { first.words ≤ 2 }
    ensures value { result ≡ length (runs_from (run_of first) privates.now) }
    ensures low { result ≤ length privates.now + 1 }
{
    let mut stretch = first;
    let mut count = 1;
    for scalar in privates {
        if is_followed_by(stretch, scalar) {
            stretch = longer(stretch, scalar);
        } else {
            count += 1;
            stretch = stretch_at(scalar);
        }
    }
    count
}

/// How many runs of neighbours private scalars make.
pub fn run_count(privates: &[PrivateScalar]) -> u32
    requires { length privates.now ≤ 512 }
    ensures value { result ≡ length (runs_of privates.now) }
    ensures low { result ≤ 513 }
{
    match privates.split_first() {
        None => 0,
        Some((first, rest)) => runs_behind(stretch_at(first), rest),
    }
}

/// How many words private scalars have.
#[tactic(auto, using(crate::proofs::Stretches::at_most_two))]
pub fn word_count(privates: &[PrivateScalar]) -> u32
    requires { length privates.now ≤ 512 }
    ensures value { result ≡ private_words privates.now }
    ensures low { result ≤ 1024 }
{
    let mut words = 0;
    for i in (0..privates.len()).rev() {
        words += privates[i].width.words() as u32;
    }
    words
}
