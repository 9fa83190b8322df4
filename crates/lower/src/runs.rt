//! Private scalars whose words and copies are neighbours, joined.
ghost use Rattle.std.specs.Prelude.{◌≡◌, ◌<◌, ◌+◌, true, OnOk};
ghost use Rattle.memory_map.specs.Places.{scalar_words};
ghost use Rattle.array_versions.specs.Program.{joined};
ghost use Rattle.array_versions.specs.View.{program_of};
ghost use Rattle.lower.specs.Runs.{run_at, is_followed_by, longer, runs_from, runs_of};
ghost use Rattle.lower.specs.Lowered.{entries};

use array_versions::WordProgram;
use memory_map::PrivateScalar;
use std::alloc::AllocError;

/// Neighbouring words: the first home, the first copy, and how many they are.
#[derive(Clone, Copy)]
pub struct Run {
    pub home: u16,
    pub copy: u16,
    pub words: u16,
}

// A scalar alone.
fn run_at(scalar: &PrivateScalar) -> Run
    ensures { result ≡ run_at scalar.now }
{
    Run {
        home: scalar.home,
        copy: scalar.copy,
        words: scalar.width.words(),
    }
}

// Whether the words and the copy of a scalar stand right behind a run. Then the run has room for them.
#[tactic(auto, using(crate::proofs::Neighbours::followed_has_room))]
fn is_followed_by(run: Run, scalar: &PrivateScalar) -> bool
    ensures is { result ≡ is_followed_by run scalar.now }
    ensures room { result ≡ true → run.words + scalar_words scalar.now.width < 65536 }
{
    let bytes = 2 * run.words as u32;
    run.home as u32 + bytes == scalar.home as u32 && run.copy as u32 + bytes == scalar.copy as u32
}

// A run with the words of a scalar more.
fn longer(run: Run, scalar: &PrivateScalar) -> Run
    requires { run.words + scalar_words scalar.now.width < 65536 }
    ensures { result ≡ longer run scalar.now }
{
    Run {
        home: run.home,
        copy: run.copy,
        words: run.words + scalar.width.words(),
    }
}

// An entry of the commit list for a run, and for those of the scalars behind it.
#[tactic(auto, using(crate::proofs::Chains::entries_joined, crate::proofs::Chains::entries_apart, crate::proofs::Chains::entries_end))]
fn list_from(
    first: Run,
    privates: &[PrivateScalar],
    count: u16,
    list: u16,
    program: &mut WordProgram,
) -> Result<(), AllocError>
    ensures { OnOk result (program_of program.new
        ≡ joined (program_of program.old) (entries count list (runs_from first privates.now))) }
{
    let mut run = first;
    for scalar in privates {
        if is_followed_by(run, scalar) {
            run = longer(run, scalar);
        } else {
            program.list_entry(count, list, run.home, run.copy, run.words)?;
            run = run_at(scalar);
        }
    }
    program.list_entry(count, list, run.home, run.copy, run.words)
}

/// Appends an entry of the commit list for each run of private scalars.
#[tactic(auto, using(array_versions::proofs::Interface::joined_nothing))]
pub fn list_entries(
    privates: &[PrivateScalar],
    count: u16,
    list: u16,
    program: &mut WordProgram,
) -> Result<(), AllocError>
    ensures { OnOk result (program_of program.new
        ≡ joined (program_of program.old) (entries count list (runs_of privates.now))) }
{
    match privates.split_first() {
        None => Ok(()),
        Some((first, rest)) => list_from(run_at(first), rest, count, list, program),
    }
}
