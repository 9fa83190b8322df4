//! Laws of code whose jumps go forward. The functions do nothing: their contracts are the laws.

ghost use Rattle.code_paths.specs.Laws.{RunsKeepToPaths, StarvingKeepsToPaths};

/// Code that comes somewhere or is short of a reading by itself does so in all code that it is a part of; and within the cycles of its dearest path
/// where its jumps go forward.
#[tactic(auto, using(crate::proofs::Spends::runs_keep_to_paths, crate::proofs::Spends::starving_keeps_to_paths))]
pub fn code_keeps_to_its_paths()
    ensures runs { RunsKeepToPaths }
    ensures starves { StarvingKeepsToPaths }
{}
