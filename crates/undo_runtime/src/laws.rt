//! Laws of the undo runtime's code. The functions do nothing: their contracts are the laws.

ghost use Rattle.undo_runtime.specs.Laws.{UndoCommitIsFound, RecoveryIsMade, UndoStartIsMade, UndoCommitIsMade, UndoStartsAreShort, UndoBootIsShort};
ghost use Rattle.undo_runtime.specs.Laws.{UndoBootIsCode, UndoBootFits, UndoCommitIsShort, UndoCommitIsCode};
ghost use Rattle.undo_runtime.specs.Laws.{UndoCommitFits};

/// From its first instruction on, the boot comes to the commit where GATE is 1, and does nothing else; else it puts the entries of the list back, the last
/// one first, clears the list, and comes to the start of an attempt, whatever the registers hold.
#[tactic(auto, using(crate::proofs::Boot::undo_commit_is_found, crate::proofs::Boot::recovery_is_made))]
pub fn recovery_is_made()
    ensures commit { UndoCommitIsFound }
    ensures attempt { RecoveryIsMade }
{}

/// From the start of an attempt on, where nothing is logged, the code makes exactly the start's effects and comes to the code of the task that CUR names.
#[tactic(auto, using(crate::proofs::Boot::undo_start_is_made))]
pub fn undo_start_is_made()
    ensures { UndoStartIsMade }
{}

/// From where it stands the code makes exactly the commit and comes to the attempt's start, whatever the registers hold: in 30 cycles, 6 more where there
/// are events, and those of the sends.
#[tactic(auto, using(crate::proofs::Commit::undo_commit_is_made))]
pub fn undo_commit_is_made()
    ensures { UndoCommitIsMade }
{}

/// The start of an attempt takes 29 cycles at most, 4 more where there are events, and 15 for each word of its private scalars, but for the clearing.
#[tactic(auto, using(crate::proofs::Words::undo_starts_are_short))]
pub fn undo_starts_are_short()
    ensures { UndoStartsAreShort }
{}

/// The code of the boot is 50 words long, 5 more where there are events, and for each task 2, and where it has private scalars 2 more and 8 for each of
/// their words, which is within the allowance; each of its instructions has its words.
#[tactic(auto, using(crate::proofs::Words::undo_boot_is_short, crate::proofs::Words::undo_boot_is_code, crate::proofs::Words::undo_boot_fits))]
pub fn undo_boot_is_short()
    ensures short { UndoBootIsShort }
    ensures code { UndoBootIsCode }
    ensures fits { UndoBootFits }
{}

/// The code of the commit is 26 words long, 29 where there are events, which is within the allowance; each of its instructions has its words.
#[tactic(auto, using(crate::proofs::Words::undo_commit_is_short, crate::proofs::Words::undo_commit_is_code, crate::proofs::Words::undo_commit_fits))]
pub fn undo_commit_is_short()
    ensures short { UndoCommitIsShort }
    ensures code { UndoCommitIsCode }
    ensures fits { UndoCommitFits }
{}
