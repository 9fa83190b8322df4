//! Laws of the boot's code. The functions do nothing: their contracts are the laws.

ghost use Rattle.boot_runtime.specs.Laws.{PendingCommitIsFound, AttemptIsFound, StartIsMade, VersionIsRaised, StartsAreShort, ClearingIsDearest, BootIsShort};
ghost use Rattle.boot_runtime.specs.Laws.{BootIsCode, BootFits, StartStoresInFram, TasksAreEntered};

/// From its first instruction on, the boot comes to the commit where GATE is 1, and else to the start of an attempt, whatever the
/// registers hold. Where there are events it first sets SP and lets the CPU accept interrupts, where FRAM names the handler.
#[tactic(auto, using(crate::proofs::Boot::pending_commit_is_found, crate::proofs::Boot::attempt_is_found))]
pub fn boot_obeys_the_gate()
    ensures commit { PendingCommitIsFound }
    ensures attempt { AttemptIsFound }
{}

/// From the start of an attempt on, the code makes exactly the start's effects and comes to the code of the task that CUR names.
#[tactic(auto, using(crate::proofs::Boot::start_is_made))]
pub fn start_is_made()
    ensures { StartIsMade }
{}

/// In a charge that begins with GATE not 1 and VER not 65535 the fifth instruction raises VER, the seventh where there are events, and is the
/// first that stores: however soon the next cut comes behind it, the next attempt has another number.
#[tactic(auto, using(crate::proofs::Boot::version_is_raised))]
pub fn version_is_raised()
    ensures { VersionIsRaised }
{}

/// The start of an attempt takes 33 cycles at most, 4 more where there are events, and 6 for each word of its private scalars, whatever the
/// arrays; but for the clearing, which comes once in 65535 attempts.
#[tactic(auto, using(crate::proofs::Words::starts_are_short, crate::proofs::Words::clearing_is_dearest))]
pub fn starts_are_short()
    ensures short { StartsAreShort }
    ensures dearest { ClearingIsDearest }
{}

/// The code is 34 words long, 5 more where there are events, and for each task 2, and where it has private scalars 2 more and 3 for each of
/// their words, which is within the allowance; each of its instructions has its words.
pub fn boot_is_short()
    ensures short { BootIsShort }
    ensures code { BootIsCode }
    ensures fits { BootFits }
{}

/// All that the start of an attempt stores are words of FRAM.
#[tactic(auto, using(crate::proofs::Stores::start_stores_in_fram))]
pub fn start_stores_in_fram()
    ensures { StartStoresInFram }
{}

/// In a layout the code of each task stands at an even address, and its private scalars and their copies are words of FRAM.
pub fn tasks_are_entered()
    ensures { TasksAreEntered }
{}
