//! Laws of what a board stands for. The functions do nothing: their contracts are the laws. The type is what a state of the
//! source is.

ghost use Rattle.stands_for.specs.Program.{NumberedStarts, CommitStores, PendingCanCommit, KeepsTheLaws};

/// From a start and from tasks that keep their contracts follows all that the crash theorem needs: a commit keeps a decided
/// world decided and brings it to rest, whatever pending commit leaves a state still leaves it behind each of its effects, and an
/// attempt is undecided until it decides.
pub fn start_and_tasks_give_the_laws<S>()
    ensures { KeepsTheLaws S }
{}

/// The start that gives each attempt a number, and clears the version words once none is left, keeps the start's contract.
pub fn numbered_start_keeps_its_contract<S>()
    ensures { NumberedStarts S }
{}

/// Where a commit is pending, it finds what it needs.
pub fn a_pending_commit_can_be_made()
    ensures { PendingCanCommit }
{}

/// A pending commit stores to shared words and to the runtime's words alone.
pub fn commit_stores_to_shared_words()
    ensures { CommitStores }
{}
