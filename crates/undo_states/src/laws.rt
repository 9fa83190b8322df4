//! Laws of what a board stands for under undo. The functions do nothing: their contracts are the laws. The type is what a state of the
//! source is.

ghost use Rattle.undo_states.specs.Program.{UndoKeepsTheLaws, LoggingStarts, ElementStoresStay, SharedStoresStay};

/// From a start and from tasks that keep their contracts follows all that the crash theorem needs: a commit keeps a decided world decided
/// and brings it to rest, a recovery that is cut anywhere and begun again leaves what the state has and an empty list, and an attempt is
/// undecided until it decides.
pub fn start_and_tasks_give_the_laws<S>()
    ensures { UndoKeepsTheLaws S }
{}

/// The start that gives each attempt a number and logs the words of its private scalars keeps the start's contract.
pub fn logging_start_keeps_its_contract<S>()
    ensures { LoggingStarts S }
{}

/// A store to an element, which the first store of an attempt logs before it, leaves a world undecided at each of its stores; so does a
/// store to a word that is logged, or that the task writes in place.
pub fn stores_stay_undecided<S>()
    ensures elements { ElementStoresStay S }
    ensures scalars { SharedStoresStay S }
{}
