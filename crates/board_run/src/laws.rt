//! Laws of what becomes of events. The functions do nothing: their contracts are the laws.
ghost use Rattle.board_run.specs.Events.{AllWordsAreKnown, EventsAreAccounted, SilentRunsAcceptNothing, RinglessRunsAcceptNothing};

/// Each word that was taken from EVENT is accepted, lost in hand, or in hand still, and none is counted twice.
#[tactic(auto, using(crate::proofs::Hands::all_words_are_known))]
pub fn words_of_events_are_known()
    ensures { AllWordsAreKnown }
{}

/// Of a board that starts with events, each that arose in a run was accepted, was lost, or waits in the port or in hand, and none
/// is counted twice.
#[tactic(auto, using(crate::proofs::Accounts::events_are_accounted))]
pub fn events_are_accounted()
    ensures { EventsAreAccounted }
{}

/// Where no step reads EVENT nothing is accepted, and nothing is lost in hand.
#[tactic(auto, using(crate::proofs::Hands::silent_runs_accept_nothing))]
pub fn silent_runs_accept_nothing()
    ensures { SilentRunsAcceptNothing }
{}

/// Where a map has no ring, or an image no map, no event is accepted.
#[tactic(auto, using(crate::proofs::Hands::ringless_runs_accept_nothing))]
pub fn ringless_runs_accept_nothing()
    ensures { RinglessRunsAcceptNothing }
{}
