//! Laws of runs with events. The functions do nothing: their contracts are the laws.

ghost use Rattle.event_rules.specs.Laws.{HandsAreKept, WaitsInTheHandler, RingHoldsAccepted, RunsTakeInOrder};

use crash_rules::Compiled;

/// A word that a read of EVENT took is lost in hand only at a power-up, or as a handler returns that found the ring full; it is accepted only
/// as it stands in the slot of HEAD. Outside the handler none is in hand, so an event that waits is in the port there.
pub fn hands_are_kept<S: Compiled>()
    ensures kept { HandsAreKept S.program }
    ensures waits { WaitsInTheHandler S.program }
{}

/// At each boundary of a run HEAD counts the accepted words, and the last 63 of them stand in their slots: neither the program nor a power-up
/// changes them.
pub fn ring_holds_accepted<S: Compiled>()
    ensures { RingHoldsAccepted S.program }
{}

/// Where recoveries, attempts and commits take words of the ring in order, as far as they are shown what the board holds there, so does each
/// run, cut anywhere: behind each power-up anew.
pub fn runs_take_in_order<S: Compiled>()
    ensures { RunsTakeInOrder S.model S.program }
{}
