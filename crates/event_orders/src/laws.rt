//! The law of the order in which a program takes its events. The function does nothing: its contract is the law.

ghost use Rattle.event_orders.specs.Laws.{RingsKeepOrder};

use crash_rules::Compiled;

/// In a run of a program that takes the words of the ring in order, each answer is the next of the words that waited at first or that the
/// handler accepted since, or 0 where none waited as the program looked; the answers of the attempts that are committed, joined, are the first
/// of these words; and at each boundary no more of them wait than the ring has slots.
pub fn rings_keep_order<S: Compiled>()
    ensures { RingsKeepOrder S.program }
{}
