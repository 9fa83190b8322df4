//! Laws of what becomes of events in the runs of a program with the handler beside it. It has no code that runs: what it says of runs are
//! the contracts of its laws.
#![tactic(auto)]

mod laws;

pub use laws::{hands_are_kept, ring_holds_accepted, runs_take_in_order};
