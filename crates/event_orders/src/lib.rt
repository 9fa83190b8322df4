//! The order of events: laws of what a program takes of the ring that its handler fills. It has no code that runs: what it says of runs are
//! the contracts of its laws.
#![tactic(auto)]

mod laws;

pub use laws::rings_keep_order;
