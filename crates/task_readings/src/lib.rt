//! How many readings a task's text takes at most, and that no attempt takes more. It has no code that runs: what it says of sources are the contracts of
//! its laws.
#![tactic(auto)]

mod laws;

pub use laws::{attempts_take_few, transitions_take_few};
