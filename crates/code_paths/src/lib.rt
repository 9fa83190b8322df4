//! The dearest path through code whose jumps all go forward: what the code spends at most, wherever it stands and whatever the words are that
//! decide its ways.
#![tactic(auto)]

mod laws;
mod paths;

pub use laws::code_keeps_to_its_paths;
pub use paths::{dearer, forward_most, plus};
