//! Laws of two boards over a radio, of which each keeps what it owes by itself: the words that one accepts are those that the other emits. It has no code
//! that runs: what it says of runs are the contracts of its laws.
#![tactic(auto)]

mod laws;

pub use laws::{actions_keep_joined, numbers_tell_places, pairs_keep_words, sides_are_runs};
