//! What the code of a word program costs at most: the cycles of its dearest way, whatever the words are that decide it.
#![tactic(auto)]

pub mod laws;
