//! What each task of a source needs of a charge: the cycles that its linked code takes at most, whatever its readings. It has no code that runs: what it
//! says of linked code are the contracts of its laws.
#![tactic(auto)]

mod laws;

pub use laws::{
    attempts_are_counted, own_commits_are_counted, pending_commits_are_counted,
    tasks_keep_to_their_ways,
};
