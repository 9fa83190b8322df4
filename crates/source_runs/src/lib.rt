//! A run of the board as its source tells it, where the code keeps what it owes to a model whose tasks are the source's. It has no
//! code that runs: what it says of runs are the contracts of its laws.
#![tactic(auto)]

mod laws;

pub use laws::{
    dones_are_transitions, resumed_run_is_told_by_its_source, run_is_told_by_its_source,
    traces_are_few,
};
