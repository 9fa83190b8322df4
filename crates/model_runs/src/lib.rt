//! What a run of the board stands for, front by front, where its code is a program that keeps what it owes to a model. It has no
//! code that runs: what it says of runs are the contracts of its laws.
#![tactic(auto)]

mod laws;

pub use laws::{
    dones_are_few, first_histories_are_the_same, fronts_are_lawful, histories_stay_the_same,
    lines_are_of_dones, runs_make_progress, runs_stop_where_the_source_is_short, words_stay_within,
};
