//! The word programs of accepted sources are whole.
#![tactic(auto)]

mod laws;

pub use laws::{
    calls_are_theirs, privates_are_few, programs_are_whole, routines_are_low, tasks_are_whole,
    tasks_keep_their_stacks,
};
