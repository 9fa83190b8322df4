//! The run of two boards over a radio, step by step as a schedule says, and its report.
#![tactic(auto)]

mod listener;
mod rounds;
mod run;
mod sides;

pub use run::run_pair;
