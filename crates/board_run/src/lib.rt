//! Runs of a board under a trace, and their reports.
#![tactic(auto)]

mod head;
mod laws;
mod numbers;
mod seen;
mod shadow;
mod spend;
mod state;
mod stepwise;
mod tally;
mod trace_run;
mod watch;

pub use laws::{
    events_are_accounted, ringless_runs_accept_nothing, silent_runs_accept_nothing,
    words_of_events_are_known,
};
pub use stepwise::{Advance, StepwiseRun};
pub use trace_run::{RunEnd, RunFault, run};
pub use watch::Watch;
