//! The report of a source's meaning: the lines of its transitions, and the whole report of `mean`.
#![tactic(auto)]

mod changes;
pub mod laws;
mod names;
mod report;

pub use laws::mean_report_is_determined;
pub use names::spelled;
pub use report::{write_mean_report, write_transition};
