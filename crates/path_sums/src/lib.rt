//! What the paths of a checked block do, summed up from the bottom: a block's sum is the join of the sums of its paths.
#![tactic(auto)]

mod access;
mod reaches;

pub use access::{AccessSummary, access_summary, call_summaries, is_private, is_same, is_written};
pub use reaches::reaches_end;
