//! What each task of a checked source works on in copies: its private scalars and its versioned arrays.
#![tactic(auto)]

mod analysis;
mod laws;
mod plan;

pub use analysis::analyse;
pub use laws::one_plan;
pub use plan::{Plan, TaskPlan};
