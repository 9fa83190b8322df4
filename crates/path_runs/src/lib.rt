//! What the paths of a block tell of its runs.
#![tactic(auto)]

mod laws;

pub use laws::{first_writes_forget, runs_go_on_along_paths};
