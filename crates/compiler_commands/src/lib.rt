//! The commands that compile: `build`, `try`, `undo` and `gen`.
#![tactic(auto)]

mod build;
mod built;
mod gen_lines;
mod generate;
mod try_;

pub use build::{BuildNames, answer_build};
pub use generate::answer_gen;
pub use try_::{TryNames, answer_try, answer_undo};

// The whole compiler as a call, for each runtime.
pub use link_image::{compile, compile_undo};
