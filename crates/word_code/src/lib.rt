//! The code of word programs: which instructions each step and each test has, where which words wait, and the laws that they do what the
//! program does. `codegen` makes that code.
#![tactic(auto)]

mod bounds;
pub mod laws;
mod waiting;

pub use bounds::Bound;
pub use waiting::Waiting;

// What their code is made of.
pub use code_forms as forms;
