//! What the tasks of a checked source do: the values of expressions, the effects of statements, and the run of a source as
//! whole tasks, one after another.
#![tactic(auto)]

mod frame;
pub mod laws;
mod marks;
mod numbers;
mod operators;
mod run;
mod scratch;
mod statements;
mod tracked;
mod values;

pub use laws::{answers_left_over, readings_left_over, worked_calls, worked_rows};
pub use numbers::two_words;
pub use run::{Done, Short, SourceRun, initial_words};
