//! The grammar of the language, and its parsers: from the front of a list of tokens to a tree and the tokens behind it.
#![tactic(auto)]

mod expression;
mod fault;
mod laws;
mod operators;
mod programs;
mod statement;
mod tokens;

pub use fault::Stop;
pub use laws::{bounded_nesting, one_answer};
pub use programs::program;
