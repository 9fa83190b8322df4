//! What a board shows of its program's machine, beside a handler of events that runs between any two instructions of the program. It has
//! no code that runs: what it says of boards are the contracts of its laws.
#![tactic(auto)]

mod laws;

pub use laws::{handler_leaves_the_program, instructions_are_the_programs};
