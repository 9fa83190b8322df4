//! Code for word programs: the forms that do what a program does, on a stack in RAM, and locals in registers and RAM.
#![tactic(auto)]

mod bounds;
mod calls;
mod decisions;
mod forms;
mod in_place;
mod locals;
mod logged;
mod longs;
mod operations;
pub mod parts;
mod program;
mod shifts;
mod steps;
mod versioned;
mod waiting;

// What the word programs that `emit` takes are made of, and what it makes of them.
pub use array_versions::{
    BinaryOperation, Comparison, LongOperation, PlainOperation, WordProgram, WordStep, WordTest,
};
pub use program::{emit, emit_routine};
pub use word_code::forms::{Form, instruction_of};
