//! Word programs: what a task does, one word at a time, with addresses in place of names. A program works on a stack of
//! words, on locals that live for one attempt, and on the words of FRAM; it takes readings, and leaves by a jump.
#![tactic(auto)]

pub mod laws;
mod operations;
mod program;
mod tasks;

pub use operations::{
    BinaryOperation, Comparison, LongOperation, PlainOperation, ShiftOperation, UnaryOperation,
};
pub use program::{ArrayPlace, ListPlace, LoggedPlace, WordProgram, WordStep, WordTest};
pub use tasks::TaskPrograms;
