//! The forms of instructions that the compiler and its runtime write: few of all instructions, and told apart by what they do. What
//! instruction each is, and how long.
#![tactic(auto)]

mod encoding;
mod kinds;

pub use encoding::{form_words, instruction_of, jump};
pub use kinds::{Form, Modification, Source, Target, WorkRegister};
pub use msp_isa::{Condition, Instr, Konst, TwoOp};
