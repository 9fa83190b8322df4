//! The instructions of the MSP430 CPU as types of which each value has one row in TI's tables of addressing modes and opcodes.
#![tactic(auto)]

mod instructions;
mod offset;
mod operands;
mod registers;

pub use alp_words::Width;
pub use instructions::{Condition, Instr, OneOp, TwoOp};
pub use offset::Offset;
pub use operands::{Dst, Konst, Operand, Src};
pub use registers::{IndexRegister, IndirectRegister, Reg, SourceRegister};
