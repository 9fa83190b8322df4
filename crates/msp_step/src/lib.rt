//! One step of the MSP430 CPU on any bus: the instruction at PC, its execution, and its price.
#![tactic(auto)]

mod bus;
mod cpu;
mod effect;
mod laws;
mod machine;
mod operand;

pub use bus::{Bus, Refused};
pub use cpu::Cpu;
pub use laws::{
    accepts_at_the_vector, effect_writes_once, jumps_by_signed_words, step_is_determined,
    step_takes_its_cost,
};
pub use machine::{Stepped, Stop, Words, cost, current_instruction, current_words, execute, step};
pub use msp_isa::Width;
