//! The forms of instructions that the compiler and its runtime write. The contracts of laws tell what they do, and what code does that
//! is made of them and stands in FRAM.
#![tactic(auto)]

mod laws;

pub use instruction_forms::{
    Condition, Form, Instr, Konst, Modification, Source, Target, TwoOp, WorkRegister, form_words,
    instruction_of, jump,
};
pub use laws::{
    code_in_fram_steps, code_keeps_the_rules_of_interrupts, forms_do_as_instructions,
    forms_keep_the_stack, forms_read_from_sp, placed_code_stands, powered_machine_has_a_core,
    straight_code_leads,
};
