//! The code of a compiled source: boot, commit and tasks as one list of instructions that stands in FRAM.
#![tactic(auto)]

mod laws;

pub use laws::{
    layouts_have_room, linked_code_keeps_above_its_stacks, linked_code_stands, linked_is_code,
};
