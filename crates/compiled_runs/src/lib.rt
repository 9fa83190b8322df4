//! The code of a compiled source as a program that runs on the machine, and that it keeps what the crash theorem asks of it.
#![tactic(auto)]

mod laws;

pub use laws::{
    code_is_placed, code_keeps_the_laws, code_keeps_to_needs, needs_keep_the_laws,
    power_ups_raise_version, runs_leave_the_code, sources_have_room,
};
