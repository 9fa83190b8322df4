//! What the code of the boot and of the commit have in common: loops that count down, and stretches of code whose steps and
//! cycles are known exactly.
#![tactic(auto)]

mod addresses;
mod counted;
mod laws;

pub use addresses::start_address;
pub use counted::{loop_begin, loop_end};
pub use laws::{layout_is_in_fram, layout_keeps_apart};

// How boot and commit write their instructions.
pub use code_forms as forms;
