//! Where the locals of functions and tasks stand. No function is active twice, so each has its locals at one place: in registers above those of
//! all that it calls, where they fit, and else in RAM.
#![tactic(auto)]

mod laws;
mod locals;

pub use laws::{depths_stand, locals_stand, reaches_go_on};
pub use locals::{FunctionLocals, Locals, all_locals, base, is_light};
