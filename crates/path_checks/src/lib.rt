//! The checks of a looked-up source on its loops and its paths, of functions, also those that nothing calls, and of tasks: of each the first place in the
//! text that it refuses. Only that of unassigned locals takes memory.
#![tactic(auto)]

mod ends;
mod firsts;
mod loops;
mod unassigned;
mod walk;
mod ways;

pub use ends::{first_open_function, first_open_task};
pub use loops::first_bad_loop;
pub use unassigned::first_unassigned;
