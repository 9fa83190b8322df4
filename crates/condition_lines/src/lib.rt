//! Where the conditions of a source stand, the line of each `if` of a text and the numbers of its conditions; and which ways a task goes at them.
#![tactic(auto)]

mod behind;
mod conditions;
mod lines;
mod ways;

pub use behind::behind_functions;
pub use conditions::task_ifs;
pub use lines::if_lines;
pub use ways::task_ways;
