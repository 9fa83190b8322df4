//! What tasks need of a charge, and the lines that tell it.
#![tactic(auto)]

mod lines;
mod needs;

pub use lines::push_needs;
pub use needs::{IfWay, TaskNeed, UndoNeed, greatest, greatest_undo};
