//! Where the data and the code of a compiled source stand: how much room each part of its memory map takes, and where each
//! variable, each copy and each task's code begins.
#![tactic(auto)]

mod laws;
mod placing;
mod routines;
mod sizes;
mod tasks;
mod variables;

pub use laws::{frames_stand, layouts_are_logged, one_layout, one_logged_layout, routines_stand};
pub use memory_map::{
    ArrayCopies, Layout, PrivateScalar, Region, ScalarWidth, TaskLayout, VariablePlace,
};
pub use placing::layout;
