//! The dearest way of a word program's code, its cycles and its choices, as they are computed: each step's code is made and priced by itself, and joined by how
//! tests, choices and loops go on.
#![tactic(auto)]

mod calls;
mod program;

pub use calls::CallCost;
pub use program::{DearestWay, body_cycles, dearest_way};
