//! The checks of a parsed source: names, uses, loops, paths and limits; and the source with its names looked up.
#![tactic(auto)]

mod build;
mod checked;
mod collect;
mod fault;
mod judge;
mod laws;
mod occurrence;
mod passes;
mod placed;
mod symbol;
mod table;
mod text;
mod types;
mod walk;

pub use checked::Checked;
pub use fault::{CheckFault, Kept};
pub use laws::one_answer;
pub use passes::check;
