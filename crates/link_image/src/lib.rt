//! From an accepted source to its image: the words of the FRAM and the map.
//!
//! The code stands in one piece from the boot's address on, which is the reset vector: the boot, the commit and the tasks, each at
//! its place in the layout, with jumps to themselves in between. CUR holds the entry task's number and each shared scalar its
//! initial word; all other words of the data are 0.
#![tactic(auto)]

mod code;
mod linking;
mod words;

pub use linking::{compile, compile_undo, link_for};
