//! From the tree of a checked source to word programs: one for each task, and in the task one for each function that it reaches.
//!
//! An expression works on the stack, its parts from left to right. A call leaves the values of its arguments there, takes them as the
//! first locals of the function, and leaves the word that the function returns. A shared scalar has one address in a task: that of its
//! copy where it is private there, else that of its word. An element of an array that the task writes is read and stored by its
//! version; of one that it only reads, where it stands. Under undo scalars and elements are read and stored where they stand, and an
//! element is listed in front of the first store to it. A transition stores the next task and an entry of the commit list for each
//! run of neighbouring private scalars, freezes the number of the next word to send, and raises the gate; then it leaves for the commit.
#![tactic(auto)]

mod expressions;
mod in_place;
pub mod laws;
mod lowering;
mod operations;
mod runs;
mod statements;

pub use lowering::lower;
