//! The programs of tasks.

use crate::program::WordProgram;

/// The programs of a task: its own, and that of each function that it reaches, in order of declaration.
#[derive(Drop)]
pub struct TaskPrograms {
    pub own: WordProgram,
    pub routines: Vec<WordProgram>,
}
