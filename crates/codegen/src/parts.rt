//! The code of parts of programs, for those who count what they cost.

pub use crate::bounds::bounds_within;
pub use crate::decisions::{code_words, emit_compares, emit_holds, emit_pass_over};
pub use crate::locals::{emit_stack_set, steps_locals};
pub use crate::program::{emit_block, emit_step, emit_test, words_if};
pub use crate::steps::{emit_number, emit_turn_end};
pub use crate::waiting::{emit_all, emit_flushed};
