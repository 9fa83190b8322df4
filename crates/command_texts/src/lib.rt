//! The texts of each format, read for a command, and how each fault of one is told.
#![tactic(auto)]

mod assemblies;
mod images;
mod sources;
mod states;
mod traces;

pub use assemblies::assembly_of;
pub use images::image_of;
pub use sources::source_of;
pub use states::state_of;
pub use traces::trace_of;

// What the commands use of the crates below.
pub use command_answers as answers;
pub use command_answers::{
    mean_report_is_determined, outside as outside, print_u64, write_mean_report,
};
pub use energy_trace::{Trace, parse_trace, print_trace};
pub use image_text::{Image, parse_image, print_image};
pub use msp_asm::{disassemble, images_have_texts};
pub use source_meaning::{Accepted, Meaning, accept, accepted_texts_run, one_answer, one_program};
pub use state_text::{State, print_state};
