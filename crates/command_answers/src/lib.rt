//! What every command shares: its files read in order and put, its texts refused in order, and its status with the one line to standard error.
#![tactic(auto)]

mod answers;
mod failure;
mod inputs;
mod laws;
pub mod messages;
mod names;
mod puts;
mod refusal;
mod status;

pub use answers::{answer_failure, answer_unread};
pub use failure::{Failure, refused_plainly};
pub use inputs::{Texts, ThreeTexts, Unread, read_file, read_texts, read_three_texts};
pub use laws::{names_are_told_plainly, told_names};
pub use puts::put_file;
pub use refusal::{Detail, Refusal, named, plain};
pub use status::Status;

// What the commands use of the crates below.
pub use alp_io as outside;
pub use alp_text::print_u64;
pub use source_report::{mean_report_is_determined, write_mean_report};
