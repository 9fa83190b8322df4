//! The commands that need no compiler: `mean`, `run`, `asm`, `dis` and `audit`.
#![tactic(auto)]

mod asm;
mod audits;
mod dis;
mod mean;
mod run;

pub use asm::{AsmNames, answer_asm};
pub use audits::{AuditNames, answer_audit};
pub use dis::answer_dis;
pub use mean::{MeanNames, answer_mean};
pub use run::{RunEnding, RunNames, answer_run, reason_of, write_report, write_run};

// What the commands above use of the crates below.
pub use board_run as board_runs;
pub use command_texts as texts;
pub use command_texts::{answers as answers, outside as outside};
pub use fram_board as boards;
