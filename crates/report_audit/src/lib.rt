//! A report checked by its source alone: whether a source could have told it, line by line, on the readings that it names.
#![tactic(auto)]

mod compare;
mod entry;
mod expected;
mod front;
mod report;
mod verdict;

pub use report::audit;
pub use verdict::{AuditFault, Verdict};
