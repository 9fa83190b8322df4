//! The commands on saved states: `save`, `resume` and `migrate`.
#![tactic(auto)]

mod migrate;
mod resume;
mod save;
mod state_words;

pub use migrate::{MigrateNames, answer_migrate};
pub use resume::{ResumeNames, answer_resume};
pub use save::{SaveNames, answer_save};

// That a migration has one answer, and when there is one.
pub use fram_state::{answers_are_one, no_migration_is_refused};
