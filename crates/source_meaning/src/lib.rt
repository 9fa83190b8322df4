//! Texts of sources: which are accepted, the refusal of each other one, and the meaning of an accepted one, run task by task.
#![tactic(auto)]

mod events;
mod fault;
mod laws;
mod passes;
mod state;

pub use events::first_event;
pub use fault::SourceFault;
pub use laws::{accepted_texts_run, one_answer, one_program};
pub use passes::{Accepted, accept};
pub use source_values::{Done, Short, initial_words};
pub use state::Meaning;
