//! The word programs of a source's tasks keep the tasks' contract, and so a compiled source has all that the crash theorem needs.
#![tactic(auto)]

mod laws;

pub use laws::{
    attempts_store_below_code, compiled_sources_keep_the_laws, sources_take_in_order,
    tasks_keep_their_contract, tasks_leave_for_the_commit, tasks_list_few_words,
};
