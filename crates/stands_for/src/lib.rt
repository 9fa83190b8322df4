//! What FRAM and the accepted words stand for, and that commit and start keep it.
#![tactic(auto)]

mod laws;

pub use laws::{
    a_pending_commit_can_be_made, commit_stores_to_shared_words, numbered_start_keeps_its_contract,
    start_and_tasks_give_the_laws,
};
