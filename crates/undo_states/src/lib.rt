//! What FRAM and the accepted words stand for under undo, and that commit, start, recovery and the stores of tasks keep it.
#![tactic(auto)]

mod laws;

pub use laws::{
    logging_start_keeps_its_contract, start_and_tasks_give_the_laws, stores_stay_undecided,
};
