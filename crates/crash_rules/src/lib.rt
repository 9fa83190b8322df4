//! The crash theorem, from what the layers of a compiled program owe: whatever its source, and wherever its words are in
//! FRAM.
#![tactic(auto)]

mod laws;

pub use laws::{
    Compiled, charges_are_spent_on_tasks, charges_stand_for_runs, effects_tell_the_events,
    halts_where_the_source_is_short, n_bounds_have_n_dones, nothing_is_lost,
    one_charge_takes_readings_behind_a_commit, one_charge_takes_readings_in_order,
    pending_words_are_sent_once, runs_may_begin, stores_are_the_scripts, words_are_sent_once,
};
