//! The laws of compiled sources: every accepted source's image keeps all that the crash theorem asks, and so its runs stand for the
//! source's, cut wherever the power fails. It has no code that runs: what it says are the contracts of its laws.
#![tactic(auto)]

mod laws;

pub use laws::{
    bounds_pay_for_transitions, code_keeps_the_laws, code_stays, one_charge_reads_in_order,
    runs_stand_for_the_source, runs_stop_where_the_source_is_short, sources_are_ready,
    sources_keep_the_laws, words_are_sent_once,
};
