//! Saved states of compiled images: which worlds they are, and what their runs tell. It has no code that runs: what it says of states are
//! the contracts of its laws.
#![tactic(auto)]

mod laws;

pub use laws::{
    fresh_states_belong, images_suit_their_sources, migrated_states_belong, states_are_told,
    states_are_worlds, states_go_on, states_stay, worlds_are_states,
};
