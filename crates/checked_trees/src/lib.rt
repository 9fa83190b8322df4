//! What the tree of a source satisfies that no check refuses.
#![tactic(auto)]

mod laws;

pub use laws::sources_are_well_formed;
