//! The map of a source with its layout: where its variables stand, and the private scalars of its tasks.
#![tactic(auto)]

mod laws;
mod map;

pub use laws::{maps_are_of_sources, names_are_names};
pub use map::map_of;
