//! The image of an accepted source, as a definition, and its laws.
//!
//! It has the words of the source's code, the reset vector, the entry task's number and the initial words of shared scalars, and a map. A text has
//! one image for each runtime; before anything was done its world rests at the source's first state; its map finds the state of each of its worlds.
//! The crate has no code that runs: what it says of images are the contracts of its laws. `link_image` makes images.
#![tactic(auto)]

mod laws;

pub use laws::{images_are_fresh, images_are_one, images_have_states, maps_find_states};
