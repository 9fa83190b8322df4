//! What each task of an accepted source needs of a charge, by the code that is linked.
#![tactic(auto)]

mod calls;
mod needs;
mod parts;
mod runs;

pub use needs::needs_of;
