//! What a charge takes of the outside at most, and offers to it: the readings and the words since its power-up, or since a done in it. It has no code that
//! runs: what it says of compiled sources are the contracts of its laws.
#![tactic(auto)]

mod laws;

pub use laws::{readings_are_few, words_are_few};
