//! A run of the board as charges of the machine, and of a program that stands in FRAM. It has no code that runs: what it says
//! of the board are the contracts of its laws.
#![tactic(auto)]

mod laws;

pub use laws::{boards_are_watched, fronts_are_charged, fronts_are_charges, interrupts_have_room};
