//! The board: the CPU with RAM, FRAM, a sensor, a port of events, a receiver and one side of a radio, or none, and what a run of it
//! is.
#![tactic(auto)]

mod board;
mod bus;
mod events;
mod laws;
mod radio;
mod receiver;

pub use board::{Board, NextStep, Stepped};
pub use events::Heard;
pub use laws::{
    acceptance_makes_its_stores, accepted_words_are_counted, board_has_one_run,
    board_step_is_determined, board_step_makes_its_effects, board_step_takes_its_cost,
    power_up_leaves_a_board,
};
