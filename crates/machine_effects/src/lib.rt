//! The machine: the board as functions of addresses, with steps that tell their effects; and that it is the board of
//! `fram_board`. It has no code that runs: what it says of the board are the contracts of its laws.
#![tactic(auto)]

mod laws;

pub use laws::{
    boards_of_words_stay_so, charges_accept_by_their_sends, code_changes_by_effects,
    code_keeps_the_handler, fresh_board_is_a_machine, instructions_look_as_on_the_board,
    machine_changes_by_effects, machine_is_blind, machine_steps_in_one_way,
    power_up_is_the_machines, steps_are_the_machines, steps_leave_boards_whole, words_stay_words,
    world_is_its_parts,
};
