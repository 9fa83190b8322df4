//! Saved states of a board, as texts and as values.
#![tactic(auto)]

mod parse;
mod print;
mod state;

pub use image_text::{Image, address_space};
pub use parse::parse_state;
pub use print::print_state;
pub use state::State;
