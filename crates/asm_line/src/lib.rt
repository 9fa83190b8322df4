//! One line of an assembler text: its label, its operation and its operands.
#![tactic(auto)]

mod cuts;
mod filling;
mod laws;
mod lists;
mod numbers;
mod operands;
mod parse;
mod piece;
mod registers;
mod statements;
mod tables;
mod values;

pub use cuts::cut_line;
pub use filling::{fill, offset_to};
pub use laws::lines_say_the_same_anywhere;
pub use lists::next_value;
pub use parse::line_of;
pub use piece::Piece;
pub use statements::{Line, Statement, Template, WordList};
pub use values::Value;
