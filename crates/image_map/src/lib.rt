//! Maps of images: where the runtime's words, the shared variables and the tasks of a program stand, as lines of text and as values.
#![tactic(auto)]

mod fault;
mod line;
mod map;
mod name;
mod parse;
mod parts;
mod print;

pub use address_space;
pub use fault::MapFault;
pub use line::number_behind;
pub use map::{Map, is_fram_word};
pub use name::Name;
pub use parse::{MapText, read_map};
pub use parts::{Place, RING_WORDS, RingPlaces, RuntimeWords, Task, ValueType, Variable};
pub use print::push_map;
