//! The commands of the program, over any files and outputs.
#![tactic(auto)]

mod arguments;
mod calls;
mod command;
pub mod laws;

pub use arguments::answer_arguments;
pub use command::alpaca;
pub use laws::printed_reports_are_good;

// The files and outputs that a caller hands over, and the status that it gets.
pub use plain_commands::answers::Status;
pub use plain_commands::outside::{
    DirShelf, Failed, MemShelf, MemSink, NoMemory, ReadFault, Shelf, Sink, StdSink, write_pieces,
};

// What stands behind the commands, for programs that call it by itself.
pub use compiler_commands::compile;
pub use plain_commands::boards::Board;
pub use plain_commands::texts::{
    Meaning, accept, parse_image, parse_trace, print_image, print_trace,
};
