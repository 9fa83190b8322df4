//! The commands of `alpaca-scope`, over any files and outputs.
#![tactic(auto)]

mod arguments;
mod bounds;
mod command;
mod needs;

pub use arguments::answer_arguments;
pub use command::alpaca_scope;

// The files and outputs that a caller hands over, and the status that it gets.
pub use plain_commands::answers::Status;
pub use plain_commands::outside::{
    DirShelf, Failed, MemShelf, MemSink, NoMemory, ReadFault, Shelf, Sink, StdSink, write_pieces,
};
