//! The memory map of a compiled source: the runtime's words, the buffers, the shared variables with their copies, and the code of
//! the boot, of the commit and of each task, each at a place of its own in the FRAM.
#![tactic(auto)]

mod laws;
mod layouts;
mod place;
mod runtime;
mod words;

pub use address_space::{FRAM_FIRST, OUTDATA, OUTNUM, RESET_VECTOR, STACK_TOP};
pub use event_places::{EVENT_COUNT, SENT_TAIL, TAIL};
pub use laws::{
    copies_are_apart, homes_are_apart, parts_are_apart, spots_are_apart, versions_are_apart,
    words_are_fram_words, words_differ,
};
pub use layouts::{Layout, Regions, TaskLayout};
pub use place::{ArrayCopies, PrivateScalar, Region, RoutinePlace, ScalarWidth, VariablePlace};
pub use runtime::{Logging, Role, Runtime};
pub use words::{ROW_WORDS, RuntimeWord};
