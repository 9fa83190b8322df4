//! Two boards over a radio: schedules, as texts and as values, and the air between the boards.
#![tactic(auto)]

mod air;
mod entry;
mod fault;
mod line;
mod parse;
mod print;
mod schedule;
mod sent;

pub use air::{Air, Packet};
pub use entry::Entry;
pub use fault::ScheduleFault;
pub use parse::parse_schedule;
pub use print::print_schedule;
pub use schedule::Schedule;
pub use sent::Sent;
