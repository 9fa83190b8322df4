//! A sink that keeps lines back and hands them on together, so that a report of many lines takes few writes.
#![tactic(auto)]

mod buffered;
mod holds;
mod origin;

pub use buffered::BufferedSink;
pub use holds::Holds;
pub use origin::Origin;
