//! A sink that puts a letter and a blank in front of each line.
#![tactic(auto)]

mod origin;
mod prefixed;

pub use origin::LineOrigin;
pub use prefixed::PrefixedLines;
