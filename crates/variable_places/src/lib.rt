//! Where the variables that a task works on stand: a scalar that is private in the task in its copy, all else at its home; and the arrays
//! that the task may write, with their copies and version words.
#![tactic(auto)]

mod places;

pub use places::{TaskPlaces, array_place, high_address, low_word};
