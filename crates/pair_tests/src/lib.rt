//! Tests of the run of two boards over a radio, on programs by hand.
#![tactic(auto)]

#[cfg(test)]
mod listings;
#[cfg(test)]
mod pairs;
