//! Runs of compiled sources through cuts of the power, each compared with the source's meaning on the readings that its
//! transitions took.
#![tactic(auto)]

#[cfg(test)]
mod cuts;
#[cfg(test)]
mod events;
#[cfg(test)]
mod meaning;
#[cfg(test)]
mod program;
#[cfg(test)]
mod rows;
#[cfg(test)]
mod saved;
#[cfg(test)]
mod sources;
#[cfg(test)]
mod undo;
