//! Sources and traces that are drawn from a number, for trying the whole program.
#![tactic(auto)]

mod generator;
mod laws;
mod source;
mod trace;

// What a drawn trace is made of.
pub use energy_trace::{Charge, ChargeKind};
pub use laws::{rows_of_zero, statement_rows};
pub use source::generated_source;
pub use trace::generated_trace;
