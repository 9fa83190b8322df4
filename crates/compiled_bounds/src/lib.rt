//! What a compiled source's bound pays for, and what its runtime's words hold at most. It has no code that runs: what it says of
//! compiled sources are the contracts of its laws.
#![tactic(auto)]

mod laws;

pub use laws::{
    bound_is_the_sources, capacities_are_kept, logged_tasks_keep_to_the_bound,
    needs_keep_to_the_bound, table_covers_needs, tasks_keep_to_the_bound,
};
