//! The dearest ways through stretches of code: what they cost and which choices they take, joined as tests, choices and loops go on.
#![tactic(auto)]

mod choices;
mod counts;
mod ways;

pub use choices::Choices;
pub use counts::counts_of;
pub use ways::{
    Forks, Way, Ways, all_turns, behind, both, choice, chosen, forked, leaving, most_of, one_of,
    straight, turned,
};
