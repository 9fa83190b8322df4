//! What a checked source may cost: cycles and words by a table of prices, and the room that its tasks need.
#![tactic(auto)]

ghost use Rattle.std.specs.Prelude.{IfOk, IfErr};
ghost use Rattle.task_ast.specs.View.{program_of};
ghost use Rattle.cost_bound.specs.Allowance.{IsAllowed, IsOver};

mod allowance;
mod assigned;
mod calls;
mod fault;
mod frames;
mod function_summaries;
mod laws;
mod marks;
mod prices;
mod shared;
mod stores;

pub use allowance::{
    Allow, Needs, assigned_scalars, code_words, own_code_words, task_needs, uses_events,
    written_variables,
};
pub use assigned::assigned_variables;
pub use calls::{called_functions, reached_functions};
pub use fault::Over;
pub use frames::{block_locals, stack};
pub use function_summaries::{FunctionSummary, Summaries, summaries};
pub use laws::{allowance_rows, allowed_is_small, long_price_rows, one_answer, price_rows};
use task_check::Checked;

/// How many shared variables a source has at most.
pub const SHARED: usize = 256;

/// How many functions a source has at most.
pub const FUNCTIONS: usize = 64;

/// The allowance of a checked source: its bound, its size and the room that its tasks need at most. Or the first that is too much:
/// more than 256 counted emits of a task, the first in the text; a bound of 2^32 cycles or more; more than 22,000 words; a stack of
/// more than 1,000 words.
///
/// Costs are counted in 64 bits and stand at 2^64 - 1 where they would pass it. It takes no memory.
pub fn allow(checked: &Checked) -> Result<Allow, Over>
    ensures ok { IfOk result (IsAllowed (program_of checked.now.source)) }
    ensures over { IfErr result (IsOver (program_of checked.now.source) checked.now.task_lines.items) }
{
    allowance::allowance(checked.source(), checked.task_lines())
}
