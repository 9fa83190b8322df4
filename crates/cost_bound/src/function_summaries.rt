//! The summaries of functions: what a call of each comes to, with all that it calls.
ghost use Rattle.std.specs.Prelude.{◌≡◌, ◌≤◌, length, map};
ghost use Rattle.arrayvec.specs.ArrayVec.{array_vec_len};
ghost use Rattle.task_ast.specs.View.{block_view, function_of};
ghost use Rattle.cost_bound.specs.Counts.{emits_of, stores_of, assigns_of, reaches_of};
ghost use Rattle.cost_bound.specs.Summaries.{function_summary, function_summaries};
ghost use Rattle.cost_bound.specs.Machine.{known_of, summary_of, IsSame, AreSame};

use crate::assigned::assigned_variables;
use crate::calls::reached_functions;
use crate::frames::{deepest, frame};
use crate::prices::{CYCLES, EMITS, block_price, plus, words_column};
use crate::stores::store_counts;
use crate::{FUNCTIONS, SHARED};
use arrayvec::ArrayVec;
use task_ast::{FunctionDeclaration, FunctionName, TaskName, VariableName};

/// What a call of a function comes to, with all that it calls; 2^64 - 1 where a number is more.
#[derive(Clone, Copy)]
pub struct FunctionSummary {
    /// The cycles of its body.
    pub cycles: u64,
    /// The words of its body's code, without the code of what it calls.
    pub words: u64,
    /// The counted emits.
    pub emits: u64,
    /// The counted stores to each shared array, by the array's number.
    pub stores: [u64; SHARED],
    /// The shared variables that stand on the left of an assignment, by number.
    pub assigns: [bool; SHARED],
    /// The functions that it calls, and those that they reach, by number.
    pub reaches: [bool; SHARED],
    /// The words of the greatest chain of frames that begins with its own.
    pub depth: u64,
}

impl Default for FunctionSummary {
    fn default() -> Self {
        FunctionSummary {
            cycles: 0,
            words: 0,
            emits: 0,
            stores: [0; SHARED],
            assigns: [false; SHARED],
            reaches: [false; SHARED],
            depth: 0,
        }
    }
}

/// The summaries of a source's functions, in the order of the text.
pub type Summaries = ArrayVec<FunctionSummary, FUNCTIONS>;

// The summary of a function, where these are those of the functions in front of it.
fn summary(
    functions: &[FunctionSummary],
    function: &FunctionDeclaration<VariableName, TaskName, FunctionName>,
) -> FunctionSummary
    requires few { length functions.now ≤ 64 }
    ensures { IsSame (summary_of result) (function_summary (known_of functions.now) (function_of function.now)) }
{
    let parameters = function.parameters.as_slice();
    let body = function.body.as_slice();
    FunctionSummary {
        cycles: block_price(functions, &CYCLES, body),
        words: block_price(functions, &words_column(0), body),
        emits: block_price(functions, &EMITS, body),
        stores: store_counts(functions, body),
        assigns: assigned_variables(functions, body),
        reaches: reached_functions(functions, body),
        depth: plus(
            frame(parameters.len() as u64, body),
            deepest(functions, body),
        ),
    }
}

/// The summaries of the functions of a source.
pub fn summaries(
    functions: &[FunctionDeclaration<VariableName, TaskName, FunctionName>],
) -> Summaries
    requires few { length functions.now ≤ 64 }
    ensures { AreSame (known_of result.items) (function_summaries (map function_of functions.now)) }
{
    let mut known = ArrayVec::new();
    for i in 0..functions.len() {
        let next = summary(&known, &functions[i]);
        known.push(next);
    }
    known
}
