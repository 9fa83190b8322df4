//! Functions that may end without a return, and tasks that may without a transition.

ghost use Rattle.std.specs.Prelude.{List, length};
ghost use Rattle.task_ast.specs.View.{block_view, function_of, task_of, program_of};
ghost use Rattle.task_ast.specs.Calls.{BlockCallsBelow, CallsAreKnown};
ghost use Rattle.path_checks.specs.Firsts.{CheckedFunction, IsFirst};
ghost use Rattle.path_checks.specs.Ends.{OpenAt, NoReturnAt, NoTransitionAt};

use crate::firsts::first_of;
use alp_text::Span;
use path_sums::reaches_end;
use task_ast::{CheckedSource, FunctionName, Stmt, TaskName, VariableName};

fn open_name(name: Span, body: &[Stmt<VariableName, TaskName, FunctionName>]) -> Option<Span>
    ensures { (functions : List CheckedFunction) → BlockCallsBelow (length functions) (block_view body.now) → IsFirst result
        (OpenAt functions name (block_view body.now)) }
{
    if reaches_end(body) { Some(name) } else { None }
}

/// The first function of a source that some path leaves without a return, by its name in its declaration.
pub fn first_open_function(source: &CheckedSource) -> Option<Span>
    ensures { CallsAreKnown (program_of source.now) → IsFirst result (NoReturnAt (program_of source.now)) }
{
    let mut first = None;
    for i in (0..source.functions.len()).rev() {
        let function = &source.functions[i];
        first = first_of(open_name(function.name, &function.body), first);
    }
    first
}

/// The first task of a source that some path leaves without a transition, by its name in its declaration.
pub fn first_open_task(source: &CheckedSource) -> Option<Span>
    ensures { CallsAreKnown (program_of source.now) → IsFirst result (NoTransitionAt (program_of source.now)) }
{
    let mut first = None;
    for i in (0..source.tasks.len()).rev() {
        let task = &source.tasks[i];
        first = first_of(open_name(task.name, &task.body), first);
    }
    first
}
