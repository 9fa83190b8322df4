//! The words of stack that tasks and functions need.
ghost use Rattle.std.specs.Prelude.{◌≡◌, ◌≤◌, [], length, map, Option, false, if◌then◌else◌, slice_index_or};
ghost use Rattle.task_ast.specs.Tree.{choice_of};
ghost use Rattle.task_ast.specs.Paths.{CheckedBlock};
ghost use Rattle.task_ast.specs.View.{expression_of, statement_of, tested_of, block_view};
ghost use Rattle.cost_bound.specs.Table.{capped};
ghost use Rattle.cost_bound.specs.Counts.{most_called_from};
ghost use Rattle.cost_bound.specs.Frames.{expression_nodes, statement_nodes, choice_nodes, block_nodes, statement_locals, choice_locals, block_locals};
ghost use Rattle.cost_bound.specs.Frames.{frame_of, deepest, stack_of};
ghost use Rattle.cost_bound.specs.Machine.{summary_of, known_of};

use crate::SHARED;
use crate::calls::called_functions;
use crate::function_summaries::FunctionSummary;
use crate::prices::{NODES, expression_price, plus, times};
use task_ast::{Arm, Expr, FunctionName, Stmt, TaskName, VariableName};

fn expression_nodes(e: &Expr<VariableName, FunctionName>) -> u64
    ensures { result ≡ capped (expression_nodes (expression_of e.now)) }
{
    expression_price(&[], &NODES, e)
}

#[cycle(nodes)]
fn statement_nodes(s: &Stmt<VariableName, TaskName, FunctionName>) -> u64
    ensures { result ≡ capped (statement_nodes (statement_of s.now)) }
{
    match s {
        Stmt::Declare(_, _, None) | Stmt::TransitionTo(_, _) => 0,
        Stmt::Declare(_, _, Some(value))
        | Stmt::Assign(_, value)
        | Stmt::Emit(value)
        | Stmt::Return(_, value) => expression_nodes(value),
        Stmt::Store(_, index, value) => plus(expression_nodes(index), expression_nodes(value)),
        Stmt::If(arms, None) => choice_nodes(arms, 0),
        Stmt::If(arms, Some(last)) => {
            let last = block_nodes(last);
            choice_nodes(arms, last)
        }
        Stmt::For { body, .. } => block_nodes(body),
    }
}

// Of an `if` whose last block has a largest statement of so many nodes.
#[cycle(nodes)]
fn choice_nodes(arms: &[Arm<VariableName, TaskName, FunctionName>], last: u64) -> u64
    ensures { (b : Option CheckedBlock)
        → last ≡ capped (choice_nodes (choice_of [] b))
        → result ≡ capped (choice_nodes (choice_of (map tested_of arms.now) b)) }
{
    let mut n = last;
    for i in (0..arms.len()).rev() {
        let condition = expression_nodes(&arms[i].condition);
        let block = block_nodes(&arms[i].block);
        n = condition.max(block.max(n));
    }
    n
}

// The nodes of the largest statement.
#[cycle(nodes)]
fn block_nodes(body: &[Stmt<VariableName, TaskName, FunctionName>]) -> u64
    ensures { result ≡ capped (block_nodes (block_view body.now)) }
{
    let mut n = 0;
    for i in (0..body.len()).rev() {
        n = statement_nodes(&body[i]).max(n);
    }
    n
}

#[cycle(locals)]
fn statement_locals(s: &Stmt<VariableName, TaskName, FunctionName>) -> u64
    ensures { result ≡ capped (statement_locals (statement_of s.now)) }
{
    match s {
        Stmt::Declare(_, _, _) => 1,
        Stmt::If(arms, None) => choice_locals(arms, 0),
        Stmt::If(arms, Some(last)) => {
            let last = block_locals(last);
            choice_locals(arms, last)
        }
        Stmt::For { body, .. } => block_locals(body),
        Stmt::Assign(_, _)
        | Stmt::Store(_, _, _)
        | Stmt::Emit(_)
        | Stmt::Return(_, _)
        | Stmt::TransitionTo(_, _) => 0,
    }
}

// Of an `if` whose last block has so many.
#[cycle(locals)]
fn choice_locals(arms: &[Arm<VariableName, TaskName, FunctionName>], last: u64) -> u64
    ensures { (b : Option CheckedBlock)
        → last ≡ capped (choice_locals (choice_of [] b))
        → result ≡ capped (choice_locals (choice_of (map tested_of arms.now) b)) }
{
    let mut n = last;
    for i in (0..arms.len()).rev() {
        n = plus(block_locals(&arms[i].block), n);
    }
    n
}

/// The locals that are declared; 2^64 - 1 where they are more.
#[cycle(locals)]
pub fn block_locals(body: &[Stmt<VariableName, TaskName, FunctionName>]) -> u64
    ensures { result ≡ capped (block_locals (block_view body.now)) }
{
    let mut n = 0;
    for i in (0..body.len()).rev() {
        n = plus(statement_locals(&body[i]), n);
    }
    n
}

/// The frame of a task, or of a function with so many parameters, in words.
pub fn frame(parameters: u64, body: &[Stmt<VariableName, TaskName, FunctionName>]) -> u64
    ensures { result ≡ capped (frame_of parameters (block_view body.now)) }
{
    let locals = plus(parameters, block_locals(body));
    plus(locals, plus(times(2, block_nodes(body)), 4))
}

// A function's depth, where it is called.
fn depth_if(called: bool, function: &FunctionSummary) -> u64
    ensures { result ≡ (if called then (summary_of function.now).depth else 0) }
{
    if called { function.depth } else { 0 }
}

// The greatest depth of the functions that are called.
fn greatest_depth(functions: &[FunctionSummary], calls: &[bool; SHARED]) -> u64
    requires few { length functions.now ≤ 64 }
    ensures { result ≡ most_called_from (λ k. slice_index_or calls.now k false) (λ s. s.depth) 0 (known_of functions.now) }
{
    let mut n = 0;
    for k in (0..functions.len()).rev() {
        n = depth_if(calls[k], &functions[k]).max(n);
    }
    n
}

/// The greatest chain of frames of the functions that a text calls.
pub fn deepest(
    functions: &[FunctionSummary],
    body: &[Stmt<VariableName, TaskName, FunctionName>],
) -> u64
    requires few { length functions.now ≤ 64 }
    ensures { result ≡ deepest (known_of functions.now) (block_view body.now) }
{
    greatest_depth(functions, &called_functions(body))
}

/// The stack of a task, in words; 2^64 - 1 where it is more.
pub fn stack(
    functions: &[FunctionSummary],
    body: &[Stmt<VariableName, TaskName, FunctionName>],
) -> u64
    requires few { length functions.now ≤ 64 }
    ensures { result ≡ capped (stack_of (known_of functions.now) (block_view body.now)) }
{
    plus(plus(frame(0, body), deepest(functions, body)), 16)
}
