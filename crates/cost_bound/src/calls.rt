//! Which functions a text calls, and which it reaches.
ghost use Rattle.std.specs.Prelude.{◌≡◌, ◌≤◌, ◌<◌, ◌==◌, ℕ, Bool, List, [], length, map, Option, false, slice_index_or};
ghost use Rattle.task_ast.specs.Tree.{choice_of};
ghost use Rattle.task_ast.specs.Paths.{CheckedBlock};
ghost use Rattle.task_ast.specs.View.{expression_of, values_of, statement_of, tested_of, block_view};
ghost use Rattle.cost_bound.specs.Counts.{expression_calls, values_call, statement_calls, choice_calls, block_calls, reaches_of};
ghost use Rattle.cost_bound.specs.Machine.{known_of};
ghost use Rattle.cost_bound.specs.Rooms.{AreMarked};

use crate::SHARED;
use crate::function_summaries::FunctionSummary;
use crate::marks::mark_what_calls_reach;
use task_ast::{Args, Arm, Expr, FunctionName, Stmt, TaskName, VariableName};

fn mark(name: &FunctionName, marks: &mut [bool; SHARED])
    ensures { AreMarked marks.old marks.new (λ k. name.now.function == k) }
{
    let number = name.function as usize;
    if number < SHARED {
        marks[number] = true;
    }
}

#[cycle(expressions)]
fn mark_in_expression(e: &Expr<VariableName, FunctionName>, marks: &mut [bool; SHARED])
    ensures { AreMarked marks.old marks.new (λ k. expression_calls k (expression_of e.now)) }
{
    match e {
        Expr::Number(_) | Expr::LongNumber(_) | Expr::Name(_) | Expr::Sense | Expr::NextEvent => {}
        Expr::Call(name, values) => {
            mark_in_values(values, marks);
            mark(name, marks);
        }
        Expr::Element(_, inner) | Expr::Unary(_, inner) | Expr::Shift(_, inner, _) => {
            mark_in_expression(inner, marks)
        }
        Expr::Binary(_, a, b) | Expr::ShortCircuit(_, a, b) => {
            mark_in_expression(b, marks);
            mark_in_expression(a, marks);
        }
    }
}

#[cycle(expressions)]
fn mark_in_values(values: &Args<VariableName, FunctionName>, marks: &mut [bool; SHARED])
    ensures { AreMarked marks.old marks.new (λ k. values_call k (values_of values.now)) }
{
    match values {
        Args::End => {}
        Args::Value(e, more) => {
            mark_in_values(more, marks);
            mark_in_expression(e, marks);
        }
    }
}

#[cycle(calls)]
fn mark_in_statement(s: &Stmt<VariableName, TaskName, FunctionName>, marks: &mut [bool; SHARED])
    ensures { AreMarked marks.old marks.new (λ k. statement_calls k (statement_of s.now)) }
{
    match s {
        Stmt::Declare(_, _, None) | Stmt::TransitionTo(_, _) => {}
        Stmt::Declare(_, _, Some(value))
        | Stmt::Assign(_, value)
        | Stmt::Emit(value)
        | Stmt::Return(_, value) => mark_in_expression(value, marks),
        Stmt::Store(_, index, value) => {
            mark_in_expression(value, marks);
            mark_in_expression(index, marks);
        }
        Stmt::If(arms, None) => mark_in_arms(arms, marks),
        Stmt::If(arms, Some(last)) => {
            mark_in_block(last, marks);
            mark_in_arms(arms, marks);
        }
        Stmt::For { body, .. } => mark_in_block(body, marks),
    }
}

// The marks hold those of the last block already.
#[cycle(calls)]
fn mark_in_arms(arms: &[Arm<VariableName, TaskName, FunctionName>], marks: &mut [bool; SHARED])
    ensures { (start : List Bool) (last : Option CheckedBlock)
        → AreMarked start marks.old (λ k. choice_calls k (choice_of [] last))
        → AreMarked start marks.new (λ k. choice_calls k (choice_of (map tested_of arms.now) last)) }
{
    for i in (0..arms.len()).rev() {
        mark_in_block(&arms[i].block, marks);
        mark_in_expression(&arms[i].condition, marks);
    }
}

#[cycle(calls)]
fn mark_in_block(body: &[Stmt<VariableName, TaskName, FunctionName>], marks: &mut [bool; SHARED])
    ensures { AreMarked marks.old marks.new (λ k. block_calls k (block_view body.now)) }
{
    for i in (0..body.len()).rev() {
        mark_in_statement(&body[i], marks);
    }
}

/// The marks of the functions that are called in the text.
pub fn called_functions(body: &[Stmt<VariableName, TaskName, FunctionName>]) -> [bool; SHARED]
    ensures { (k : ℕ) → k < 256 → slice_index_or result k false ≡ block_calls k (block_view body.now) }
{
    let mut marks = [false; SHARED];
    mark_in_block(body, &mut marks);
    marks
}

/// The marks of the functions that are called in the text, or in one that is.
pub fn reached_functions(
    functions: &[FunctionSummary],
    body: &[Stmt<VariableName, TaskName, FunctionName>],
) -> [bool; SHARED]
    requires few { length functions.now ≤ 64 }
    ensures { (k : ℕ) → k < 256 → slice_index_or result k false ≡ reaches_of (known_of functions.now) k (block_view body.now) }
{
    let calls = called_functions(body);
    let mut marks = calls;
    mark_what_calls_reach(functions, &calls, &mut marks);
    marks
}
