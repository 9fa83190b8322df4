//! Which shared variables stand on the left of an assignment.
ghost use Rattle.std.specs.Prelude.{◌≡◌, ◌≤◌, ◌<◌, ◌||◌, ℕ, Bool, List, [], length, map, Option, false, slice_index_or};
ghost use Rattle.task_ast.specs.Tree.{choice_of};
ghost use Rattle.task_ast.specs.Paths.{CheckedBlock};
ghost use Rattle.task_ast.specs.View.{statement_of, tested_of, block_view};
ghost use Rattle.cost_bound.specs.Counts.{is_shared, statement_assigns, choice_assigns, block_assigns, assigns_of};
ghost use Rattle.cost_bound.specs.Rooms.{AreMarked};
ghost use Rattle.cost_bound.specs.Machine.{known_of};

use crate::SHARED;
use crate::calls::called_functions;
use crate::function_summaries::FunctionSummary;
use crate::marks::mark_what_calls_assign;
use task_ast::{Arm, FunctionName, Stmt, TaskName, Variable, VariableName};

fn mark(name: &VariableName, marks: &mut [bool; SHARED])
    ensures { AreMarked marks.old marks.new (λ i. is_shared i name.now.variable) }
{
    if let Variable::Shared(number) = name.variable {
        let number = number as usize;
        if number < SHARED {
            marks[number] = true;
        }
    }
}

#[cycle(assigned)]
fn mark_statement(s: &Stmt<VariableName, TaskName, FunctionName>, marks: &mut [bool; SHARED])
    ensures { AreMarked marks.old marks.new (λ i. statement_assigns i (statement_of s.now)) }
{
    match s {
        Stmt::Assign(name, _) | Stmt::Store(name, _, _) => mark(name, marks),
        Stmt::If(arms, None) => mark_arms(arms, marks),
        Stmt::If(arms, Some(last)) => {
            mark_assigned(last, marks);
            mark_arms(arms, marks);
        }
        Stmt::For { body, .. } => mark_assigned(body, marks),
        Stmt::Declare(_, _, _) | Stmt::Emit(_) | Stmt::Return(_, _) | Stmt::TransitionTo(_, _) => {}
    }
}

// The marks hold those of the last block already.
#[cycle(assigned)]
fn mark_arms(arms: &[Arm<VariableName, TaskName, FunctionName>], marks: &mut [bool; SHARED])
    ensures { (start : List Bool) (last : Option CheckedBlock)
        → AreMarked start marks.old (λ i. choice_assigns i (choice_of [] last))
        → AreMarked start marks.new (λ i. choice_assigns i (choice_of (map tested_of arms.now) last)) }
{
    for i in (0..arms.len()).rev() {
        mark_assigned(&arms[i].block, marks);
    }
}

// Sets the marks of the shared variables that stand on the left of an assignment in the text itself.
#[cycle(assigned)]
fn mark_assigned(body: &[Stmt<VariableName, TaskName, FunctionName>], marks: &mut [bool; SHARED])
    ensures { AreMarked marks.old marks.new (λ i. block_assigns i (block_view body.now)) }
{
    for i in (0..body.len()).rev() {
        mark_statement(&body[i], marks);
    }
}

/// The marks of the shared variables that stand on the left of an assignment in the text, or in a function that it calls.
pub fn assigned_variables(
    functions: &[FunctionSummary],
    body: &[Stmt<VariableName, TaskName, FunctionName>],
) -> [bool; SHARED]
    requires few { length functions.now ≤ 64 }
    ensures { (i : ℕ) → i < 256 → slice_index_or result i false ≡ assigns_of (known_of functions.now) i (block_view body.now) }
{
    let calls = called_functions(body);
    let mut marks = [false; SHARED];
    mark_assigned(body, &mut marks);
    mark_what_calls_assign(functions, &calls, &mut marks);
    marks
}
