//! The numbers of a task's conditions.

ghost use Rattle.std.specs.Prelude.{◌≡◌, ◌++◌, ◌+◌, ◌<◌, ◌^◌, IfOk, None};
ghost use Rattle.task_ast.specs.View.{block_view, choice_view, statement_of};
ghost use Rattle.condition_lines.specs.Conditions.{block_conditions, block_ifs, choice_conditions, choice_ifs, lists_of, own_numbers};
ghost use Rattle.condition_lines.specs.Conditions.{statement_conditions, statement_ifs};

use std::alloc::{AllocError, Global};
use task_ast::{Arm, FunctionName, Stmt, TaskName, VariableName};

// The `if`s of a statement behind others; `number` is that of the next condition, and becomes that of the one behind it; so with what follows.
#[cycle(ifs)]
fn push_statement(
    alloc: Global,
    statement: &Stmt<VariableName, TaskName, FunctionName>,
    number: &mut u32,
    ifs: &mut Vec<Vec<u32>>,
) -> Result<(), AllocError>
    requires { number.old + statement_conditions (statement_of statement.now) < 2 ^ 32 }
    ensures ifs { IfOk result (λ _. lists_of ifs.new.items ≡ lists_of ifs.old.items ++ statement_ifs number.old (statement_of statement.now)) }
    ensures number { IfOk result (λ _. number.new ≡ number.old + statement_conditions (statement_of statement.now)) }
{
    match statement {
        Stmt::If(arms, None) => {
            let place = ifs.len();
            ifs.push(Vec::new(alloc))?;
            let own = push_arms(alloc, arms, number, ifs)?;
            ifs[place] = own;
            Ok(())
        }
        Stmt::If(arms, Some(last)) => {
            let place = ifs.len();
            ifs.push(Vec::new(alloc))?;
            let own = push_arms(alloc, arms, number, ifs)?;
            push_block(alloc, last, number, ifs)?;
            ifs[place] = own;
            Ok(())
        }
        Stmt::For { body, .. } => push_block(alloc, body, number, ifs),
        Stmt::Declare(_, _, _)
        | Stmt::Assign(_, _)
        | Stmt::Store(_, _, _)
        | Stmt::Emit(_)
        | Stmt::Return(_, _)
        | Stmt::TransitionTo(_, _) => Ok(()),
    }
}

// Those in the blocks under the conditions of an `if`, and the numbers of these conditions.
#[cycle(ifs)]
fn push_arms(
    alloc: Global,
    arms: &[Arm<VariableName, TaskName, FunctionName>],
    number: &mut u32,
    ifs: &mut Vec<Vec<u32>>,
) -> Result<Vec<u32>, AllocError>
    requires { number.old + choice_conditions (choice_view arms.now None) < 2 ^ 32 }
    ensures own { IfOk result (λ own. own.items ≡ own_numbers number.old (choice_view arms.now None)) }
    ensures ifs { IfOk result (λ _. lists_of ifs.new.items ≡ lists_of ifs.old.items ++ choice_ifs number.old (choice_view arms.now None)) }
    ensures number { IfOk result (λ _. number.new ≡ number.old + choice_conditions (choice_view arms.now None)) }
{
    let mut own = Vec::new(alloc);
    for arm in arms {
        own.push(*number)?;
        *number += 1;
        push_block(alloc, &arm.block, number, ifs)?;
    }
    Ok(own)
}

// Those of a block.
#[cycle(ifs)]
fn push_block(
    alloc: Global,
    body: &[Stmt<VariableName, TaskName, FunctionName>],
    number: &mut u32,
    ifs: &mut Vec<Vec<u32>>,
) -> Result<(), AllocError>
    requires { number.old + block_conditions (block_view body.now) < 2 ^ 32 }
    ensures ifs { IfOk result (λ _. lists_of ifs.new.items ≡ lists_of ifs.old.items ++ block_ifs number.old (block_view body.now)) }
    ensures number { IfOk result (λ _. number.new ≡ number.old + block_conditions (block_view body.now)) }
{
    for statement in body {
        push_statement(alloc, statement, number, ifs)?;
    }
    Ok(())
}

/// The numbers of the conditions of each `if` of a task, in the order of the text.
///
/// # Errors
/// `AllocError` where memory was refused.
pub fn task_ifs(
    alloc: Global,
    body: &[Stmt<VariableName, TaskName, FunctionName>],
) -> Result<Vec<Vec<u32>>, AllocError>
    requires { block_conditions (block_view body.now) < 2 ^ 32 }
    ensures { IfOk result (λ ifs. lists_of ifs.items ≡ block_ifs 0 (block_view body.now)) }
{
    let mut ifs = Vec::new(alloc);
    let mut number = 0;
    push_block(alloc, body, &mut number, &mut ifs)?;
    Ok(ifs)
}
