//! The lines of the `if`s behind those of others.

ghost use Rattle.std.specs.Prelude.{◌≡◌, drop, map, None};
ghost use Rattle.task_ast.specs.View.{block_view, choice_view, function_of, statement_of};
ghost use Rattle.condition_lines.specs.Behind.{block_behind, choice_behind, functions_behind, statement_behind};

use task_ast::{Arm, FunctionDeclaration, FunctionName, Stmt, TaskName, VariableName};

// Those behind the first.
fn behind_one(lines: &[u32]) -> &[u32]
    ensures { result.now ≡ drop 1 lines.now }
{
    match lines.split_first() {
        None => lines,
        Some((_, more)) => more,
    }
}

// Those behind the `if`s of a statement.
#[cycle(behind)]
fn behind_statement<'a>(
    lines: &'a [u32],
    statement: &Stmt<VariableName, TaskName, FunctionName>,
) -> &'a [u32]
    ensures { result.now ≡ statement_behind lines.now (statement_of statement.now) }
{
    match statement {
        Stmt::If(arms, None) => behind_arms(behind_one(lines), arms),
        Stmt::If(arms, Some(last)) => behind_block(behind_arms(behind_one(lines), arms), last),
        Stmt::For { body, .. } => behind_block(lines, body),
        Stmt::Declare(_, _, _)
        | Stmt::Assign(_, _)
        | Stmt::Store(_, _, _)
        | Stmt::Emit(_)
        | Stmt::Return(_, _)
        | Stmt::TransitionTo(_, _) => lines,
    }
}

// Those behind the `if`s in the blocks under the conditions of an `if`.
#[cycle(behind)]
fn behind_arms<'a>(
    lines: &'a [u32],
    arms: &[Arm<VariableName, TaskName, FunctionName>],
) -> &'a [u32]
    ensures { result.now ≡ choice_behind lines.now (choice_view arms.now None) }
{
    let mut left = lines;
    for arm in arms {
        left = behind_block(left, &arm.block);
    }
    left
}

// Those behind the `if`s of a block.
#[cycle(behind)]
fn behind_block<'a>(
    lines: &'a [u32],
    body: &[Stmt<VariableName, TaskName, FunctionName>],
) -> &'a [u32]
    ensures { result.now ≡ block_behind lines.now (block_view body.now) }
{
    let mut left = lines;
    for statement in body {
        left = behind_statement(left, statement);
    }
    left
}

/// Those behind the `if`s of functions, from the lines of all `if`s of a source on: functions stand in front of the tasks.
pub fn behind_functions<'a>(
    lines: &'a [u32],
    functions: &[FunctionDeclaration<VariableName, TaskName, FunctionName>],
) -> &'a [u32]
    ensures { result.now ≡ functions_behind lines.now (map function_of functions.now) }
{
    let mut left = lines;
    for function in functions {
        left = behind_block(left, &function.body);
    }
    left
}
