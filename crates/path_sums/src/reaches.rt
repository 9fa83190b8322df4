//! Whether a block's end is reached.

ghost use Rattle.std.specs.Prelude.{◌≡◌, ◌↔◌, IsTrue, List, Option, [], length, map};
ghost use Rattle.task_ast.specs.Tree.{choice_of};
ghost use Rattle.task_ast.specs.View.{statement_of, tested_of, block_view};
ghost use Rattle.task_ast.specs.Calls.{BlockCallsBelow};
ghost use Rattle.task_ast.specs.Paths.{CheckedBlock, CheckedFunction};
ghost use Rattle.path_sums.specs.Reaches.{ReachesEnd, statement_falls_through, choice_falls_through, block_falls_through};

use task_ast::{Arm, FunctionName, Stmt, TaskName, VariableName};

#[cycle(flow)]
fn statement_falls_through(statement: &Stmt<VariableName, TaskName, FunctionName>) -> bool
    ensures { result ≡ statement_falls_through (statement_of statement.now) }
{
    match statement {
        Stmt::If(arms, None) => arms_fall_through(arms, true),
        Stmt::If(arms, Some(last)) => {
            let in_last = falls_through(last);
            arms_fall_through(arms, in_last)
        }
        Stmt::For {
            from,
            below,
            body,
            ..
        } => {
            let turn = falls_through(body);
            *below <= *from || turn
        }
        Stmt::Return(_, _) | Stmt::TransitionTo(_, _) => false,
        Stmt::Declare(_, _, _) | Stmt::Assign(_, _) | Stmt::Store(_, _, _) | Stmt::Emit(_) => true,
    }
}

#[cycle(flow)]
fn arms_fall_through(arms: &[Arm<VariableName, TaskName, FunctionName>], in_last: bool) -> bool
    ensures { (last : Option CheckedBlock) → in_last ≡ choice_falls_through (choice_of [] last) →
        result ≡ choice_falls_through (choice_of (map tested_of arms.now) last) }
{
    let mut some = in_last;
    for i in (0..arms.len()).rev() {
        let here = falls_through(&arms[i].block);
        some = here || some;
    }
    some
}

#[cycle(flow)]
fn falls_through(body: &[Stmt<VariableName, TaskName, FunctionName>]) -> bool
    ensures { result ≡ block_falls_through (block_view body.now) }
{
    let mut every = true;
    for i in (0..body.len()).rev() {
        let here = statement_falls_through(&body[i]);
        every = here && every;
    }
    every
}

/// Whether some path of the block reaches its end, without a transition or a `return`, where the calls in it come back.
pub fn reaches_end(body: &[Stmt<VariableName, TaskName, FunctionName>]) -> bool
    ensures { (fs : List CheckedFunction) → BlockCallsBelow (length fs) (block_view body.now) →
        (IsTrue result ↔ ReachesEnd fs (block_view body.now)) }
{
    falls_through(body)
}
