//! Bad loops.

ghost use Rattle.std.specs.Prelude.{◌≡◌, Option, [], map};
ghost use Rattle.task_ast.specs.View.{statement_of, tested_of, block_view, function_of, task_of, program_of};
ghost use Rattle.task_ast.specs.Tree.{choice_of};
ghost use Rattle.task_ast.specs.Paths.{CheckedBlock};
ghost use Rattle.path_checks.specs.Firsts.{IsFirst, SomeFunction, SomeTask};
ghost use Rattle.path_checks.specs.Loops.{is_same_local, is_good_loop, statement_assigns, choice_assigns, block_assigns, BadLoopIn, BadLoopAt};
ghost use Rattle.path_checks.specs.FirstLoops.{bad_head, bad_in_statement, bad_in_choice, bad_in_block};

use crate::firsts::first_of;
use alp_text::Span;
use task_ast::{
    Arm, CheckedSource, FunctionDeclaration, FunctionName, Stmt, TaskDeclaration, TaskName,
    Variable, VariableName,
};

fn same_local(a: Variable, b: Variable) -> bool
    ensures { result ≡ is_same_local a b }
{
    match (a, b) {
        (Variable::Local(x), Variable::Local(y)) => y == x,
        (Variable::Shared(_), _) | (Variable::Local(_), Variable::Shared(_)) => false,
    }
}

#[cycle(assigns)]
fn statement_assigns(
    variable: Variable,
    statement: &Stmt<VariableName, TaskName, FunctionName>,
) -> bool
    ensures { result ≡ statement_assigns variable (statement_of statement.now) }
{
    match statement {
        Stmt::Declare(_, name, _) => same_local(name.variable, variable),
        Stmt::Assign(name, _) => same_local(name.variable, variable),
        Stmt::Store(name, _, _) => same_local(name.variable, variable),
        Stmt::If(arms, None) => arms_assign(variable, arms, false),
        Stmt::If(arms, Some(last)) => {
            let in_last = block_assigns(variable, last);
            arms_assign(variable, arms, in_last)
        }
        Stmt::For {
            variable: a,
            tested: b,
            stepped: c,
            body,
            ..
        } => {
            let inside = block_assigns(variable, body);
            (same_local(a.variable, variable)
                || (same_local(b.variable, variable) || same_local(c.variable, variable)))
                || inside
        }
        Stmt::Emit(_) | Stmt::Return(_, _) | Stmt::TransitionTo(_, _) => false,
    }
}

#[cycle(assigns)]
fn arms_assign(
    variable: Variable,
    arms: &[Arm<VariableName, TaskName, FunctionName>],
    in_last: bool,
) -> bool
    ensures { (last : Option CheckedBlock) → in_last ≡ choice_assigns variable (choice_of [] last) →
        result ≡ choice_assigns variable (choice_of (map tested_of arms.now) last) }
{
    let mut found = in_last;
    for i in (0..arms.len()).rev() {
        let here = block_assigns(variable, &arms[i].block);
        found = here || found;
    }
    found
}

#[cycle(assigns)]
fn block_assigns(variable: Variable, body: &[Stmt<VariableName, TaskName, FunctionName>]) -> bool
    ensures { result ≡ block_assigns variable (block_view body.now) }
{
    let mut found = false;
    for i in (0..body.len()).rev() {
        let here = statement_assigns(variable, &body[i]);
        found = here || found;
    }
    found
}

fn is_good_loop(
    a: &VariableName,
    b: &VariableName,
    c: &VariableName,
    body: &[Stmt<VariableName, TaskName, FunctionName>],
) -> bool
    ensures { result ≡ is_good_loop a.now b.now c.now (block_view body.now) }
{
    (same_local(a.variable, b.variable) && same_local(a.variable, c.variable))
        && !block_assigns(a.variable, body)
}

fn bad_head(
    a: &VariableName,
    b: &VariableName,
    c: &VariableName,
    body: &[Stmt<VariableName, TaskName, FunctionName>],
) -> Option<Span>
    ensures { result ≡ bad_head a.now b.now c.now (block_view body.now) }
{
    if is_good_loop(a, b, c, body) {
        None
    } else {
        Some(a.span)
    }
}

#[cycle(loops)]
fn bad_in_statement(statement: &Stmt<VariableName, TaskName, FunctionName>) -> Option<Span>
    ensures { result ≡ bad_in_statement (statement_of statement.now) }
{
    match statement {
        Stmt::If(arms, None) => bad_in_arms(arms, None),
        Stmt::If(arms, Some(last)) => {
            let in_last = bad_in_block(last);
            bad_in_arms(arms, in_last)
        }
        Stmt::For {
            variable,
            tested,
            stepped,
            body,
            ..
        } => {
            first_of(
                bad_head(variable, tested, stepped, body),
                bad_in_block(body),
            )
        }
        Stmt::Declare(_, _, _)
        | Stmt::Assign(_, _)
        | Stmt::Store(_, _, _)
        | Stmt::Emit(_)
        | Stmt::Return(_, _)
        | Stmt::TransitionTo(_, _) => None,
    }
}

#[cycle(loops)]
fn bad_in_arms(
    arms: &[Arm<VariableName, TaskName, FunctionName>],
    in_last: Option<Span>,
) -> Option<Span>
    ensures { (last : Option CheckedBlock) → in_last ≡ bad_in_choice (choice_of [] last) →
        result ≡ bad_in_choice (choice_of (map tested_of arms.now) last) }
{
    let mut first = in_last;
    for i in (0..arms.len()).rev() {
        first = first_of(bad_in_block(&arms[i].block), first);
    }
    first
}

#[cycle(loops)]
fn bad_in_block(body: &[Stmt<VariableName, TaskName, FunctionName>]) -> Option<Span>
    ensures { result ≡ bad_in_block (block_view body.now) }
{
    let mut first = None;
    for i in (0..body.len()).rev() {
        first = first_of(bad_in_statement(&body[i]), first);
    }
    first
}

// The first bad loop of functions.
fn bad_in_functions(
    functions: &[FunctionDeclaration<VariableName, TaskName, FunctionName>],
) -> Option<Span>
    ensures { IsFirst result (λ s. SomeFunction (map function_of functions.now) (λ f. BadLoopIn f.body s)) }
{
    let mut first = None;
    for i in (0..functions.len()).rev() {
        first = first_of(bad_in_block(&functions[i].body), first);
    }
    first
}

// The first bad loop of tasks.
fn bad_in_tasks(tasks: &[TaskDeclaration<VariableName, TaskName, FunctionName>]) -> Option<Span>
    ensures { IsFirst result (λ s. SomeTask (map task_of tasks.now) (λ task. BadLoopIn task.body s)) }
{
    let mut first = None;
    for i in (0..tasks.len()).rev() {
        first = first_of(bad_in_block(&tasks[i].body), first);
    }
    first
}

/// The first bad loop of a source, by the first of its three names: the names of a `for` have to be one local, which
/// its body neither gives a value nor uses as a loop variable.
pub fn first_bad_loop(source: &CheckedSource) -> Option<Span>
    ensures { IsFirst result (BadLoopAt (program_of source.now)) }
{
    first_of(
        bad_in_functions(&source.functions),
        bad_in_tasks(&source.tasks),
    )
}
