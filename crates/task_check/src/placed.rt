//! What stands where it may, looked at once more in the source with its names looked up.

ghost use Rattle.std.specs.Prelude.{◌≡◌, ◌&&◌, Option, [], map, length};
ghost use Rattle.std.specs.Option.{option_map};
ghost use Rattle.task_ast.specs.Tree.{choice_of};
ghost use Rattle.task_ast.specs.View.{expression_of, values_of, statement_of, tested_of, function_of, task_of, block_view, program_of};
ghost use Rattle.task_ast.specs.Paths.{CheckedBlock};
ghost use Rattle.task_check.specs.Placed as spec;

use task_ast::{
    Args, Arm, CheckedSource, Expr, FunctionDeclaration, FunctionName, Stmt, TaskDeclaration,
    TaskName, VariableName,
};

#[cycle(expression)]
fn expression_stands(known: usize, e: &Expr<VariableName, FunctionName>) -> bool
    ensures { result ≡ spec.expression_stands known (expression_of e.now) }
{
    match e {
        Expr::Number(_) | Expr::LongNumber(_) | Expr::Name(_) | Expr::Sense | Expr::NextEvent =>
            true,
        Expr::Element(_, a) | Expr::Unary(_, a) | Expr::Shift(_, a, _) => {
            expression_stands(known, a)
        }
        Expr::Call(name, values) => {
            (name.function as usize) < known && values_stand(known, values)
        }
        Expr::Binary(_, a, b) => expression_stands(known, a) && expression_stands(known, b),
        Expr::ShortCircuit(_, a, b) => expression_stands(known, a) && expression_stands(known, b),
    }
}

#[cycle(expression)]
fn values_stand(known: usize, values: &Args<VariableName, FunctionName>) -> bool
    ensures { result ≡ spec.values_stand known (values_of values.now) }
{
    match values {
        Args::End => true,
        Args::Value(e, more) => expression_stands(known, e) && values_stand(known, more),
    }
}

fn value_stands(known: usize, value: &Option<Expr<VariableName, FunctionName>>) -> bool
    ensures { result ≡ spec.value_stands known (option_map expression_of value.now) }
{
    match value {
        None => true,
        Some(e) => expression_stands(known, e),
    }
}

#[cycle(stand)]
fn statement_stands(
    known: usize,
    in_task: bool,
    statement: &Stmt<VariableName, TaskName, FunctionName>,
) -> bool
    ensures { result ≡ spec.statement_stands known in_task (statement_of statement.now) }
{
    match statement {
        Stmt::Declare(_, _, value) => value_stands(known, value),
        Stmt::Assign(_, e) => expression_stands(known, e),
        Stmt::Store(_, index, e) => expression_stands(known, index) && expression_stands(known, e),
        Stmt::If(arms, None) => arms_stand(known, in_task, arms, true),
        Stmt::If(arms, Some(last)) => {
            let in_last = block_stands(known, in_task, last);
            arms_stand(known, in_task, arms, in_last)
        }
        Stmt::For { body, .. } => block_stands(known, in_task, body),
        Stmt::Emit(e) => expression_stands(known, e),
        Stmt::Return(_, e) => !in_task && expression_stands(known, e),
        Stmt::TransitionTo(_, _) => in_task,
    }
}

#[cycle(stand)]
fn arms_stand(
    known: usize,
    in_task: bool,
    arms: &[Arm<VariableName, TaskName, FunctionName>],
    in_last: bool,
) -> bool
    ensures { (last : Option CheckedBlock) → in_last ≡ spec.choice_stands known in_task (choice_of [] last) →
        result ≡ spec.choice_stands known in_task (choice_of (map tested_of arms.now) last) }
{
    let mut all = in_last;
    for i in (0..arms.len()).rev() {
        let arm = &arms[i];
        let condition = expression_stands(known, &arm.condition);
        let block = block_stands(known, in_task, &arm.block);
        all = (condition && block) && all;
    }
    all
}

#[cycle(stand)]
fn block_stands(
    known: usize,
    in_task: bool,
    body: &[Stmt<VariableName, TaskName, FunctionName>],
) -> bool
    ensures { result ≡ spec.block_stands known in_task (block_view body.now) }
{
    let mut all = true;
    for i in (0..body.len()).rev() {
        let here = statement_stands(known, in_task, &body[i]);
        all = here && all;
    }
    all
}

fn functions_stand(functions: &[FunctionDeclaration<VariableName, TaskName, FunctionName>]) -> bool
    ensures { result ≡ spec.functions_stand 0 (map function_of functions.now) }
{
    let mut all = true;
    for i in (0..functions.len()).rev() {
        let here = block_stands(i, false, &functions[i].body);
        all = here && all;
    }
    all
}

fn tasks_stand(
    known: usize,
    tasks: &[TaskDeclaration<VariableName, TaskName, FunctionName>],
) -> bool
    ensures { result ≡ spec.tasks_stand known (map task_of tasks.now) }
{
    let mut all = true;
    for i in (0..tasks.len()).rev() {
        let here = block_stands(known, true, &tasks[i].body);
        all = here && all;
    }
    all
}

/// Whether calls are of functions in front of them, no `return` stands in a task, and no `transition_to` in a function.
pub fn all_stand(source: &CheckedSource) -> bool
    ensures { result ≡ spec.all_stand (program_of source.now) }
{
    functions_stand(&source.functions) && tasks_stand(source.functions.len(), &source.tasks)
}
