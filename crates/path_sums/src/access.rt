//! What the paths of a block do with one variable.

ghost use Rattle.std.specs.Prelude.{◌≡◌, ◌↔◌, IsTrue, IfOk, List, Option, [], length, map};
ghost use Rattle.task_ast.specs.Tree.{choice_of};
ghost use Rattle.task_ast.specs.Calls.{BlockCallsBelow};
ghost use Rattle.task_ast.specs.View.{expression_of, values_of, statement_of, tested_of, block_view, function_of};
ghost use Rattle.task_ast.specs.Paths.{CheckedBlock, CheckedFunction, read, write, unset};
ghost use Rattle.path_sums.specs.Sums.{expression_sum, values_sum, call_sum, call_sums, turns_sum, statement_sum, choice_sum, block_sum};
ghost use Rattle.path_sums.specs.Access.{is_same, writes, SomePath, IsPrivate, summary, private_of};
ghost use Rattle.path_sums.specs.Known.{AreCallSums};

use std::alloc::{AllocError, Global};
use task_ast::{
    Args, Arm, Expr, FunctionDeclaration, FunctionName, Stmt, TaskName, Variable, VariableName,
};

/// What the paths of a block do with one variable.
#[derive(Clone, Copy)]
pub struct AccessSummary {
    /// Some path goes on behind the block.
    pub falls_through: bool,
    /// Some path goes on behind the block, and neither reads nor writes the variable.
    pub untouched: bool,
    /// Some path makes a transition, and neither reads nor writes the variable.
    pub transitions_untouched: bool,
    /// Some path reads the variable before it writes it.
    pub exposed: bool,
    /// Some path writes the variable.
    pub writes: bool,
}

const UNIT: AccessSummary = AccessSummary {
    falls_through: true,
    untouched: true,
    transitions_untouched: false,
    exposed: false,
    writes: false,
};

/// Whether two variables are one.
pub fn is_same(v: Variable, w: Variable) -> bool
    ensures { result ≡ is_same v w }
{
    match (v, w) {
        (Variable::Shared(x), Variable::Shared(y)) => y == x,
        (Variable::Local(x), Variable::Local(y)) => y == x,
        (Variable::Shared(_), Variable::Local(_)) | (Variable::Local(_), Variable::Shared(_)) =>
            false,
    }
}

#[tactic(auto, unfolding(crate::specs::Access::summary))]
fn unit(v: Variable) -> AccessSummary
    ensures { result ≡ (summary v).unit }
{
    UNIT
}

#[tactic(auto, unfolding(crate::specs::Access::summary))]
fn gone(v: Variable) -> AccessSummary
    ensures { result ≡ (summary v).gone }
{
    AccessSummary {
        falls_through: false,
        untouched: false,
        transitions_untouched: true,
        exposed: false,
        writes: false,
    }
}

#[tactic(auto, unfolding(crate::specs::Access::summary))]
fn read_of(v: Variable, name: &VariableName) -> AccessSummary
    ensures { result ≡ (summary v).one (read name.now) }
{
    if is_same(v, name.variable) {
        AccessSummary {
            untouched: false,
            exposed: true,
            ..UNIT
        }
    } else {
        UNIT
    }
}

#[tactic(auto, unfolding(crate::specs::Access::summary))]
fn write_of(v: Variable, name: &VariableName) -> AccessSummary
    ensures { result ≡ (summary v).one (write name.now) }
{
    if is_same(v, name.variable) {
        AccessSummary {
            untouched: false,
            writes: true,
            ..UNIT
        }
    } else {
        UNIT
    }
}

#[tactic(auto, unfolding(crate::specs::Access::summary))]
fn unset_of(v: Variable, name: &VariableName) -> AccessSummary
    ensures { result ≡ (summary v).one (unset name.now) }
{
    UNIT
}

// Of a call: nothing, where there is no such function.
#[tactic(auto, unfolding(crate::specs::Access::summary))]
fn call_of(known: &[AccessSummary], v: Variable, function: u32) -> AccessSummary
    ensures { result ≡ call_sum known.now (summary v) function }
{
    let number = function as usize;
    if number < known.len() {
        known[number]
    } else {
        UNIT
    }
}

#[tactic(auto, unfolding(crate::specs::Access::summary))]
fn seq(v: Variable, s: AccessSummary, t: AccessSummary) -> AccessSummary
    ensures { result ≡ (summary v).seq s t }
{
    AccessSummary {
        falls_through: s.falls_through && t.falls_through,
        untouched: s.untouched && t.untouched,
        transitions_untouched: s.transitions_untouched || (s.untouched && t.transitions_untouched),
        exposed: s.exposed || (s.untouched && t.exposed),
        writes: s.writes || (s.falls_through && t.writes),
    }
}

#[tactic(auto, unfolding(crate::specs::Access::summary))]
fn join(v: Variable, s: AccessSummary, t: AccessSummary) -> AccessSummary
    ensures { result ≡ (summary v).join s t }
{
    AccessSummary {
        falls_through: s.falls_through || t.falls_through,
        untouched: s.untouched || t.untouched,
        transitions_untouched: s.transitions_untouched || t.transitions_untouched,
        exposed: s.exposed || t.exposed,
        writes: s.writes || t.writes,
    }
}

// A call of what this is the body's sum of.
#[tactic(auto, unfolding(crate::specs::Access::summary))]
fn called(v: Variable, s: AccessSummary) -> AccessSummary
    ensures { result ≡ (summary v).called s }
{
    match v {
        Variable::Shared(_) => AccessSummary {
            falls_through: true,
            untouched: s.transitions_untouched,
            transitions_untouched: false,
            ..s
        },
        Variable::Local(_) => UNIT,
    }
}

fn turns(v: Variable, n: u16, s: AccessSummary) -> AccessSummary
    ensures { result ≡ turns_sum (summary v) n s }
{
    if n == 0 {
        unit(v)
    } else if n == 1 {
        s
    } else {
        seq(v, s, s)
    }
}

#[cycle(expression)]
fn of_expression(
    known: &[AccessSummary],
    v: Variable,
    e: &Expr<VariableName, FunctionName>,
) -> AccessSummary
    ensures { result ≡ expression_sum known.now (summary v) (expression_of e.now) }
{
    match e {
        Expr::Number(_) | Expr::LongNumber(_) | Expr::Sense | Expr::NextEvent => unit(v),
        Expr::Name(name) => read_of(v, name),
        Expr::Element(name, index) => seq(v, of_expression(known, v, index), read_of(v, name)),
        Expr::Call(name, values) => {
            let given = of_values(known, v, values);
            seq(v, given, call_of(known, v, name.function))
        }
        Expr::Unary(_, a) | Expr::Shift(_, a, _) => of_expression(known, v, a),
        Expr::Binary(_, a, b) => seq(v, of_expression(known, v, a), of_expression(known, v, b)),
        Expr::ShortCircuit(_, a, b) => {
            let left = of_expression(known, v, a);
            join(v, left, seq(v, left, of_expression(known, v, b)))
        }
    }
}

#[cycle(expression)]
fn of_values(
    known: &[AccessSummary],
    v: Variable,
    values: &Args<VariableName, FunctionName>,
) -> AccessSummary
    ensures { result ≡ values_sum known.now (summary v) (values_of values.now) }
{
    match values {
        Args::End => unit(v),
        Args::Value(e, more) => seq(v, of_expression(known, v, e), of_values(known, v, more)),
    }
}

#[cycle(access)]
fn of_statement(
    known: &[AccessSummary],
    v: Variable,
    statement: &Stmt<VariableName, TaskName, FunctionName>,
) -> AccessSummary
    ensures { result ≡ statement_sum known.now (summary v) (statement_of statement.now) }
{
    match statement {
        Stmt::Declare(_, name, None) => unset_of(v, name),
        Stmt::Declare(_, name, Some(value)) | Stmt::Assign(name, value) => {
            seq(v, of_expression(known, v, value), write_of(v, name))
        }
        Stmt::Store(name, index, value) => seq(
            v,
            of_expression(known, v, index),
            seq(v, of_expression(known, v, value), write_of(v, name)),
        ),
        Stmt::If(arms, None) => of_arms(known, v, arms, unit(v)),
        Stmt::If(arms, Some(last)) => {
            let in_last = access_summary(known, v, last);
            of_arms(known, v, arms, in_last)
        }
        Stmt::For {
            variable,
            from,
            below,
            body,
            ..
        } => {
            let counted = write_of(v, variable);
            let turn = seq(v, access_summary(known, v, body), counted);
            seq(v, counted, turns(v, below.saturating_sub(*from), turn))
        }
        Stmt::Emit(value) => of_expression(known, v, value),
        Stmt::Return(_, value) => seq(v, of_expression(known, v, value), gone(v)),
        Stmt::TransitionTo(_, _) => gone(v),
    }
}

#[cycle(access)]
fn of_arms(
    known: &[AccessSummary],
    v: Variable,
    arms: &[Arm<VariableName, TaskName, FunctionName>],
    in_last: AccessSummary,
) -> AccessSummary
    ensures { (last : Option CheckedBlock) → in_last ≡ choice_sum known.now (summary v) (choice_of [] last) →
        result ≡ choice_sum known.now (summary v) (choice_of (map tested_of arms.now) last) }
{
    let mut sum = in_last;
    for i in (0..arms.len()).rev() {
        let arm = &arms[i];
        sum = seq(
            v,
            of_expression(known, v, &arm.condition),
            join(v, access_summary(known, v, &arm.block), sum),
        );
    }
    sum
}

/// What the paths of the block do with the variable, where these are the sums of the calls of the functions that it may call.
#[cycle(access)]
pub fn access_summary(
    known: &[AccessSummary],
    v: Variable,
    body: &[Stmt<VariableName, TaskName, FunctionName>],
) -> AccessSummary
    ensures { result ≡ block_sum known.now (summary v) (block_view body.now) }
{
    let mut sum = unit(v);
    for i in (0..body.len()).rev() {
        sum = seq(v, of_statement(known, v, &body[i]), sum);
    }
    sum
}

/// What calls of the functions do with the variable, in their order; or no memory is left.
pub fn call_summaries(
    alloc: Global,
    v: Variable,
    functions: &[FunctionDeclaration<VariableName, TaskName, FunctionName>],
) -> Result<Vec<AccessSummary>, AllocError>
    ensures { IfOk result (λ sums. sums.items ≡ call_sums (summary v) (map function_of functions.now)) }
{
    let mut known = Vec::new(alloc);
    for i in 0..functions.len() {
        let body = access_summary(&known, v, &functions[i].body);
        known.push(called(v, body))?;
    }
    Ok(known)
}

fn private_of(s: AccessSummary) -> bool
    ensures { result ≡ private_of s }
{
    s.writes && (s.exposed || (s.transitions_untouched || s.untouched))
}

/// Whether some path of the block writes the variable, where these are the sums of the calls of the functions that it may call: an
/// array that is so is versioned in the task.
pub fn is_written(
    known: &[AccessSummary],
    v: Variable,
    body: &[Stmt<VariableName, TaskName, FunctionName>],
) -> bool
    ensures { (fs : List CheckedFunction) → AreCallSums (summary v) fs known.now → BlockCallsBelow (length fs) (block_view body.now) →
        (IsTrue result ↔ SomePath fs (block_view body.now) (writes v)) }
{
    access_summary(known, v, body).writes
}

/// Whether a shared scalar is private to a task with this body: some path writes it, and not every path writes it
/// before it reads it and before its transition.
pub fn is_private(
    known: &[AccessSummary],
    v: Variable,
    body: &[Stmt<VariableName, TaskName, FunctionName>],
) -> bool
    ensures { (fs : List CheckedFunction) → AreCallSums (summary v) fs known.now → BlockCallsBelow (length fs) (block_view body.now) →
        (IsTrue result ↔ IsPrivate fs (block_view body.now) v) }
{
    private_of(access_summary(known, v, body))
}
