//! A tree with its names replaced by what they were looked up as, in the text's order.

ghost use Rattle.std.specs.Prelude.{◌≡◌, ℕ, List, [], ◌∷◌, Option, map, IfOk};
ghost use Rattle.std.specs.Option.{option_map};
ghost use Rattle.task_ast.specs.View.{expression_of, values_of, statement_of, tested_of, function_of, task_of, block_view, choice_view, last_view, program_of};
ghost use Rattle.alp_text.specs.declared.lines.Span.{Span};
ghost use Rattle.task_ast.specs.Tree as node;
ghost use Rattle.task_check.specs.LookedUp as spec;
ghost use Rattle.task_check.specs.Parts as parts;

use crate::symbol::{TypedFunction, TypedVariable};
use alp_text::Span;
use std::alloc::{AllocError, Global};
use task_ast::{
    Args, Arm, CheckedSource, Expr, FunctionDeclaration, FunctionName, Parameter, Source, Stmt,
    TaskDeclaration, TaskName, Tree, VariableName, WordType,
};

// The first of the names that are left, and the others. There are as many as the tree has, so none is missing.
fn next<'a, T: Copy>(names: &'a [T]) -> Result<(T, &'a [T]), AllocError>
    ensures { IfOk result (λ x. names.now ≡ x.0 ∷ x.1.now) }
{
    match names.split_first() {
        Some((first, rest)) => Ok((*first, rest)),
        None => Err(AllocError),
    }
}

/// The names of expressions that are left: what each name of a variable stands for, and each name of a called function.
#[derive(Clone, Copy)]
pub struct Used<'a> {
    pub variables: &'a [TypedVariable],
    pub calls: &'a [TypedFunction],
}

/// The names that are left, with what each name of a task behind a transition or the entry stands for.
#[derive(Clone, Copy)]
pub struct Names<'a> {
    pub used: Used<'a>,
    pub targets: &'a [u32],
}

fn variable<'a>(span: Span, names: Used<'a>) -> Result<(VariableName, Used<'a>), AllocError>
    ensures place { IfOk result (λ x. x.0.span ≡ span) }
    ensures variables { IfOk result (λ x. names.entry.variables.now ≡ spec.typed x.0 ∷ x.1.variables.now) }
    ensures calls { IfOk result (λ x. names.entry.calls.now ≡ x.1.calls.now) }
{
    let (typed, variables) = next(names.variables)?;
    let name = VariableName {
        span,
        variable: typed.variable,
        word_type: typed.word_type,
    };
    let calls = names.calls;
    Ok((name, Used { variables, calls }))
}

fn called<'a>(span: Span, names: Used<'a>) -> Result<(FunctionName, Used<'a>), AllocError>
    ensures place { IfOk result (λ x. x.0.span ≡ span) }
    ensures variables { IfOk result (λ x. names.entry.variables.now ≡ x.1.variables.now) }
    ensures calls { IfOk result (λ x. names.entry.calls.now ≡ spec.typed_function x.0 ∷ x.1.calls.now) }
{
    let (typed, calls) = next(names.calls)?;
    let name = FunctionName {
        span,
        function: typed.function,
        word_type: typed.word_type,
    };
    let variables = names.variables;
    Ok((name, Used { variables, calls }))
}

#[cycle(expression)]
fn expression<'a>(
    alloc: Global,
    e: &Expr<Span, Span>,
    names: Used<'a>,
) -> Result<(Expr<VariableName, FunctionName>, Used<'a>), AllocError>
    ensures place { IfOk result (λ x. spec.expression_back (expression_of x.0) ≡ expression_of e.now) }
    ensures variables { IfOk result (λ x. names.entry.variables.now ≡ spec.expression_variables (expression_of x.0) x.1.variables.now) }
    ensures calls { IfOk result (λ x. names.entry.calls.now ≡ spec.expression_calls (expression_of x.0) x.1.calls.now) }
{
    match e {
        Expr::Number(n) => Ok((Expr::Number(*n), names)),
        Expr::LongNumber(n) => Ok((Expr::LongNumber(*n), names)),
        Expr::Name(name) => {
            let (name, rest) = variable(*name, names)?;
            Ok((Expr::Name(name), rest))
        }
        Expr::Element(name, index) => {
            let (name, rest) = variable(*name, names)?;
            let (index, rest) = expression(alloc, index, rest)?;
            Ok((Expr::Element(name, Box::new(alloc, index)?), rest))
        }
        Expr::Sense => Ok((Expr::Sense, names)),
        Expr::NextEvent => Ok((Expr::NextEvent, names)),
        Expr::Call(name, values) => {
            let (name, rest) = called(*name, names)?;
            let (values, rest) = given(alloc, values, rest)?;
            Ok((Expr::Call(name, values), rest))
        }
        Expr::Unary(op, inner) => {
            let (inner, rest) = expression(alloc, inner, names)?;
            Ok((Expr::Unary(*op, Box::new(alloc, inner)?), rest))
        }
        Expr::Binary(op, left, right) => {
            let (left, rest) = expression(alloc, left, names)?;
            let (right, rest) = expression(alloc, right, rest)?;
            let left = Box::new(alloc, left)?;
            Ok((Expr::Binary(*op, left, Box::new(alloc, right)?), rest))
        }
        Expr::Shift(op, left, count) => {
            let (left, rest) = expression(alloc, left, names)?;
            Ok((Expr::Shift(*op, Box::new(alloc, left)?, *count), rest))
        }
        Expr::ShortCircuit(op, left, right) => {
            let (left, rest) = expression(alloc, left, names)?;
            let (right, rest) = expression(alloc, right, rest)?;
            let left = Box::new(alloc, left)?;
            Ok((Expr::ShortCircuit(*op, left, Box::new(alloc, right)?), rest))
        }
    }
}

// The values of a call.
#[cycle(expression)]
fn given<'a>(
    alloc: Global,
    values: &Args<Span, Span>,
    names: Used<'a>,
) -> Result<(Args<VariableName, FunctionName>, Used<'a>), AllocError>
    ensures place { IfOk result (λ x. spec.values_back (values_of x.0) ≡ values_of values.now) }
    ensures variables { IfOk result (λ x. names.entry.variables.now ≡ spec.values_variables (values_of x.0) x.1.variables.now) }
    ensures calls { IfOk result (λ x. names.entry.calls.now ≡ spec.values_calls (values_of x.0) x.1.calls.now) }
{
    match values {
        Args::End => Ok((Args::End, names)),
        Args::Value(e, more) => {
            let (e, rest) = expression(alloc, e, names)?;
            let (more, rest) = given(alloc, more, rest)?;
            let e = Box::new(alloc, e)?;
            Ok((Args::Value(e, Box::new(alloc, more)?), rest))
        }
    }
}

fn value<'a>(
    alloc: Global,
    e: &Option<Expr<Span, Span>>,
    names: Used<'a>,
) -> Result<(Option<Expr<VariableName, FunctionName>>, Used<'a>), AllocError>
    ensures place { IfOk result (λ x. option_map spec.expression_back (option_map expression_of x.0) ≡ option_map expression_of e.now) }
    ensures variables { IfOk result (λ x. names.entry.variables.now ≡ spec.value_variables (option_map expression_of x.0) x.1.variables.now) }
    ensures calls { IfOk result (λ x. names.entry.calls.now ≡ spec.value_calls (option_map expression_of x.0) x.1.calls.now) }
{
    match e {
        None => Ok((None, names)),
        Some(e) => {
            let (e, rest) = expression(alloc, e, names)?;
            Ok((Some(e), rest))
        }
    }
}

fn target<'a>(span: Span, names: Names<'a>) -> Result<(TaskName, Names<'a>), AllocError>
    ensures place { IfOk result (λ x. x.0.span ≡ span) }
    ensures used { IfOk result (λ x. names.entry.used ≡ x.1.used) }
    ensures targets { IfOk result (λ x. names.entry.targets.now ≡ x.0.task ∷ x.1.targets.now) }
{
    let (task, targets) = next(names.targets)?;
    let used = names.used;
    Ok((TaskName { span, task }, Names { used, targets }))
}

fn declared<'a>(
    alloc: Global,
    word_type: WordType,
    name: Span,
    e: &Option<Expr<Span, Span>>,
    names: Names<'a>,
) -> Result<(Stmt<VariableName, TaskName, FunctionName>, Names<'a>), AllocError>
    ensures place { IfOk result (λ x. spec.statement_back (statement_of x.0) ≡ node.declare word_type name (option_map expression_of e.now)) }
    ensures variables { IfOk result (λ x. names.entry.used.variables.now ≡ spec.statement_variables (statement_of x.0) x.1.used.variables.now) }
    ensures calls { IfOk result (λ x. names.entry.used.calls.now ≡ spec.statement_calls (statement_of x.0) x.1.used.calls.now) }
    ensures targets { IfOk result (λ x. names.entry.targets.now ≡ spec.statement_targets (statement_of x.0) x.1.targets.now) }
{
    let (name, rest) = variable(name, names.used)?;
    let (e, used) = value(alloc, e, rest)?;
    let targets = names.targets;
    Ok((Stmt::Declare(word_type, name, e), Names { used, targets }))
}

fn assigned<'a>(
    alloc: Global,
    name: Span,
    e: &Expr<Span, Span>,
    names: Names<'a>,
) -> Result<(Stmt<VariableName, TaskName, FunctionName>, Names<'a>), AllocError>
    ensures place { IfOk result (λ x. spec.statement_back (statement_of x.0) ≡ node.assign name (expression_of e.now)) }
    ensures variables { IfOk result (λ x. names.entry.used.variables.now ≡ spec.statement_variables (statement_of x.0) x.1.used.variables.now) }
    ensures calls { IfOk result (λ x. names.entry.used.calls.now ≡ spec.statement_calls (statement_of x.0) x.1.used.calls.now) }
    ensures targets { IfOk result (λ x. names.entry.targets.now ≡ spec.statement_targets (statement_of x.0) x.1.targets.now) }
{
    let (name, rest) = variable(name, names.used)?;
    let (e, used) = expression(alloc, e, rest)?;
    let targets = names.targets;
    Ok((Stmt::Assign(name, e), Names { used, targets }))
}

fn stored<'a>(
    alloc: Global,
    name: Span,
    index: &Expr<Span, Span>,
    e: &Expr<Span, Span>,
    names: Names<'a>,
) -> Result<(Stmt<VariableName, TaskName, FunctionName>, Names<'a>), AllocError>
    ensures place { IfOk result (λ x. spec.statement_back (statement_of x.0) ≡ node.store name (expression_of index.now) (expression_of e.now)) }
    ensures variables { IfOk result (λ x. names.entry.used.variables.now ≡ spec.statement_variables (statement_of x.0) x.1.used.variables.now) }
    ensures calls { IfOk result (λ x. names.entry.used.calls.now ≡ spec.statement_calls (statement_of x.0) x.1.used.calls.now) }
    ensures targets { IfOk result (λ x. names.entry.targets.now ≡ spec.statement_targets (statement_of x.0) x.1.targets.now) }
{
    let (name, rest) = variable(name, names.used)?;
    let (index, rest) = expression(alloc, index, rest)?;
    let (e, used) = expression(alloc, e, rest)?;
    let targets = names.targets;
    Ok((Stmt::Store(name, index, e), Names { used, targets }))
}

fn emitted<'a>(
    alloc: Global,
    e: &Expr<Span, Span>,
    names: Names<'a>,
) -> Result<(Stmt<VariableName, TaskName, FunctionName>, Names<'a>), AllocError>
    ensures place { IfOk result (λ x. spec.statement_back (statement_of x.0) ≡ node.emit (expression_of e.now)) }
    ensures variables { IfOk result (λ x. names.entry.used.variables.now ≡ spec.statement_variables (statement_of x.0) x.1.used.variables.now) }
    ensures calls { IfOk result (λ x. names.entry.used.calls.now ≡ spec.statement_calls (statement_of x.0) x.1.used.calls.now) }
    ensures targets { IfOk result (λ x. names.entry.targets.now ≡ spec.statement_targets (statement_of x.0) x.1.targets.now) }
{
    let (e, used) = expression(alloc, e, names.used)?;
    let targets = names.targets;
    Ok((Stmt::Emit(e), Names { used, targets }))
}

fn returned<'a>(
    alloc: Global,
    at: Span,
    e: &Expr<Span, Span>,
    names: Names<'a>,
) -> Result<(Stmt<VariableName, TaskName, FunctionName>, Names<'a>), AllocError>
    ensures place { IfOk result (λ x. spec.statement_back (statement_of x.0) ≡ node.give at (expression_of e.now)) }
    ensures variables { IfOk result (λ x. names.entry.used.variables.now ≡ spec.statement_variables (statement_of x.0) x.1.used.variables.now) }
    ensures calls { IfOk result (λ x. names.entry.used.calls.now ≡ spec.statement_calls (statement_of x.0) x.1.used.calls.now) }
    ensures targets { IfOk result (λ x. names.entry.targets.now ≡ spec.statement_targets (statement_of x.0) x.1.targets.now) }
{
    let (e, used) = expression(alloc, e, names.used)?;
    let targets = names.targets;
    Ok((Stmt::Return(at, e), Names { used, targets }))
}

// An `if` without a last block.
fn tests_only(
    tests: Vec<Arm<VariableName, TaskName, FunctionName>>,
) -> Stmt<VariableName, TaskName, FunctionName>
    ensures { statement_of result ≡ node.choose (node.choice_of (map tested_of tests.items) None) }
{
    Stmt::If(tests, None)
}

// An `if` with a last block.
fn tests_else(
    tests: Vec<Arm<VariableName, TaskName, FunctionName>>,
    last: Vec<Stmt<VariableName, TaskName, FunctionName>>,
) -> Stmt<VariableName, TaskName, FunctionName>
    ensures { statement_of result ≡ node.choose (node.choice_of (map tested_of tests.items) (Some (block_view last.items))) }
{
    Stmt::If(tests, Some(last))
}

fn if_only(
    tests: Vec<Arm<VariableName, TaskName, FunctionName>>,
) -> Stmt<VariableName, TaskName, FunctionName>
    ensures tree { statement_of result ≡ node.choose (node.choice_of (map tested_of tests.items) None) }
    ensures place { (arms : List (node.Tested Span Span Span)) → map parts.tested_back (map tested_of tests.items) ≡ arms
        → spec.statement_back (statement_of result) ≡ node.choose (node.choice_of arms None) }
{
    tests_only(tests)
}

fn if_else(
    tests: Vec<Arm<VariableName, TaskName, FunctionName>>,
    last: Vec<Stmt<VariableName, TaskName, FunctionName>>,
) -> Stmt<VariableName, TaskName, FunctionName>
    ensures tree { statement_of result ≡ node.choose (node.choice_of (map tested_of tests.items) (Some (block_view last.items))) }
    ensures place { (arms : List (node.Tested Span Span Span)) (block : node.Block Span Span Span) → map parts.tested_back (map tested_of tests.items) ≡ arms
        → spec.block_back (block_view last.items) ≡ block
        → spec.statement_back (statement_of result) ≡ node.choose (node.choice_of arms (Some block)) }
{
    tests_else(tests, last)
}

#[cycle(build)]
#[tactic(auto, using(crate::proofs::Parts::choice_uses))]
fn statement<'a>(
    alloc: Global,
    s: Stmt<Span, Span, Span>,
    names: Names<'a>,
) -> Result<(Stmt<VariableName, TaskName, FunctionName>, Names<'a>), AllocError>
    ensures place { IfOk result (λ x. spec.statement_back (statement_of x.0) ≡ statement_of s) }
    ensures variables { IfOk result (λ x. names.entry.used.variables.now ≡ spec.statement_variables (statement_of x.0) x.1.used.variables.now) }
    ensures calls { IfOk result (λ x. names.entry.used.calls.now ≡ spec.statement_calls (statement_of x.0) x.1.used.calls.now) }
    ensures targets { IfOk result (λ x. names.entry.targets.now ≡ spec.statement_targets (statement_of x.0) x.1.targets.now) }
{
    match s {
        Stmt::Declare(word_type, name, e) => declared(alloc, word_type, name, &e, names),
        Stmt::Assign(name, e) => assigned(alloc, name, &e, names),
        Stmt::Store(name, index, e) => stored(alloc, name, &index, &e, names),
        Stmt::If(tests, last) => {
            let (tests, rest) = arms(alloc, tests, names)?;
            match last {
                None => Ok((if_only(tests), rest)),
                Some(last) => {
                    let (last, rest) = block(alloc, last, rest)?;
                    Ok((if_else(tests, last), rest))
                }
            }
        }
        Stmt::For {
            variable: first,
            from,
            tested,
            below,
            stepped,
            body,
        } => {
            let (first, rest) = variable(first, names.used)?;
            let (tested, rest) = variable(tested, rest)?;
            let (stepped, used) = variable(stepped, rest)?;
            let targets = names.targets;
            let (body, rest) = block(alloc, body, Names { used, targets })?;
            Ok((
                Stmt::For {
                    variable: first,
                    from,
                    tested,
                    below,
                    stepped,
                    body,
                },
                rest,
            ))
        }
        Stmt::Emit(e) => emitted(alloc, &e, names),
        Stmt::Return(at, e) => returned(alloc, at, &e, names),
        Stmt::TransitionTo(at, name) => {
            let (name, rest) = target(name, names)?;
            Ok((Stmt::TransitionTo(at, name), rest))
        }
    }
}

#[cycle(build)]
fn arm<'a>(
    alloc: Global,
    test: Arm<Span, Span, Span>,
    names: Names<'a>,
) -> Result<(Arm<VariableName, TaskName, FunctionName>, Names<'a>), AllocError>
    ensures place { IfOk result (λ x. parts.tested_back (tested_of x.0) ≡ tested_of test) }
    ensures variables { IfOk result (λ x. names.entry.used.variables.now ≡ spec.expression_variables (tested_of x.0).condition
        (spec.block_variables (tested_of x.0).block x.1.used.variables.now)) }
    ensures calls { IfOk result (λ x. names.entry.used.calls.now ≡ spec.expression_calls (tested_of x.0).condition
        (spec.block_calls (tested_of x.0).block x.1.used.calls.now)) }
    ensures targets { IfOk result (λ x. names.entry.targets.now ≡ spec.block_targets (tested_of x.0).block x.1.targets.now) }
{
    let Arm {
        condition,
        block: body,
    } = test;
    let (condition, used) = expression(alloc, &condition, names.used)?;
    let targets = names.targets;
    let (block, rest) = block(alloc, body, Names { used, targets })?;
    Ok((Arm { condition, block }, rest))
}

#[cycle(build)]
fn arms<'a>(
    alloc: Global,
    tests: Vec<Arm<Span, Span, Span>>,
    names: Names<'a>,
) -> Result<(Vec<Arm<VariableName, TaskName, FunctionName>>, Names<'a>), AllocError>
    ensures place { IfOk result (λ x. map parts.tested_back (map tested_of x.0.items) ≡ map tested_of tests.items) }
    ensures variables { IfOk result (λ x. names.entry.used.variables.now ≡ parts.arms_variables (map tested_of x.0.items) x.1.used.variables.now) }
    ensures calls { IfOk result (λ x. names.entry.used.calls.now ≡ parts.arms_calls (map tested_of x.0.items) x.1.used.calls.now) }
    ensures targets { IfOk result (λ x. names.entry.targets.now ≡ parts.arms_targets (map tested_of x.0.items) x.1.targets.now) }
{
    let mut found = Vec::with_capacity(alloc, tests.len())?;
    let mut rest = names;
    for test in tests {
        let (test, left) = arm(alloc, test, rest)?;
        found.push(test)?;
        rest = left;
    }
    Ok((found, rest))
}

#[cycle(build)]
fn block<'a>(
    alloc: Global,
    body: Vec<Stmt<Span, Span, Span>>,
    names: Names<'a>,
) -> Result<(Vec<Stmt<VariableName, TaskName, FunctionName>>, Names<'a>), AllocError>
    ensures place { IfOk result (λ x. spec.block_back (block_view x.0.items) ≡ block_view body.items) }
    ensures variables { IfOk result (λ x. names.entry.used.variables.now ≡ spec.block_variables (block_view x.0.items) x.1.used.variables.now) }
    ensures calls { IfOk result (λ x. names.entry.used.calls.now ≡ spec.block_calls (block_view x.0.items) x.1.used.calls.now) }
    ensures targets { IfOk result (λ x. names.entry.targets.now ≡ spec.block_targets (block_view x.0.items) x.1.targets.now) }
{
    let mut found = Vec::with_capacity(alloc, body.len())?;
    let mut rest = names;
    for s in body {
        let (s, left) = statement(alloc, s, rest)?;
        found.push(s)?;
        rest = left;
    }
    Ok((found, rest))
}

fn task<'a>(
    alloc: Global,
    of: TaskDeclaration<Span, Span, Span>,
    names: Names<'a>,
) -> Result<
    (
        TaskDeclaration<VariableName, TaskName, FunctionName>,
        Names<'a>,
    ),
    AllocError,
>
    ensures place { IfOk result (λ x. spec.task_back (task_of x.0) ≡ task_of of) }
    ensures variables { IfOk result (λ x. names.entry.used.variables.now ≡ spec.block_variables (task_of x.0).body x.1.used.variables.now) }
    ensures calls { IfOk result (λ x. names.entry.used.calls.now ≡ spec.block_calls (task_of x.0).body x.1.used.calls.now) }
    ensures targets { IfOk result (λ x. names.entry.targets.now ≡ spec.block_targets (task_of x.0).body x.1.targets.now) }
{
    let TaskDeclaration { name, body } = of;
    let (body, rest) = block(alloc, body, names)?;
    Ok((TaskDeclaration { name, body }, rest))
}

fn tasks<'a>(
    alloc: Global,
    all: Vec<TaskDeclaration<Span, Span, Span>>,
    names: Names<'a>,
) -> Result<
    (
        Vec<TaskDeclaration<VariableName, TaskName, FunctionName>>,
        Names<'a>,
    ),
    AllocError,
>
    ensures place { IfOk result (λ x. map spec.task_back (map task_of x.0.items) ≡ map task_of all.items) }
    ensures variables { IfOk result (λ x. names.entry.used.variables.now ≡ spec.task_variables (map task_of x.0.items) x.1.used.variables.now) }
    ensures calls { IfOk result (λ x. names.entry.used.calls.now ≡ spec.task_calls (map task_of x.0.items) x.1.used.calls.now) }
    ensures targets { IfOk result (λ x. names.entry.targets.now ≡ spec.task_targets (map task_of x.0.items) x.1.targets.now) }
{
    let mut found = Vec::with_capacity(alloc, all.len())?;
    let mut rest = names;
    for of in all {
        let (of, left) = task(alloc, of, rest)?;
        found.push(of)?;
        rest = left;
    }
    Ok((found, rest))
}

fn parameters<'a>(
    alloc: Global,
    all: &[Parameter<Span>],
    names: Used<'a>,
) -> Result<(Vec<Parameter<VariableName>>, Used<'a>), AllocError>
    ensures place { IfOk result (λ x. map spec.parameter_back x.0.items ≡ all.now) }
    ensures variables { IfOk result (λ x. names.entry.variables.now ≡ spec.parameter_variables x.0.items x.1.variables.now) }
    ensures calls { IfOk result (λ x. names.entry.calls.now ≡ x.1.calls.now) }
{
    let mut found = Vec::with_capacity(alloc, all.len())?;
    let mut rest = names;
    for i in 0..all.len() {
        let parameter = all[i];
        let (name, left) = variable(parameter.name, rest)?;
        let word_type = parameter.word_type;
        found.push(Parameter { word_type, name })?;
        rest = left;
    }
    Ok((found, rest))
}

fn function<'a>(
    alloc: Global,
    of: FunctionDeclaration<Span, Span, Span>,
    names: Names<'a>,
) -> Result<
    (
        FunctionDeclaration<VariableName, TaskName, FunctionName>,
        Names<'a>,
    ),
    AllocError,
>
    ensures place { IfOk result (λ x. spec.function_back (function_of x.0) ≡ function_of of) }
    ensures variables { IfOk result (λ x. names.entry.used.variables.now ≡ spec.inner_variables (function_of x.0) x.1.used.variables.now) }
    ensures calls { IfOk result (λ x. names.entry.used.calls.now ≡ spec.block_calls (function_of x.0).body x.1.used.calls.now) }
    ensures targets { IfOk result (λ x. names.entry.targets.now ≡ spec.block_targets (function_of x.0).body x.1.targets.now) }
{
    let FunctionDeclaration {
        word_type,
        name,
        parameters: all,
        body,
    } = of;
    let (parameters, used) = parameters(alloc, &all, names.used)?;
    let targets = names.targets;
    let (body, rest) = block(alloc, body, Names { used, targets })?;
    Ok((
        FunctionDeclaration {
            word_type,
            name,
            parameters,
            body,
        },
        rest,
    ))
}

fn functions<'a>(
    alloc: Global,
    all: Vec<FunctionDeclaration<Span, Span, Span>>,
    names: Names<'a>,
) -> Result<
    (
        Vec<FunctionDeclaration<VariableName, TaskName, FunctionName>>,
        Names<'a>,
    ),
    AllocError,
>
    ensures place { IfOk result (λ x. map spec.function_back (map function_of x.0.items) ≡ map function_of all.items) }
    ensures variables { IfOk result (λ x. names.entry.used.variables.now ≡ spec.function_variables (map function_of x.0.items) x.1.used.variables.now) }
    ensures calls { IfOk result (λ x. names.entry.used.calls.now ≡ spec.function_calls (map function_of x.0.items) x.1.used.calls.now) }
    ensures targets { IfOk result (λ x. names.entry.targets.now ≡ spec.function_targets (map function_of x.0.items) x.1.targets.now) }
{
    let mut found = Vec::with_capacity(alloc, all.len())?;
    let mut rest = names;
    for of in all {
        let (of, left) = function(alloc, of, rest)?;
        found.push(of)?;
        rest = left;
    }
    Ok((found, rest))
}

// No name is left over: there are as many as the tree has.
fn finish(names: Names) -> Result<(), AllocError>
    ensures variables { IfOk result (λ _. names.entry.used.variables.now ≡ []) }
    ensures calls { IfOk result (λ _. names.entry.used.calls.now ≡ []) }
    ensures targets { IfOk result (λ _. names.entry.targets.now ≡ []) }
{
    let Used { variables, calls } = names.used;
    if variables.is_empty() && (calls.is_empty() && names.targets.is_empty()) {
        Ok(())
    } else {
        Err(AllocError)
    }
}

/// The tree with these names in the place of its own, in the text's order. Fails where memory does.
pub fn named(alloc: Global, tree: Tree, names: Names) -> Result<CheckedSource, AllocError>
    ensures place { IfOk result (λ s. spec.program_back (program_of s) ≡ program_of tree) }
    ensures variables { IfOk result (λ s. spec.program_variables (program_of s) ≡ names.entry.used.variables.now) }
    ensures calls { IfOk result (λ s. spec.program_calls (program_of s) ≡ names.entry.used.calls.now) }
    ensures targets { IfOk result (λ s. spec.program_targets (program_of s) ≡ names.entry.targets.now) }
{
    let Source {
        shared,
        functions: declared,
        tasks: all,
        entry,
    } = tree;
    let (functions, rest) = functions(alloc, declared, names)?;
    let (tasks, rest) = tasks(alloc, all, rest)?;
    let (entry, rest) = target(entry, rest)?;
    finish(rest)?;
    Ok(Source {
        shared,
        functions,
        tasks,
        entry,
    })
}
