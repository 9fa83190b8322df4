//! The names of a tree, each where it stands: from the last of the text to the first.

ghost use Rattle.std.specs.Prelude.{◌≡◌, ◌<◌, suc, List, [], Option, length, map, set, IfOk};
ghost use Rattle.alp_text.specs.declared.lines.Span.{Span};
ghost use Rattle.task_ast.specs.Tree.{Block, choice_of};
ghost use Rattle.std.specs.Option.{option_map};
ghost use Rattle.task_ast.specs.View.{expression_of, values_of, statement_of, tested_of, function_of, task_of, block_view, last_view, program_of};
ghost use Rattle.task_check.specs.declared.occurrence.Occurrence.{Occurrence};
ghost use Rattle.task_check.specs.Typed.{HasSharedTypes, types_of};
ghost use Rattle.task_check.specs.Occurrences as spec;

use crate::fault::Kept;
use crate::occurrence::{Occurrence, Role};
use crate::types::{SharedTypes, name_type, shared_types};
use alp_text::Span;
use std::alloc::{AllocError, Global};
use task_ast::types::{binary_type, is_long, joined_type, literal_type, unary_type};
use task_ast::{
    Args, Arm, BinaryOperator, Expr, FunctionDeclaration, Parameter, SharedDeclaration, Stmt,
    TaskDeclaration, Tree, WordType,
};

fn add(names: &mut Vec<Occurrence>, span: Span, role: Role) -> Result<(), AllocError>
    ensures { IfOk result (λ _. names.new.items ≡ spec.and_front names.old.items span role) }
{
    names.push(Occurrence { span, role })?;
    Ok(())
}

fn is_refused(op: BinaryOperator, operands: WordType) -> bool
    ensures { result ≡ spec.is_refused op operands }
{
    match op {
        BinaryOperator::Multiply | BinaryOperator::Divide | BinaryOperator::Remainder => {
            is_long(operands)
        }
        BinaryOperator::Add
        | BinaryOperator::Subtract
        | BinaryOperator::Less
        | BinaryOperator::LessEqual
        | BinaryOperator::Greater
        | BinaryOperator::GreaterEqual
        | BinaryOperator::Equal
        | BinaryOperator::NotEqual
        | BinaryOperator::And
        | BinaryOperator::Xor
        | BinaryOperator::Or => false,
    }
}

// An operator between operands of a joined type.
fn operator_role(op: BinaryOperator, operands: WordType) -> Role
    ensures { result ≡ spec.operator_role op operands }
{
    Role::Operand {
        refused: is_refused(op, operands),
        kept: Kept::Nothing,
    }
}

fn most_count(word_type: WordType) -> u16
    ensures { result ≡ spec.most_count word_type }
{
    match word_type {
        WordType::Long => 31,
        WordType::Int | WordType::Unsigned => 15,
    }
}

// The count of a shift of a type.
fn count_role(count: u16, word_type: WordType) -> Role
    ensures { result ≡ spec.count_role count word_type }
{
    Role::Operand {
        refused: most_count(word_type) < count,
        kept: Kept::Number(count),
    }
}

// An array's name with its index of this type, behind which stand the names so far.
fn add_element(name: Span, index: WordType, names: &mut Vec<Occurrence>) -> Result<(), AllocError>
    ensures { IfOk result (λ _. names.new.items ≡ spec.element_of index name names.old.items) }
{
    let role = Role::Operand {
        refused: is_long(index),
        kept: Kept::Name(name),
    };
    add(names, name, role)?;
    add(names, name, Role::Element)
}

// What stands at a place of the list gets its role.
fn put_role(names: &mut Vec<Occurrence>, at: usize, span: Span, role: Role)
    requires { at < length names.old.items }
    ensures { names.new.items ≡ set names.old.items at (spec.occurrence span role) }
{
    names[at] = Occurrence { span, role };
}

// One more value of a call.
fn one_more(count: usize) -> Result<usize, AllocError>
    ensures { IfOk result (λ n. n ≡ suc count) }
{
    match count.checked_add(1) {
        Some(more) => Ok(more),
        None => Err(AllocError),
    }
}

// The names of an expression, and its type, which is found on the way; that of a call is as good as any that isn't long. What an operator's
// operands forbid is known when both of them are walked, so its role is put last.
#[cycle(expression)]
fn expression_names(
    types: &SharedTypes<'_>,
    e: &Expr<Span, Span>,
    names: &mut Vec<Occurrence>,
) -> Result<WordType, AllocError>
    requires { HasSharedTypes types.now }
    ensures typed { IfOk result (λ of. of ≡ spec.width_type (types_of types.now) (expression_of e.now)) }
    ensures names { IfOk result (λ _. names.new.items ≡ spec.expression_names (types_of types.now) (expression_of e.now) names.old.items) }
{
    match e {
        Expr::Number(n) => Ok(literal_type(*n)),
        Expr::LongNumber(_) => Ok(WordType::Long),
        Expr::Sense => Ok(WordType::Unsigned),
        Expr::NextEvent => Ok(WordType::Unsigned),
        Expr::Name(name) => {
            add(names, *name, Role::Scalar)?;
            Ok(name_type(types, *name))
        }
        Expr::Element(name, index) => {
            let index = expression_names(types, index, names)?;
            add_element(*name, index, names)?;
            Ok(name_type(types, *name))
        }
        Expr::Call(name, values) => {
            let count = values_names(types, values, names)?;
            add(names, *name, Role::Call(count))?;
            Ok(WordType::Unsigned)
        }
        Expr::Unary(op, inner) => {
            let inner = expression_names(types, inner, names)?;
            Ok(unary_type(*op, inner))
        }
        Expr::Binary(op, left, right) => {
            let right = expression_names(types, right, names)?;
            let at = names.len();
            add(names, op.span, operator_role(op.operator, right))?;
            let left = expression_names(types, left, names)?;
            let role = operator_role(op.operator, joined_type(left, right));
            put_role(names, at, op.span, role);
            Ok(binary_type(op.operator, left, right))
        }
        Expr::ShortCircuit(_, left, right) => {
            expression_names(types, right, names)?;
            expression_names(types, left, names)?;
            Ok(WordType::Int)
        }
        Expr::Shift(_, left, count) => {
            let at = names.len();
            add(names, count.span, count_role(count.value, WordType::Int))?;
            let left = expression_names(types, left, names)?;
            put_role(names, at, count.span, count_role(count.value, left));
            Ok(left)
        }
    }
}

// The names of the values of a call, and how many there are.
#[cycle(expression)]
fn values_names(
    types: &SharedTypes<'_>,
    values: &Args<Span, Span>,
    names: &mut Vec<Occurrence>,
) -> Result<usize, AllocError>
    requires { HasSharedTypes types.now }
    ensures count { IfOk result (λ n. n ≡ spec.values_length (values_of values.now)) }
    ensures names { IfOk result (λ _. names.new.items ≡ spec.values_names (types_of types.now) (values_of values.now) names.old.items) }
{
    match values {
        Args::End => Ok(0),
        Args::Value(e, more) => {
            let count = values_names(types, more, names)?;
            expression_names(types, e, names)?;
            one_more(count)
        }
    }
}

// The names of an expression whose type nothing asks for.
fn whole_names(
    types: &SharedTypes<'_>,
    e: &Expr<Span, Span>,
    names: &mut Vec<Occurrence>,
) -> Result<(), AllocError>
    requires { HasSharedTypes types.now }
    ensures { IfOk result (λ _. names.new.items ≡ spec.expression_names (types_of types.now) (expression_of e.now) names.old.items) }
{
    expression_names(types, e, names)?;
    Ok(())
}

// The names of an element that is assigned, behind which stand the names so far.
fn element_names(
    types: &SharedTypes<'_>,
    name: Span,
    index: &Expr<Span, Span>,
    names: &mut Vec<Occurrence>,
) -> Result<(), AllocError>
    requires { HasSharedTypes types.now }
    ensures { IfOk result (λ _. names.new.items ≡ spec.element_front (types_of types.now) name (expression_of index.now)
        (spec.expression_names (types_of types.now) (expression_of index.now) names.old.items)) }
{
    let index = expression_names(types, index, names)?;
    add_element(name, index, names)
}

fn value_names(
    types: &SharedTypes<'_>,
    value: &Option<Expr<Span, Span>>,
    names: &mut Vec<Occurrence>,
) -> Result<(), AllocError>
    requires { HasSharedTypes types.now }
    ensures { IfOk result (λ _. names.new.items ≡ spec.value_names (types_of types.now) (option_map expression_of value.now) names.old.items) }
{
    match value {
        Some(e) => whole_names(types, e, names),
        None => Ok(()),
    }
}

// A keyword that is refused or not.
fn add_keyword(span: Span, refused: bool, names: &mut Vec<Occurrence>) -> Result<(), AllocError>
    ensures { IfOk result (λ _. names.new.items ≡ spec.and_front names.old.items span (spec.keyword_role refused)) }
{
    let kept = Kept::Nothing;
    add(names, span, Role::Operand { refused, kept })
}

// The names of a statement in a task or in a function; `end` names stand behind the end of its block.
#[cycle(names)]
fn statement_names(
    types: &SharedTypes<'_>,
    in_task: bool,
    end: usize,
    s: &Stmt<Span, Span, Span>,
    names: &mut Vec<Occurrence>,
) -> Result<(), AllocError>
    requires { HasSharedTypes types.now }
    ensures { IfOk result (λ _. names.new.items ≡ spec.statement_names (types_of types.now) in_task end (statement_of s.now) names.old.items) }
{
    match s {
        Stmt::Declare(word_type, name, value) => {
            let begin = names.len();
            value_names(types, value, names)?;
            let word_type = *word_type;
            add(
                names,
                *name,
                Role::Local {
                    word_type,
                    begin,
                    end,
                    extra: false,
                },
            )
        }
        Stmt::Assign(name, e) => {
            whole_names(types, e, names)?;
            add(names, *name, Role::Scalar)
        }
        Stmt::Store(name, index, e) => {
            whole_names(types, e, names)?;
            element_names(types, *name, index, names)
        }
        Stmt::If(arms, None) => arms_names(types, in_task, arms, names),
        Stmt::If(arms, Some(last)) => {
            block_names(types, in_task, last, names)?;
            arms_names(types, in_task, arms, names)
        }
        Stmt::For {
            variable,
            from: _,
            tested,
            below: _,
            stepped,
            body,
        } => {
            block_names(types, in_task, body, names)?;
            add(names, *stepped, Role::Counter)?;
            add(names, *tested, Role::Counter)?;
            add(names, *variable, Role::Counter)
        }
        Stmt::Emit(e) => whole_names(types, e, names),
        Stmt::Return(at, e) => {
            whole_names(types, e, names)?;
            add_keyword(*at, in_task, names)
        }
        Stmt::TransitionTo(at, name) => {
            add(names, *name, Role::Target)?;
            add_keyword(*at, !in_task, names)
        }
    }
}

// Behind the last block, if there is one.
#[cycle(names)]
fn arms_names(
    types: &SharedTypes<'_>,
    in_task: bool,
    arms: &[Arm<Span, Span, Span>],
    names: &mut Vec<Occurrence>,
) -> Result<(), AllocError>
    requires { HasSharedTypes types.now }
    ensures { IfOk result (λ _. (last : Option (Block Span Span Span)) (behind : List Occurrence)
        → names.old.items ≡ spec.choice_names (types_of types.now) in_task (choice_of [] last) behind
        → names.new.items ≡ spec.choice_names (types_of types.now) in_task (choice_of (map tested_of arms.now) last) behind) }
{
    for i in (0..arms.len()).rev() {
        block_names(types, in_task, &arms[i].block, names)?;
        whole_names(types, &arms[i].condition, names)?;
    }
    Ok(())
}

#[cycle(names)]
fn block_names(
    types: &SharedTypes<'_>,
    in_task: bool,
    body: &[Stmt<Span, Span, Span>],
    names: &mut Vec<Occurrence>,
) -> Result<(), AllocError>
    requires { HasSharedTypes types.now }
    ensures { IfOk result (λ _. names.new.items ≡ spec.block_names (types_of types.now) in_task (block_view body.now) names.old.items) }
{
    let end = names.len();
    for i in (0..body.len()).rev() {
        statement_names(types, in_task, end, &body[i], names)?;
    }
    Ok(())
}

fn task_names(
    types: &SharedTypes<'_>,
    tasks: &[TaskDeclaration<Span, Span, Span>],
    names: &mut Vec<Occurrence>,
) -> Result<(), AllocError>
    requires { HasSharedTypes types.now }
    ensures { IfOk result (λ _. names.new.items ≡ spec.task_names (types_of types.now) (map task_of tasks.now) names.old.items) }
{
    for i in (0..tasks.len()).rev() {
        block_names(types, true, &tasks[i].body, names)?;
        add(names, tasks[i].name, Role::Task)?;
    }
    Ok(())
}

// The parameters of a function that may have eight; `end` names stand behind the end of its body.
fn parameter_names(
    end: usize,
    parameters: &[Parameter<Span>],
    names: &mut Vec<Occurrence>,
) -> Result<(), AllocError>
    ensures { IfOk result (λ _. names.new.items ≡ spec.parameter_names end 0 parameters.now names.old.items) }
{
    for i in (0..parameters.len()).rev() {
        let Parameter { word_type, name } = parameters[i];
        let begin = names.len();
        add(
            names,
            name,
            Role::Local {
                word_type,
                begin,
                end,
                extra: 8 <= i,
            },
        )?;
    }
    Ok(())
}

// The names of a function behind its own.
fn inner_names(
    types: &SharedTypes<'_>,
    function: &FunctionDeclaration<Span, Span, Span>,
    names: &mut Vec<Occurrence>,
) -> Result<(), AllocError>
    requires { HasSharedTypes types.now }
    ensures { IfOk result (λ _. names.new.items ≡ spec.inner_names (types_of types.now) (function_of function.now) names.old.items) }
{
    let end = names.len();
    block_names(types, false, &function.body, names)?;
    parameter_names(end, &function.parameters, names)
}

fn function_names(
    types: &SharedTypes<'_>,
    functions: &[FunctionDeclaration<Span, Span, Span>],
    names: &mut Vec<Occurrence>,
) -> Result<(), AllocError>
    requires { HasSharedTypes types.now }
    ensures { IfOk result (λ _. names.new.items ≡ spec.function_names (types_of types.now) (map function_of functions.now) names.old.items) }
{
    for i in (0..functions.len()).rev() {
        let function = &functions[i];
        inner_names(types, function, names)?;
        let role = Role::Function(function.word_type, function.parameters.len());
        add(names, function.name, role)?;
    }
    Ok(())
}

fn shared_names(shared: &[SharedDeclaration], names: &mut Vec<Occurrence>) -> Result<(), AllocError>
    ensures { IfOk result (λ _. names.new.items ≡ spec.shared_names shared.now names.old.items) }
{
    for i in (0..shared.len()).rev() {
        let declared = shared[i];
        add(
            names,
            declared.name,
            Role::Shared(declared.word_type, declared.extent),
        )?;
    }
    Ok(())
}

/// The names of a whole source. Fails where memory does.
#[tactic(auto, unfolding(crate::specs::Occurrences::program_names))]
pub fn program_names(
    alloc: Global,
    source: &[u8],
    tree: &Tree,
) -> Result<Vec<Occurrence>, AllocError>
    ensures { IfOk result (λ names. names.items ≡ spec.program_names source.now (program_of tree.now)) }
{
    let types = shared_types(alloc, source, &tree.shared)?;
    let mut names = Vec::new(alloc);
    add(&mut names, tree.entry, Role::Target)?;
    task_names(&types, &tree.tasks, &mut names)?;
    function_names(&types, &tree.functions, &mut names)?;
    shared_names(&tree.shared, &mut names)?;
    Ok(names)
}
