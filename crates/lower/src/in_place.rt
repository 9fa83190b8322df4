//! What an assignment in place does: where the left side of its operator is what is assigned.
ghost use Rattle.std.specs.Prelude.{◌≡◌};
ghost use Rattle.task_ast.specs.View.{expression_of};
ghost use Rattle.lower.specs.Lowered.{has_call, is_name, updating, doubling, of_words, is_number, are_alike, is_element, element_updating};

use crate::operations::plain_operation;
use array_versions::PlainOperation;
use path_sums::is_same;
use task_ast::{
    BinaryOperator, Expr, FunctionName, ShiftOperator, Variable, VariableName, WordType,
};

// Whether an expression is a variable alone.
fn is_name(variable: Variable, e: &Expr<VariableName, FunctionName>) -> bool
    ensures { result ≡ is_name variable (expression_of e.now) }
{
    match e {
        Expr::Name(name) => is_same(variable, name.variable),
        Expr::Number(_)
        | Expr::LongNumber(_)
        | Expr::Element(..)
        | Expr::Sense
        | Expr::NextEvent
        | Expr::Call(..)
        | Expr::Unary(..)
        | Expr::Binary(..)
        | Expr::Shift(..)
        | Expr::ShortCircuit(..) => false,
    }
}

// Whether an expression calls a function.
fn has_call(e: &Expr<VariableName, FunctionName>) -> bool
    ensures { result ≡ has_call (expression_of e.now) }
{
    match e {
        Expr::Call(..) => true,
        Expr::Element(_, inner) | Expr::Unary(_, inner) | Expr::Shift(_, inner, _) => {
            has_call(inner)
        }
        Expr::Binary(_, a, b) | Expr::ShortCircuit(_, a, b) => has_call(a) || has_call(b),
        Expr::Number(_) | Expr::LongNumber(_) | Expr::Name(_) | Expr::Sense | Expr::NextEvent =>
            false,
    }
}

/// The operation that sets a variable to what an operator gives of it, on the left, and of another side. None where that side calls
/// a function: the variable is read first, and the function may change it.
pub fn updating(
    variable: Variable,
    op: BinaryOperator,
    left: &Expr<VariableName, FunctionName>,
    right: &Expr<VariableName, FunctionName>,
) -> Option<PlainOperation>
    ensures { result ≡ updating variable op (expression_of left.now) (expression_of right.now) }
{
    if is_name(variable, left) && !has_call(right) {
        plain_operation(op)
    } else {
        None
    }
}

/// The operation that sets a variable to what a shift by this count gives of it, where it is given the variable twice: one bit to the
/// left is a sum.
pub fn doubling(
    variable: Variable,
    op: ShiftOperator,
    e: &Expr<VariableName, FunctionName>,
    count: u16,
) -> Option<PlainOperation>
    ensures { result ≡ doubling variable op (expression_of e.now) count }
{
    match op {
        ShiftOperator::Left if is_name(variable, e) && count == 1 => Some(PlainOperation::Add),
        ShiftOperator::Left | ShiftOperator::Right => None,
    }
}

/// The operation, where it is one of words.
pub fn of_words(word_type: WordType, operation: Option<PlainOperation>) -> Option<PlainOperation>
    ensures { result ≡ of_words word_type operation }
{
    match word_type {
        WordType::Long => None,
        WordType::Int | WordType::Unsigned => operation,
    }
}

// Whether an expression is this number.
fn is_number(n: u16, e: &Expr<VariableName, FunctionName>) -> bool
    ensures { result ≡ is_number n (expression_of e.now) }
{
    match e {
        Expr::Number(m) => n == *m,
        Expr::LongNumber(_)
        | Expr::Name(_)
        | Expr::Element(..)
        | Expr::Sense
        | Expr::NextEvent
        | Expr::Call(..)
        | Expr::Unary(..)
        | Expr::Binary(..)
        | Expr::Shift(..)
        | Expr::ShortCircuit(..) => false,
    }
}

// Whether two expressions are one number or one variable alone.
fn are_alike(
    first: &Expr<VariableName, FunctionName>,
    second: &Expr<VariableName, FunctionName>,
) -> bool
    ensures { result ≡ are_alike (expression_of first.now) (expression_of second.now) }
{
    match first {
        Expr::Number(n) => is_number(*n, second),
        Expr::Name(name) => is_name(name.variable, second),
        Expr::LongNumber(_)
        | Expr::Element(..)
        | Expr::Sense
        | Expr::NextEvent
        | Expr::Call(..)
        | Expr::Unary(..)
        | Expr::Binary(..)
        | Expr::Shift(..)
        | Expr::ShortCircuit(..) => false,
    }
}

// Whether an expression is the element of a variable at an index that is a number or a variable alone.
fn is_element(
    variable: Variable,
    index: &Expr<VariableName, FunctionName>,
    e: &Expr<VariableName, FunctionName>,
) -> bool
    ensures { result ≡ is_element variable (expression_of index.now) (expression_of e.now) }
{
    match e {
        Expr::Element(x, other) => is_same(variable, x.variable) && are_alike(index, other),
        Expr::Number(_)
        | Expr::LongNumber(_)
        | Expr::Name(_)
        | Expr::Sense
        | Expr::NextEvent
        | Expr::Call(..)
        | Expr::Unary(..)
        | Expr::Binary(..)
        | Expr::Shift(..)
        | Expr::ShortCircuit(..) => false,
    }
}

/// The operation that sets an element to what an operator gives of it, on the left, and of another side. Both indexes are one
/// number or one variable alone, so that it is one element. None where the other side calls a function, which may change it.
pub fn element_updating(
    variable: Variable,
    index: &Expr<VariableName, FunctionName>,
    op: BinaryOperator,
    left: &Expr<VariableName, FunctionName>,
    right: &Expr<VariableName, FunctionName>,
) -> Option<PlainOperation>
    ensures { result ≡ element_updating variable (expression_of index.now) op (expression_of left.now) (expression_of right.now) }
{
    if is_element(variable, index, left) && !has_call(right) {
        plain_operation(op)
    } else {
        None
    }
}
