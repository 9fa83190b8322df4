//! The types of expressions, by their parts' types.

ghost use Rattle.std.specs.Prelude.{◌≡◌};
ghost use Rattle.task_ast.specs.View.{expression_of};
ghost use Rattle.task_ast.specs.Types.{is_long, joined_type, quotient_type, binary_type, unary_type, literal_type, type_of};

use crate::{BinaryOperator, Expr, FunctionName, UnaryOperator, VariableName, WordType};

/// Whether a number of the type has two words.
pub fn is_long(word_type: WordType) -> bool
    ensures { result ≡ is_long word_type }
{
    match word_type {
        WordType::Long => true,
        WordType::Int | WordType::Unsigned => false,
    }
}

/// A literal up to 32767 is an int.
pub fn literal_type(n: u16) -> WordType
    ensures { result ≡ literal_type n }
{
    if n <= 32767 {
        WordType::Int
    } else {
        WordType::Unsigned
    }
}

/// `-` and `~` keep the type, `!` gives an int.
pub fn unary_type(op: UnaryOperator, operand: WordType) -> WordType
    ensures { result ≡ unary_type op operand }
{
    match op {
        UnaryOperator::Negate | UnaryOperator::Complement => operand,
        UnaryOperator::Not => WordType::Int,
    }
}

/// An operation with a long operand is long, and else one with an unsigned operand is unsigned.
pub fn joined_type(a: WordType, b: WordType) -> WordType
    ensures { result ≡ joined_type a b }
{
    match (a, b) {
        (WordType::Long, _) | (_, WordType::Long) => WordType::Long,
        (WordType::Int, WordType::Int) => WordType::Int,
        (WordType::Unsigned, _) | (_, WordType::Unsigned) => WordType::Unsigned,
    }
}

fn quotient_type(joined: WordType) -> WordType
    ensures { result ≡ quotient_type joined }
{
    match joined {
        WordType::Long => WordType::Long,
        WordType::Int | WordType::Unsigned => WordType::Unsigned,
    }
}

/// A comparison gives an int, `/` and `%` are never ints.
pub fn binary_type(op: BinaryOperator, a: WordType, b: WordType) -> WordType
    ensures { result ≡ binary_type op a b }
{
    match op {
        BinaryOperator::Divide | BinaryOperator::Remainder => quotient_type(joined_type(a, b)),
        BinaryOperator::Less
        | BinaryOperator::LessEqual
        | BinaryOperator::Greater
        | BinaryOperator::GreaterEqual
        | BinaryOperator::Equal
        | BinaryOperator::NotEqual => WordType::Int,
        BinaryOperator::Multiply
        | BinaryOperator::Add
        | BinaryOperator::Subtract
        | BinaryOperator::And
        | BinaryOperator::Xor
        | BinaryOperator::Or => joined_type(a, b),
    }
}

/// The type of an expression whose names have been looked up.
pub fn type_of(e: &Expr<VariableName, FunctionName>) -> WordType
    ensures { result ≡ type_of (expression_of e.now) }
{
    match e {
        Expr::Number(n) => literal_type(*n),
        Expr::LongNumber(_) => WordType::Long,
        Expr::Name(x) | Expr::Element(x, _) => x.word_type,
        Expr::Sense => WordType::Unsigned,
        Expr::NextEvent => WordType::Unsigned,
        Expr::Call(f, _) => f.word_type,
        Expr::Unary(op, operand) => unary_type(*op, type_of(operand)),
        Expr::Binary(op, a, b) => binary_type(op.operator, type_of(a), type_of(b)),
        Expr::Shift(_, operand, _) => type_of(operand),
        Expr::ShortCircuit(_, _, _) => WordType::Int,
    }
}
