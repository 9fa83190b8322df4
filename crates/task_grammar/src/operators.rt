//! What marks mean as operators.

ghost use Rattle.std.specs.Prelude.{◌≡◌};
ghost use Rattle.task_grammar.specs.Grammar as grammar;
ghost use Rattle.task_grammar.specs.Expressions as spec;

use task_ast::{BinaryOperator, ShiftOperator, ShortCircuitOperator, UnaryOperator, WordType};
use task_lex::Kind;

/// An operator between two sides.
#[derive(Clone, Copy)]
pub enum Infix {
    Binary(BinaryOperator),
    Shift(ShiftOperator),
    ShortCircuit(ShortCircuitOperator),
}

/// The operator that a mark is in front of its operand.
pub fn prefix_of(kind: Kind) -> Option<UnaryOperator>
    ensures { result ≡ grammar.prefix_of kind }
{
    match kind {
        Kind::Minus => Some(UnaryOperator::Negate),
        Kind::Tilde => Some(UnaryOperator::Complement),
        Kind::Bang => Some(UnaryOperator::Not),
        _ => None,
    }
}

// The operator that a mark is between two sides, with its precedence, from 1, the tightest, to 10.
fn infix_of(kind: Kind) -> Option<(u8, Infix)>
    ensures { result ≡ grammar.infix_of kind }
{
    match kind {
        Kind::Star => Some((1, Infix::Binary(BinaryOperator::Multiply))),
        Kind::Slash => Some((1, Infix::Binary(BinaryOperator::Divide))),
        Kind::Percent => Some((1, Infix::Binary(BinaryOperator::Remainder))),
        Kind::Plus => Some((2, Infix::Binary(BinaryOperator::Add))),
        Kind::Minus => Some((2, Infix::Binary(BinaryOperator::Subtract))),
        Kind::ShiftLeft => Some((3, Infix::Shift(ShiftOperator::Left))),
        Kind::ShiftRight => Some((3, Infix::Shift(ShiftOperator::Right))),
        Kind::Less => Some((4, Infix::Binary(BinaryOperator::Less))),
        Kind::LessEqual => Some((4, Infix::Binary(BinaryOperator::LessEqual))),
        Kind::Greater => Some((4, Infix::Binary(BinaryOperator::Greater))),
        Kind::GreaterEqual => Some((4, Infix::Binary(BinaryOperator::GreaterEqual))),
        Kind::Equal => Some((5, Infix::Binary(BinaryOperator::Equal))),
        Kind::NotEqual => Some((5, Infix::Binary(BinaryOperator::NotEqual))),
        Kind::Ampersand => Some((6, Infix::Binary(BinaryOperator::And))),
        Kind::Caret => Some((7, Infix::Binary(BinaryOperator::Xor))),
        Kind::Bar => Some((8, Infix::Binary(BinaryOperator::Or))),
        Kind::AndAnd => Some((9, Infix::ShortCircuit(ShortCircuitOperator::And))),
        Kind::OrOr => Some((10, Infix::ShortCircuit(ShortCircuitOperator::Or))),
        _ => None,
    }
}

/// The operator of this precedence that a mark is between two sides.
#[tactic(auto, unfolding(crate::specs::Expressions::infix_at))]
pub fn infix_at(precedence: u8, kind: Kind) -> Option<Infix>
    ensures { result ≡ spec.infix_at precedence kind }
{
    match infix_of(kind) {
        Some((at, op)) if at == precedence => Some(op),
        _ => None,
    }
}

/// The type that a keyword names.
pub fn type_of(kind: Kind) -> Option<WordType>
    ensures { result ≡ grammar.type_of kind }
{
    match kind {
        Kind::Unsigned => Some(WordType::Unsigned),
        Kind::Int => Some(WordType::Int),
        _ => None,
    }
}
