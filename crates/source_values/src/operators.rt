//! Operators on words with the types of their operands.

ghost use Rattle.std.specs.Prelude.{◌≡◌, ◌<◌};
ghost use Rattle.alp_words.specs.Words.{bit};
ghost use Rattle.source_values.specs.Values.{unary_value, is_less, binary_value, shifted_value, shift_value};

use alp_words::{div16, less_signed, mul16, rem16, sar16, shl16, shr16};
use task_ast::{BinaryOperator, ShiftOperator, UnaryOperator, WordType};

pub fn unary_value(op: UnaryOperator, w: u16) -> u16
    ensures { result ≡ unary_value op w }
{
    match op {
        UnaryOperator::Negate => 0u16.wrapping_sub(w),
        UnaryOperator::Complement => !w,
        UnaryOperator::Not => u16::from(w == 0),
    }
}

fn is_less(word_type: WordType, a: u16, b: u16) -> bool
    ensures { result ≡ is_less word_type a b }
{
    match word_type {
        WordType::Int => less_signed(a, b),
        WordType::Unsigned | WordType::Long => a < b,
    }
}

/// The value of an operation on words whose joined type is `word_type`.
pub fn binary_value(op: BinaryOperator, word_type: WordType, a: u16, b: u16) -> u16
    ensures { result ≡ binary_value op word_type a b }
{
    match op {
        BinaryOperator::Multiply => mul16(a, b),
        BinaryOperator::Divide => div16(a, b),
        BinaryOperator::Remainder => rem16(a, b),
        BinaryOperator::Add => a.wrapping_add(b),
        BinaryOperator::Subtract => a.wrapping_sub(b),
        BinaryOperator::Less => u16::from(is_less(word_type, a, b)),
        BinaryOperator::LessEqual => u16::from(!is_less(word_type, b, a)),
        BinaryOperator::Greater => u16::from(is_less(word_type, b, a)),
        BinaryOperator::GreaterEqual => u16::from(!is_less(word_type, a, b)),
        BinaryOperator::Equal => u16::from(a == b),
        BinaryOperator::NotEqual => u16::from(a != b),
        BinaryOperator::And => a & b,
        BinaryOperator::Xor => a ^ b,
        BinaryOperator::Or => a | b,
    }
}

fn shifted_value(op: ShiftOperator, word_type: WordType, w: u16, count: u8) -> u16
    requires { count < 16 }
    ensures { result ≡ shifted_value op word_type w count }
{
    match op {
        ShiftOperator::Left => shl16(w, count),
        ShiftOperator::Right => match word_type {
            WordType::Int => sar16(w, count),
            WordType::Unsigned | WordType::Long => shr16(w, count),
        },
    }
}

/// The value of a shift of a word of this type.
pub fn shift_value(op: ShiftOperator, word_type: WordType, w: u16, count: u16) -> u16
    ensures { result ≡ shift_value op word_type w count }
{
    if count <= 15 {
        shifted_value(op, word_type, w, count as u8)
    } else {
        0
    }
}
