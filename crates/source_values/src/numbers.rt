//! Numbers with their types, and what operators make of them.

ghost use Rattle.std.specs.Prelude.{◌≡◌, ◌<◌};
ghost use Rattle.task_ast.specs.declared.WordType.{WordType};
ghost use Rattle.task_ast.specs.declared.WordType.TheVariants.{Long, Int, Unsigned};
ghost use Rattle.alp_words.specs.Words.{bit};
ghost use Rattle.source_values.specs.Values.{binary_type, joined_type, unary_type, binary_value, converted, holds, long_unary_value, long_binary_value};
ghost use Rattle.source_values.specs.Values.{long_shifted_value};
ghost use Rattle.source_values.specs.Values.{long_shift_value, sign_word, unary_result, binary_result, shift_result, two_words};
ghost use Rattle.source_values.specs.Numbers.{number_type, number_value};

use crate::operators::{binary_value, shift_value, unary_value};
use task_ast::types::{binary_type, joined_type, unary_type};
use task_ast::{BinaryOperator, ShiftOperator, UnaryOperator, WordType};

/// A number with its type.
#[derive(Clone, Copy, Debug, PartialEq, Eq)]
pub enum Number {
    Unsigned(u16),
    Int(u16),
    Long(u32),
}

/// A number of two words, the low one first.
pub fn two_words(low: u16, high: u16) -> u32
    ensures { result ≡ two_words low high }
{
    u32::from(low) + 65536 * u32::from(high)
}

fn sign_word(w: u16) -> u16
    ensures { result ≡ sign_word w }
{
    if w < 32768 { 0 } else { 65535 }
}

/// A word as a number of this type.
pub fn number_of(word_type: WordType, w: u16) -> Number
    ensures word_type { number_type result ≡ word_type }
    ensures value { number_value result ≡ w }
{
    match word_type {
        WordType::Unsigned => Number::Unsigned(w),
        WordType::Int => Number::Int(w),
        WordType::Long => Number::Long(u32::from(w)),
    }
}

impl Number {
    pub fn word_type(self) -> WordType
        ensures { result ≡ number_type self }
    {
        match self {
            Number::Unsigned(_) => WordType::Unsigned,
            Number::Int(_) => WordType::Int,
            Number::Long(_) => WordType::Long,
        }
    }

    pub fn value(self) -> u32
        ensures { result ≡ number_value self }
    {
        match self {
            Number::Unsigned(w) | Number::Int(w) => u32::from(w),
            Number::Long(n) => n,
        }
    }

    /// The number as one word.
    pub fn word(self) -> u16
        ensures { result ≡ converted (number_type self) Unsigned (number_value self) }
    {
        match self {
            Number::Unsigned(w) | Number::Int(w) => w,
            Number::Long(n) => (n % 65536) as u16,
        }
    }

    /// The number as a long one.
    pub fn long(self) -> u32
        ensures { result ≡ converted (number_type self) Long (number_value self) }
    {
        match self {
            Number::Unsigned(w) => u32::from(w),
            Number::Int(w) => two_words(w, sign_word(w)),
            Number::Long(n) => n,
        }
    }

    pub fn holds(self) -> bool
        ensures { result ≡ holds (number_value self) }
    {
        self.value() != 0
    }
}

fn long_unary(op: UnaryOperator, w: u32) -> Number
    ensures word_type { number_type result ≡ unary_type op Long }
    ensures value { number_value result ≡ long_unary_value op w }
{
    match op {
        UnaryOperator::Negate => Number::Long(0u32.wrapping_sub(w)),
        UnaryOperator::Complement => Number::Long(!w),
        UnaryOperator::Not => Number::Int(u16::from(w == 0)),
    }
}

/// What an operator in front makes of a number.
pub fn unary_number(op: UnaryOperator, x: Number) -> Number
    ensures word_type { number_type result ≡ unary_type op (number_type x) }
    ensures value { number_value result ≡ unary_result op (number_type x) (number_value x) }
{
    match x {
        Number::Long(n) => long_unary(op, n),
        Number::Unsigned(w) => number_of(unary_type(op, WordType::Unsigned), unary_value(op, w)),
        Number::Int(w) => number_of(unary_type(op, WordType::Int), unary_value(op, w)),
    }
}

fn truth(holds: bool) -> Number
    ensures word_type { number_type result ≡ Int }
    ensures value { number_value result ≡ bit holds }
{
    Number::Int(u16::from(holds))
}

// What an operator makes of two longs, or of two numbers one of which is long.
fn long_binary(op: BinaryOperator, a: u32, b: u32) -> Number
    ensures word_type { (s t : WordType) → joined_type s t ≡ Long → number_type result ≡ binary_type op s t }
    ensures value { number_value result ≡ long_binary_value op a b }
{
    match op {
        BinaryOperator::Multiply | BinaryOperator::Divide | BinaryOperator::Remainder => {
            Number::Long(0)
        }
        BinaryOperator::Add => Number::Long(a.wrapping_add(b)),
        BinaryOperator::Subtract => Number::Long(a.wrapping_sub(b)),
        BinaryOperator::Less => truth(a < b),
        BinaryOperator::LessEqual => truth(a <= b),
        BinaryOperator::Greater => truth(b < a),
        BinaryOperator::GreaterEqual => truth(b <= a),
        BinaryOperator::Equal => truth(a == b),
        BinaryOperator::NotEqual => truth(a != b),
        BinaryOperator::And => Number::Long(a & b),
        BinaryOperator::Xor => Number::Long(a ^ b),
        BinaryOperator::Or => Number::Long(a | b),
    }
}

// The same of words of two types.
fn word_binary(op: BinaryOperator, s: WordType, t: WordType, a: u16, b: u16) -> Number
    ensures word_type { number_type result ≡ binary_type op s t }
    ensures value { number_value result ≡ binary_value op (joined_type s t) a b }
{
    number_of(
        binary_type(op, s, t),
        binary_value(op, joined_type(s, t), a, b),
    )
}

/// What an operator makes of two numbers.
pub fn binary_number(op: BinaryOperator, x: Number, y: Number) -> Number
    ensures word_type { number_type result ≡ binary_type op (number_type x) (number_type y) }
    ensures value { number_value result ≡ binary_result op (number_type x) (number_type y) (number_value x) (number_value y) }
{
    match (x, y) {
        (Number::Long(_), _) => long_binary(op, x.long(), y.long()),
        (Number::Unsigned(_), Number::Long(_)) => long_binary(op, x.long(), y.long()),
        (Number::Int(_), Number::Long(_)) => long_binary(op, x.long(), y.long()),
        (Number::Unsigned(a), Number::Unsigned(b)) => {
            word_binary(op, WordType::Unsigned, WordType::Unsigned, a, b)
        }
        (Number::Unsigned(a), Number::Int(b)) => {
            word_binary(op, WordType::Unsigned, WordType::Int, a, b)
        }
        (Number::Int(a), Number::Unsigned(b)) => {
            word_binary(op, WordType::Int, WordType::Unsigned, a, b)
        }
        (Number::Int(a), Number::Int(b)) => word_binary(op, WordType::Int, WordType::Int, a, b),
    }
}

fn long_shifted(op: ShiftOperator, w: u32, count: u8) -> u32
    requires { count < 32 }
    ensures { result ≡ long_shifted_value op w count }
{
    match op {
        ShiftOperator::Left => w << count,
        ShiftOperator::Right => w >> count,
    }
}

fn long_shift(op: ShiftOperator, w: u32, count: u16) -> u32
    ensures { result ≡ long_shift_value op w count }
{
    if count <= 31 {
        long_shifted(op, w, count as u8)
    } else {
        0
    }
}

/// What a shift makes of a number.
pub fn shifted_number(op: ShiftOperator, x: Number, count: u16) -> Number
    ensures word_type { number_type result ≡ number_type x }
    ensures value { number_value result ≡ shift_result op (number_type x) (number_value x) count }
{
    match x {
        Number::Unsigned(w) => Number::Unsigned(shift_value(op, WordType::Unsigned, w, count)),
        Number::Int(w) => Number::Int(shift_value(op, WordType::Int, w, count)),
        Number::Long(n) => Number::Long(long_shift(op, n, count)),
    }
}
