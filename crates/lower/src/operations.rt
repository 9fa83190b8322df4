//! The operations on words that the operators of a source stand for.
ghost use Rattle.std.specs.Prelude.{◌≡◌, if◌then◌else◌};
ghost use Rattle.array_versions.specs.declared.operations.BinaryOperation.TheVariants as binary_op;
ghost use Rattle.lower.specs.declared.operations.BinaryMeaning.TheVariants as Meaning;
ghost use Rattle.task_ast.specs.Types.{is_long};
ghost use Rattle.task_ast.specs.declared.WordType.TheVariants.{Unsigned};
ghost use Rattle.lower.specs.Operations.{below, above, binary_meaning, plain_operation, shift_operation, operand_type, long_meaning, long_shift};

use array_versions::{BinaryOperation, Comparison, LongOperation, PlainOperation, ShiftOperation};
use task_ast::{BinaryOperator, ShiftOperator, WordType};

/// What an operator gives of the words of its two sides.
#[derive(Clone, Copy)]
pub enum BinaryMeaning {
    /// What an operation gives.
    Calculates(BinaryOperation),
    /// The bits that are 1 in both.
    CommonBits,
    /// 1 where a comparison holds, else 0.
    Holds(Comparison),
    /// 0 where a comparison holds, else 1.
    Fails(Comparison),
}

// Whether one word is below another, by their joined type: as signed words where both are ints.
fn below(word_type: WordType) -> Comparison
    ensures { result ≡ below word_type }
{
    match word_type {
        WordType::Int => Comparison::SignedBelow,
        WordType::Unsigned | WordType::Long => Comparison::Below,
    }
}

// The same of above.
fn above(word_type: WordType) -> Comparison
    ensures { result ≡ above word_type }
{
    match word_type {
        WordType::Int => Comparison::SignedAbove,
        WordType::Unsigned | WordType::Long => Comparison::Above,
    }
}

// What an operation of one instruction gives.
fn calculates(operation: PlainOperation) -> BinaryMeaning
    ensures { result ≡ Meaning.Calculates (binary_op.Plain operation) }
{
    BinaryMeaning::Calculates(BinaryOperation::Plain(operation))
}

/// What an operator gives of two words of this joined type.
pub fn binary_meaning(op: BinaryOperator, word_type: WordType) -> BinaryMeaning
    ensures { result ≡ binary_meaning op word_type }
{
    match op {
        BinaryOperator::Multiply => BinaryMeaning::Calculates(BinaryOperation::Multiply),
        BinaryOperator::Divide => BinaryMeaning::Calculates(BinaryOperation::Divide),
        BinaryOperator::Remainder => BinaryMeaning::Calculates(BinaryOperation::Remainder),
        BinaryOperator::Add => calculates(PlainOperation::Add),
        BinaryOperator::Subtract => calculates(PlainOperation::Subtract),
        BinaryOperator::Less => BinaryMeaning::Holds(below(word_type)),
        BinaryOperator::LessEqual => BinaryMeaning::Fails(above(word_type)),
        BinaryOperator::Greater => BinaryMeaning::Holds(above(word_type)),
        BinaryOperator::GreaterEqual => BinaryMeaning::Fails(below(word_type)),
        BinaryOperator::Equal => BinaryMeaning::Holds(Comparison::Equal),
        BinaryOperator::NotEqual => BinaryMeaning::Fails(Comparison::Equal),
        BinaryOperator::And => BinaryMeaning::CommonBits,
        BinaryOperator::Xor => calculates(PlainOperation::Xor),
        BinaryOperator::Or => calculates(PlainOperation::Or),
    }
}

/// The operation that is one instruction, of an operator that has one.
pub fn plain_operation(op: BinaryOperator) -> Option<PlainOperation>
    ensures { result ≡ plain_operation op }
{
    match op {
        BinaryOperator::Add => Some(PlainOperation::Add),
        BinaryOperator::Subtract => Some(PlainOperation::Subtract),
        BinaryOperator::And => Some(PlainOperation::And),
        BinaryOperator::Xor => Some(PlainOperation::Xor),
        BinaryOperator::Or => Some(PlainOperation::Or),
        _ => None,
    }
}

/// The shift of a word of this type: to the right it copies the sign of an int.
pub fn shift_operation(op: ShiftOperator, word_type: WordType) -> ShiftOperation
    ensures { result ≡ shift_operation op word_type }
{
    match (op, word_type) {
        (ShiftOperator::Left, _) => ShiftOperation::Left,
        (ShiftOperator::Right, WordType::Unsigned | WordType::Long) => ShiftOperation::Right,
        (ShiftOperator::Right, WordType::Int) => ShiftOperation::SignedRight,
    }
}

/// What an operator asks of two longs.
#[derive(Clone, Copy)]
pub enum LongQuestion {
    /// Whether the left one is below the right one.
    Below,
    /// Whether the left one is above the right one.
    Above,
    /// Whether they differ.
    Differ,
}

/// What an operator gives of the longs of its two sides.
#[derive(Clone, Copy)]
pub enum LongMeaning {
    /// What an operation gives.
    Calculates(PlainOperation),
    /// 1 where a question's answer is yes, else 0.
    Holds(LongQuestion),
    /// 0 where a question's answer is yes, else 1.
    Fails(LongQuestion),
}

// The type, or unsigned in place of long.
fn of_one_word(word_type: WordType) -> WordType
    ensures { result ≡ if is_long word_type then Unsigned else word_type }
{
    match word_type {
        WordType::Long => WordType::Unsigned,
        WordType::Int | WordType::Unsigned => word_type,
    }
}

/// The type of the two operands that an operator takes, by their joined type: low words, where the checks refuse longs.
pub fn operand_type(op: BinaryOperator, joined: WordType) -> WordType
    ensures { result ≡ operand_type op joined }
{
    match op {
        BinaryOperator::Multiply | BinaryOperator::Divide | BinaryOperator::Remainder =>
            of_one_word(joined),
        _ => joined,
    }
}

/// What an operator gives of two longs. `*`, `/` and `%` take none, and a sum stands for them here.
pub fn long_meaning(op: BinaryOperator) -> LongMeaning
    ensures { result ≡ long_meaning op }
{
    match op {
        BinaryOperator::Subtract => LongMeaning::Calculates(PlainOperation::Subtract),
        BinaryOperator::And => LongMeaning::Calculates(PlainOperation::And),
        BinaryOperator::Xor => LongMeaning::Calculates(PlainOperation::Xor),
        BinaryOperator::Or => LongMeaning::Calculates(PlainOperation::Or),
        BinaryOperator::Less => LongMeaning::Holds(LongQuestion::Below),
        BinaryOperator::LessEqual => LongMeaning::Fails(LongQuestion::Above),
        BinaryOperator::Greater => LongMeaning::Holds(LongQuestion::Above),
        BinaryOperator::GreaterEqual => LongMeaning::Fails(LongQuestion::Below),
        BinaryOperator::Equal => LongMeaning::Fails(LongQuestion::Differ),
        BinaryOperator::NotEqual => LongMeaning::Holds(LongQuestion::Differ),
        BinaryOperator::Add
        | BinaryOperator::Multiply
        | BinaryOperator::Divide
        | BinaryOperator::Remainder => LongMeaning::Calculates(PlainOperation::Add),
    }
}

/// The shift of a long by a count of bits.
pub fn long_shift(op: ShiftOperator, count: u16) -> LongOperation
    ensures { result ≡ long_shift op count }
{
    match op {
        ShiftOperator::Left => LongOperation::ShiftLeft(count),
        ShiftOperator::Right => LongOperation::ShiftRight(count),
    }
}
