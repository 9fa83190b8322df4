//! The operations on words.

/// An operation on the top of the stack.
#[derive(Clone, Copy)]
pub enum UnaryOperation {
    /// The difference from 0, modulo 65536.
    Negate,
    /// Each bit turned.
    Complement,
}

/// An operation on two words that the machine has an instruction for. Sums and differences are taken modulo 65536.
#[derive(Clone, Copy)]
pub enum PlainOperation {
    Add,
    Subtract,
    And,
    Xor,
    Or,
}

/// An operation on the two words on top of the stack, the right side being the top. Products are taken modulo 65536.
#[derive(Clone, Copy)]
pub enum BinaryOperation {
    Multiply,
    /// The unsigned quotient; 65535 where the right side is 0.
    Divide,
    /// The unsigned remainder; the left side where the right side is 0.
    Remainder,
    Plain(PlainOperation),
}

/// A comparison of the two words on top of the stack, the right side being the top.
#[derive(Clone, Copy)]
pub enum Comparison {
    Equal,
    Below,
    Above,
    SignedBelow,
    SignedAbove,
    /// Some bit is 1 in both.
    CommonBit,
}

/// An operation with longs, which are numbers below 2^32. On the stack a long is two words, the high one on top.
#[derive(Clone, Copy)]
pub enum LongOperation {
    /// An operation on the two longs on top of the stack, the right side being the top. Sums and differences are taken modulo 2^32.
    Calculate(PlainOperation),
    /// Of the two longs on top of the stack, the right side being the top: 65535 where the left one is below it, else 0.
    Below,
    /// 65535 where the left one is above it, else 0.
    Above,
    /// A shift of the long on top of the stack by a number of bits; by more than 31 it gives 0.
    ShiftLeft(u16),
    /// The same to the right; zeros come in.
    ShiftRight(u16),
    /// Each bit of the long on top of the stack turned.
    Complement,
    /// The int on top of the stack as a long: its sign is copied into the high word.
    Widen,
    /// The two words on top of the stack as a long, the high one on top.
    Join,
    /// The low word of the long on top of the stack.
    LowWord,
    /// The high word of the long on top of the stack.
    HighWord,
}

/// A shift of the top of the stack by a number of bits; by more than 15 it gives 0.
#[derive(Clone, Copy)]
pub enum ShiftOperation {
    Left,
    /// Zeros come in.
    Right,
    /// Copies of the top bit come in.
    SignedRight,
}
