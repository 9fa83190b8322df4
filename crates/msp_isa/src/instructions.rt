//! The 27 instructions.

ghost use Rattle.std.specs.Prelude.{◌≡◌, ℕ, ◌<◌, ◌≤◌, length};
ghost use Rattle.msp_isa.specs.Encoding.{opcode, condition_number, encoding};

use crate::offset::Offset;
use crate::operands::{Dst, Operand, Src};
use alp_words::Width;

/// An operation of two operands (format I).
#[derive(Clone, Copy, PartialEq, Eq, Debug)]
pub enum TwoOp {
    Mov,
    Add,
    Addc,
    Subc,
    Sub,
    Cmp,
    Dadd,
    Bit,
    Bic,
    Bis,
    Xor,
    And,
}

/// An operation of one operand (format II) with its operand. The first four write their result back to the operand, so they
/// take no immediate and no constant.
#[derive(Clone, Copy, PartialEq, Eq, Debug)]
pub enum OneOp {
    Rrc(Width, Operand),
    Swpb(Operand),
    Rra(Width, Operand),
    Sxt(Operand),
    Push(Width, Src),
    Call(Src),
}

/// When a jump is taken.
#[derive(Clone, Copy, PartialEq, Eq, Debug)]
pub enum Condition {
    /// JNE: Z is 0.
    NotEqual,
    /// JEQ: Z is 1.
    Equal,
    /// JNC: C is 0.
    NoCarry,
    /// JC: C is 1.
    Carry,
    /// JN: N is 1.
    Negative,
    /// JGE: N equals V.
    GreaterOrEqual,
    /// JL: N differs from V.
    Less,
    /// JMP.
    Always,
}

/// An instruction.
#[derive(Clone, Copy, PartialEq, Eq, Debug)]
pub enum Instr {
    Two {
        op: TwoOp,
        width: Width,
        src: Src,
        dst: Dst,
    },
    One(OneOp),
    Jump {
        condition: Condition,
        offset: Offset,
    },
    /// Return from interrupt.
    Reti,
}

/// The operations of two operands, by their opcodes from 4 on.
static OPERATIONS: [TwoOp; 12] = [
    TwoOp::Mov,
    TwoOp::Add,
    TwoOp::Addc,
    TwoOp::Subc,
    TwoOp::Sub,
    TwoOp::Cmp,
    TwoOp::Dadd,
    TwoOp::Bit,
    TwoOp::Bic,
    TwoOp::Bis,
    TwoOp::Xor,
    TwoOp::And,
];

/// The conditions, by number.
static CONDITIONS: [Condition; 8] = [
    Condition::NotEqual,
    Condition::Equal,
    Condition::NoCarry,
    Condition::Carry,
    Condition::Negative,
    Condition::GreaterOrEqual,
    Condition::Less,
    Condition::Always,
];

impl TwoOp {
    /// Bits 15 to 12 of the first word, 4 to 15.
    pub fn opcode(self) -> u16
        ensures value { result ≡ opcode self }
        ensures low { 4 ≤ result }
        ensures below { result < 16 }
    {
        match self {
            TwoOp::Mov => 4,
            TwoOp::Add => 5,
            TwoOp::Addc => 6,
            TwoOp::Subc => 7,
            TwoOp::Sub => 8,
            TwoOp::Cmp => 9,
            TwoOp::Dadd => 10,
            TwoOp::Bit => 11,
            TwoOp::Bic => 12,
            TwoOp::Bis => 13,
            TwoOp::Xor => 14,
            TwoOp::And => 15,
        }
    }

    /// The operation of this opcode.
    #[inline(always)]
    pub fn from_opcode(n: u16) -> TwoOp
        requires low { 4 ≤ n }
        requires below { n < 16 }
        ensures found { opcode result ≡ n }
        ensures only { (op : TwoOp) → opcode op ≡ n → result ≡ op }
    {
        OPERATIONS[usize::from(n - 4)]
    }
}

impl Condition {
    /// Bits 12 to 10 of a jump, 0 to 7.
    pub fn number(self) -> u16
        ensures value { result ≡ condition_number self }
        ensures below { result < 8 }
    {
        match self {
            Condition::NotEqual => 0,
            Condition::Equal => 1,
            Condition::NoCarry => 2,
            Condition::Carry => 3,
            Condition::Negative => 4,
            Condition::GreaterOrEqual => 5,
            Condition::Less => 6,
            Condition::Always => 7,
        }
    }

    /// The condition of this number.
    #[inline(always)]
    pub fn from_number(n: u16) -> Condition
        requires { n < 8 }
        ensures found { condition_number result ≡ n }
        ensures only { (c : Condition) → condition_number c ≡ n → result ≡ c }
    {
        CONDITIONS[usize::from(n)]
    }
}

impl Instr {
    /// How many words the instruction has: 1 to 3.
    #[inline(always)]
    pub fn words(&self) -> usize
        ensures value { result ≡ length (encoding self.now) }
        ensures low { 1 ≤ result }
        ensures below { result < 4 }
    {
        match *self {
            Instr::Two {
                op: _,
                width: _,
                src,
                dst,
            } => 1 + src.words() + dst.words(),
            Instr::One(OneOp::Rrc(_, o) | OneOp::Swpb(o) | OneOp::Rra(_, o) | OneOp::Sxt(o)) => 1
                + o.words(),
            Instr::One(OneOp::Push(_, s) | OneOp::Call(s)) => 1 + s.words(),
            Instr::Jump {
                condition: _,
                offset: _,
            }
            | Instr::Reti => 1,
        }
    }
}
