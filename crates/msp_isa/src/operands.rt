//! The operands of an instruction, by addressing mode.

ghost use Rattle.std.specs.Prelude.{◌≡◌, ℕ, ◌<◌, length};
ghost use Rattle.msp_isa.specs.Constant.{constant_value};
ghost use Rattle.msp_isa.specs.Encoding.{operand_row, source_row, destination_row};

use crate::registers::{IndexRegister, IndirectRegister, Reg, SourceRegister};

/// A value of the constant generators R2 and R3: 0, 1, 2, 4, 8 or 0xFFFF. It takes no extension word.
#[derive(Clone, Copy, PartialEq, Eq, Debug)]
pub enum Konst {
    Zero,
    One,
    Two,
    Four,
    Eight,
    MinusOne,
}

/// An operand in a register or in memory.
#[derive(Clone, Copy, PartialEq, Eq, Debug)]
pub enum Operand {
    /// `Rn`: the register.
    Reg(SourceRegister),
    /// `X(Rn)`: the memory at the register's word plus X.
    Indexed(IndexRegister, u16),
    /// `ADDR`: the memory at the address of the extension word plus that word.
    Symbolic(u16),
    /// `&ADDR`: the memory at the extension word.
    Absolute(u16),
    /// `@Rn`: the memory at the register's word.
    Indirect(IndirectRegister),
    /// `@Rn+`: the memory at the register's word, which then goes up.
    Increment(IndexRegister),
}

/// A source operand.
#[derive(Clone, Copy, PartialEq, Eq, Debug)]
pub enum Src {
    Operand(Operand),
    /// `#N`: the extension word.
    Immediate(u16),
    /// A number that the constant generators give.
    Constant(Konst),
}

/// A destination operand; its modes are four of those of `Operand`, and R3 is a register here.
#[derive(Clone, Copy, PartialEq, Eq, Debug)]
pub enum Dst {
    Reg(Reg),
    Indexed(IndexRegister, u16),
    Symbolic(u16),
    Absolute(u16),
}

impl Konst {
    /// The word that the constant stands for.
    pub fn value(self) -> u16
        ensures { result ≡ constant_value self }
    {
        match self {
            Konst::Zero => 0,
            Konst::One => 1,
            Konst::Two => 2,
            Konst::Four => 4,
            Konst::Eight => 8,
            Konst::MinusOne => 0xffff,
        }
    }
}

impl Operand {
    /// How many extension words the operand takes: 0 or 1.
    #[inline(always)]
    pub fn words(self) -> usize
        ensures value { result ≡ length (operand_row self).extension }
        ensures below { result < 2 }
    {
        match self {
            Operand::Indexed(_, _) | Operand::Symbolic(_) | Operand::Absolute(_) => 1,
            Operand::Reg(_) | Operand::Indirect(_) | Operand::Increment(_) => 0,
        }
    }
}

impl Src {
    /// How many extension words the operand takes: 0 or 1.
    #[inline(always)]
    pub fn words(self) -> usize
        ensures value { result ≡ length (source_row self).extension }
        ensures below { result < 2 }
    {
        match self {
            Src::Operand(o) => o.words(),
            Src::Immediate(_) => 1,
            Src::Constant(_) => 0,
        }
    }
}

impl Dst {
    /// How many extension words the operand takes: 0 or 1.
    #[inline(always)]
    pub fn words(self) -> usize
        ensures value { result ≡ length (destination_row self).extension }
        ensures below { result < 2 }
    {
        match self {
            Dst::Reg(_) => 0,
            Dst::Indexed(_, _) | Dst::Symbolic(_) | Dst::Absolute(_) => 1,
        }
    }
}
