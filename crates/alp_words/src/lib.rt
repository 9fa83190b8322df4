//! Words and bytes of the MSP430 CPU: the operations on them, the flags that these leave, and the bytes of a word in memory.
#![tactic(auto)]

ghost use Rattle.std.specs.Prelude.{◌≡◌};
ghost use Rattle.alp_words.specs.Words.{modulus, sign_weight, operand, is_negative};

mod bits;
mod bytes;
pub mod laws;
mod numbers;
mod sums;

pub use bits::{and, rra, rrc, swpb, sxt, xor};
pub use bytes::{from_bytes, to_bytes};
pub use numbers::{div16, less_signed, mul16, rem16, sar16, shl16, shr16};
pub use sums::{add, dadd, sub};

/// Whether an operation works on words (16 bits) or on bytes (the low 8 bits).
#[derive(Clone, Copy, PartialEq, Eq, Debug)]
pub enum Width {
    Word,
    Byte,
}

/// The four flags of the status register that operations set: negative, zero, carry, overflow.
#[derive(Clone, Copy, PartialEq, Eq, Debug)]
pub struct Flags {
    pub n: bool,
    pub z: bool,
    pub c: bool,
    pub v: bool,
}

impl Width {
    /// The part of a word that an operation of this width sees: all of it, or its low byte.
    pub fn operand(self, w: u16) -> u16
        ensures { result ≡ operand self w }
    {
        match self {
            Width::Word => w,
            Width::Byte => w % 0x100,
        }
    }

    /// Whether the top bit of the operand is set.
    pub fn is_negative(self, w: u16) -> bool
        ensures { result ≡ is_negative self w }
    {
        match self {
            Width::Word => w >= 0x8000,
            Width::Byte => w % 0x100 >= 0x80,
        }
    }

    fn modulus(self) -> u32
        ensures { result ≡ modulus self }
    {
        match self {
            Width::Word => 0x10000,
            Width::Byte => 0x100,
        }
    }

    fn sign_weight(self) -> u16
        ensures { result ≡ sign_weight self }
    {
        match self {
            Width::Word => 0x8000,
            Width::Byte => 0x80,
        }
    }
}
