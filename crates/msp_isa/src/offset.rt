//! How far a jump goes.

ghost use Rattle.std.specs.Prelude.{◌≡◌, ℕ, ◌<◌, ◌≤ℤ◌, ◌<ℤ◌, pos, negsuc};
ghost use Rattle.msp_isa.specs.Offset.{signed_offset};

use std::marker::Model;

/// How far a jump goes: a signed number of words from -512 to 511, counted from the next instruction.
/// Contracts see the ten bits that the instruction holds.
#[derive(Clone, Copy, PartialEq, Eq, Debug)]
pub struct Offset(u16);

impl Model for Offset {
    ghost Value = { ℕ };

    ghost view = { λ o. o.0 };

    ghost invariant = { λ o. o.0 < 0x400 };

    ghost inverse = { λ n. record { 0 = n } };
}

impl Offset {
    /// The offset of this many words.
    pub fn from_words(words: i16) -> Offset
        requires low { negsuc 511 ≤ℤ words }
        requires high { words <ℤ pos 512 }
        ensures { signed_offset result ≡ words }
    {
        if words < 0 {
            Offset((words + 0x400) as u16)
        } else {
            Offset(words as u16)
        }
    }

    /// The number of words, from -512 to 511.
    pub fn words(self) -> i16
        ensures value { result ≡ signed_offset self }
        ensures low { negsuc 511 ≤ℤ result }
        ensures high { result <ℤ pos 512 }
    {
        if self.0 < 0x200 {
            self.0 as i16
        } else {
            self.0 as i16 - 0x400
        }
    }

    /// The offset of the ten low bits of a jump.
    pub fn from_bits(bits: u16) -> Offset
        requires { bits < 0x400 }
        ensures { result ≡ bits }
    {
        Offset(bits)
    }

    /// The ten bits, below 0x400.
    pub fn bits(self) -> u16
        ensures value { result ≡ self }
        ensures below { self < 0x400 }
    {
        self.0
    }
}
