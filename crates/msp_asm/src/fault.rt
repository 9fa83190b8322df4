//! Why a text isn't assembled.
use alp_text::Span;
use std::alloc::{AllocError, AllocFailed};
use thiserror::Error;

/// The first fault of a text, with its line, counted from 1. Within a line they come in the order of this list.
#[derive(Clone, Copy, Debug, Error)]
pub enum AsmFault {
    /// The line is no line of an assembler text.
    #[error("line {line} is no line of an assembler text")]
    BadLine { line: u32 },
    /// The line's label stands in an earlier line too.
    #[error("a label that stands before, at line {line}")]
    RepeatedName { line: u32, name: Span },
    /// A label that the line names stands nowhere.
    #[error("a label that stands nowhere, at line {line}")]
    UnknownName { line: u32, name: Span },
    /// A number below -32768 or above 65535.
    #[error("a number out of range, at line {line}")]
    OutOfRange { line: u32 },
    /// No offset from -512 to 511 gives the jump's target.
    #[error("a jump too far, at line {line}")]
    JumpTooFar { line: u32 },
    /// An `.org` to an odd address or outside the FRAM, or a word outside it.
    #[error("outside the FRAM, at line {line}")]
    Outside { line: u32 },
    /// A word at an address at which an earlier one stands.
    #[error("a word at an address that is used, at line {line}")]
    Overlap { line: u32 },
    /// Memory was refused.
    #[error("out of memory")]
    Memory,
}

impl From<AllocError> for AsmFault {
    ghost use Rattle.std.specs.Prelude.{◌≡◌};
    ghost use Rattle.msp_asm.specs.declared.fault.AsmFault.TheVariants.{Memory};

    ghost from_gives = { λ _ e. e ≡ Memory };

    fn from(_error: AllocError) -> Self {
        AsmFault::Memory
    }
}

impl<T: Drop> From<AllocFailed<T>> for AsmFault {
    ghost use Rattle.std.specs.Prelude.{◌≡◌};
    ghost use Rattle.msp_asm.specs.declared.fault.AsmFault.TheVariants.{Memory};

    ghost from_gives = { λ _ e. e ≡ Memory };

    fn from(_error: AllocFailed<T>) -> Self {
        AsmFault::Memory
    }
}
