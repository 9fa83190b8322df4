//! Why a text has no tokens.

ghost use Rattle.std.specs.Prelude.{◌≡◌};
ghost use Rattle.task_lex.specs.Faults as spec;

use std::alloc::{AllocError, AllocFailed};
use thiserror::Error;

/// The first fault of a text, with its line from 1; or want of memory.
#[derive(Clone, Copy, Debug, Error)]
pub enum LexFault {
    /// A byte that begins no token.
    #[error("line {line}: a byte that begins no token")]
    BadByte { line: u32 },
    /// A number above 65535, with a zero in front of a decimal digit, without a digit after `0x`, or with a letter or
    /// `_` at its end.
    #[error("line {line}: not a number to 65535")]
    BadNumber { line: u32 },
    /// A name of more than 31 bytes.
    #[error("line {line}: a name of more than 31 bytes")]
    BadName { line: u32 },
    /// The 65th open bracket.
    #[error("line {line}: more than 64 open brackets")]
    TooDeep { line: u32 },
    /// The 257th token in a row none of which is `;`, `{` or `}`.
    #[error("line {line}: more than 256 tokens without `;`, `{{` or `}}`")]
    TooWide { line: u32 },
    #[error("out of memory")]
    Memory,
}

impl From<AllocError> for LexFault {
    ghost use Rattle.task_lex.specs.declared.fault.LexFault.TheVariants.{Memory};

    ghost from_gives = { λ _ e. e ≡ Memory };

    fn from(_: AllocError) -> Self {
        LexFault::Memory
    }
}

impl<T: Drop> From<AllocFailed<T>> for LexFault {
    ghost use Rattle.task_lex.specs.declared.fault.LexFault.TheVariants.{Memory};

    ghost from_gives = { λ _ e. e ≡ Memory };

    fn from(_: AllocFailed<T>) -> Self {
        LexFault::Memory
    }
}

/// What is wrong at a place, in the order in which it is looked for.
#[derive(Clone, Copy)]
pub enum Flaw {
    BadByte,
    BadNumber,
    BadName,
    TooDeep,
    TooWide,
}

/// The fault of a flaw on a line.
pub fn fault_of(flaw: Flaw, line: u32) -> LexFault
    ensures { result ≡ spec.fault_of flaw line }
{
    match flaw {
        Flaw::BadByte => LexFault::BadByte { line },
        Flaw::BadNumber => LexFault::BadNumber { line },
        Flaw::BadName => LexFault::BadName { line },
        Flaw::TooDeep => LexFault::TooDeep { line },
        Flaw::TooWide => LexFault::TooWide { line },
    }
}
