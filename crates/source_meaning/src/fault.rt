//! Why a text is no accepted source.

use cost_bound::Over;
use std::alloc::AllocError;
use task_check::CheckFault;
use task_lex::LexFault;
use thiserror::Error;

/// The refusal of the first pass that refuses a text, at its first place. Want of memory
/// stands alone: no other variant holds it.
#[derive(Clone, Copy, Debug, Error)]
pub enum SourceFault {
    /// A text that isn't cut into tokens.
    #[error("{0}")]
    Lex(LexFault),
    /// Tokens that are no program; the line of the first that no program goes on with, counted from 1.
    #[error("line {line}: no program goes on like this")]
    Syntax { line: u32 },
    /// A name, a use, a loop, a path or a number of names that is refused.
    #[error("{0}")]
    Check(CheckFault),
    /// A source that costs more than it may.
    #[error("{0}")]
    Over(Over),
    #[error("out of memory")]
    Memory,
}

impl From<AllocError> for SourceFault {
    ghost use Rattle.std.specs.Prelude.{◌≡◌};
    ghost use Rattle.source_meaning.specs.declared.fault.SourceFault.TheVariants.{Memory};

    ghost from_gives = { λ _ e. e ≡ Memory };

    fn from(_: AllocError) -> Self {
        SourceFault::Memory
    }
}
