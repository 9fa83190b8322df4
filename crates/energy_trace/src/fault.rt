//! Why a text is no trace.
use std::alloc::{AllocError, AllocFailed};
use thiserror::Error;

/// The first fault of a text, with its line, counted from 1.
#[derive(Clone, Copy, Debug, Error)]
pub enum TraceFault {
    /// The line is no line of a trace, or its event arises before the one in front of it.
    #[error("line {line} is no line of a trace")]
    BadLine { line: u32 },
    /// With this line there are more than 1,000,000 charges, 262,144 readings or 65,536 events.
    #[error("more charges, readings or events than a trace may have, at line {line}")]
    TooMany { line: u32 },
    /// Memory was refused.
    #[error("out of memory")]
    Memory,
}

impl From<AllocError> for TraceFault {
    ghost use Rattle.std.specs.Prelude.{◌≡◌};
    ghost use Rattle.energy_trace.specs.declared.fault.TraceFault.TheVariants.{Memory};

    ghost from_gives = { λ _ e. e ≡ Memory };

    fn from(_error: AllocError) -> Self {
        TraceFault::Memory
    }
}

impl<T: Drop> From<AllocFailed<T>> for TraceFault {
    ghost use Rattle.std.specs.Prelude.{◌≡◌};
    ghost use Rattle.energy_trace.specs.declared.fault.TraceFault.TheVariants.{Memory};

    ghost from_gives = { λ _ e. e ≡ Memory };

    fn from(_error: AllocFailed<T>) -> Self {
        TraceFault::Memory
    }
}
