//! Why a text is no schedule.
use std::alloc::{AllocError, AllocFailed};
use thiserror::Error;

/// The first fault of a text, with its line, counted from 1.
#[derive(Clone, Copy, Debug, Error)]
pub enum ScheduleFault {
    /// The line is no line of a schedule.
    #[error("line {line} is no line of a schedule")]
    BadLine { line: u32 },
    /// With this line there are more than 65,536 entries.
    #[error("more entries than a schedule may have, at line {line}")]
    TooMany { line: u32 },
    /// Memory was refused.
    #[error("out of memory")]
    Memory,
}

impl From<AllocError> for ScheduleFault {
    ghost use Rattle.std.specs.Prelude.{◌≡◌};
    ghost use Rattle.radio_link.specs.declared.fault.ScheduleFault.TheVariants.{Memory};

    ghost from_gives = { λ _ e. e ≡ Memory };

    fn from(_error: AllocError) -> Self {
        ScheduleFault::Memory
    }
}

impl<T: Drop> From<AllocFailed<T>> for ScheduleFault {
    ghost use Rattle.std.specs.Prelude.{◌≡◌};
    ghost use Rattle.radio_link.specs.declared.fault.ScheduleFault.TheVariants.{Memory};

    ghost from_gives = { λ _ e. e ≡ Memory };

    fn from(_error: AllocFailed<T>) -> Self {
        ScheduleFault::Memory
    }
}
