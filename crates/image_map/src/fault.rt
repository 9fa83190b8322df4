//! Why lines are no map.
use std::alloc::{AllocError, AllocFailed};
use thiserror::Error;

/// The first fault of a map's lines.
#[derive(Clone, Copy, Debug, Error)]
pub enum MapFault {
    /// The line breaks the form of the map or one of its rules, or the text ended before it.
    #[error("line {line} breaks the form of the map")]
    BadMap { line: u32 },
    /// Memory was refused.
    #[error("out of memory")]
    Memory,
}

impl From<AllocError> for MapFault {
    ghost use Rattle.std.specs.Prelude.{◌≡◌};
    ghost use Rattle.image_map.specs.declared.fault.MapFault.TheVariants.{Memory};

    ghost from_gives = { λ _ e. e ≡ Memory };

    fn from(_error: AllocError) -> Self {
        MapFault::Memory
    }
}

impl<T: Drop> From<AllocFailed<T>> for MapFault {
    ghost use Rattle.std.specs.Prelude.{◌≡◌};
    ghost use Rattle.image_map.specs.declared.fault.MapFault.TheVariants.{Memory};

    ghost from_gives = { λ _ e. e ≡ Memory };

    fn from(_error: AllocFailed<T>) -> Self {
        MapFault::Memory
    }
}
