//! Why a text is no image.
use image_map::MapFault;
use std::alloc::{AllocError, AllocFailed};
use thiserror::Error;

/// The first fault of a text, with its line, counted from 1.
#[derive(Clone, Copy, Debug, Error)]
pub enum ImageFault {
    /// The line is no line of an image, its bytes come before any address, or the text ended without `q`.
    #[error("line {line} is no line of an image")]
    BadLine { line: u32 },
    /// The line gives a byte outside the FRAM, which is 0x4400 to 0xFFFF.
    #[error("a byte outside the FRAM, at line {line}")]
    OutsideFram { line: u32 },
    /// The line gives a byte that an earlier line gave.
    #[error("a byte given twice, at line {line}")]
    Twice { line: u32 },
    /// A byte of the reset vector at 0xFFFE isn't given.
    #[error("no reset vector")]
    NoReset,
    /// Lines behind `q` aren't all blank, and with this one they break the form of the map or one of its rules.
    #[error("line {line} breaks the form of the map")]
    BadMap { line: u32 },
    /// Memory was refused.
    #[error("out of memory")]
    Memory,
}

impl From<AllocError> for ImageFault {
    ghost use Rattle.std.specs.Prelude.{◌≡◌};
    ghost use Rattle.image_text.specs.declared.fault.ImageFault.TheVariants.{Memory};

    ghost from_gives = { λ _ e. e ≡ Memory };

    fn from(_error: AllocError) -> Self {
        ImageFault::Memory
    }
}

impl<T: Drop> From<AllocFailed<T>> for ImageFault {
    ghost use Rattle.std.specs.Prelude.{◌≡◌};
    ghost use Rattle.image_text.specs.declared.fault.ImageFault.TheVariants.{Memory};

    ghost from_gives = { λ _ e. e ≡ Memory };

    fn from(_error: AllocFailed<T>) -> Self {
        ImageFault::Memory
    }
}

impl From<MapFault> for ImageFault {
    ghost use Rattle.std.specs.Prelude.{◌≡◌};
    ghost use Rattle.image_text.specs.Faults.{image_fault};

    ghost from_gives = { λ f e. e ≡ image_fault f };

    fn from(fault: MapFault) -> Self {
        match fault {
            MapFault::BadMap { line } => ImageFault::BadMap { line },
            MapFault::Memory => ImageFault::Memory,
        }
    }
}
