//! Lines as the source tells them, in memory.
ghost use Rattle.std.specs.Prelude.{◌≡◌, [], Some};

use alp_io::{Failed, Sink};
use std::alloc::{AllocError, Global};

/// A sink in memory. A write fails where memory is refused.
#[derive(Drop)]
pub struct Expected {
    pub bytes: Vec<u8>,
    faults: u64,
}

impl Expected {
    /// An empty one, which takes no memory yet.
    pub fn new(alloc: Global) -> Expected
        ensures bytes { result.bytes.items ≡ [] }
        ensures faults { result.faults ≡ 0 }
    {
        Expected {
            bytes: Vec::new(alloc),
            faults: 0,
        }
    }
}

impl Sink for Expected {
    ghost contents = { λ e. Some e.bytes.items };

    ghost faults = { λ e. e.faults };

    fn write(&mut self, piece: &[u8]) -> Result<usize, Failed> {
        match self.bytes.extend_from_slice(piece) {
            Ok(()) => Ok(piece.len()),
            Err(AllocError) => {
                self.faults = self.faults.saturating_add(1);
                Err(Failed)
            }
        }
    }
}
