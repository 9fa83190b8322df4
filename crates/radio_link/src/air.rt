//! The air between two boards.
ghost use Rattle.std.specs.Prelude.{◌≡◌, IfOk};
ghost use Rattle.radio_link.specs.Sent.{nothing_sent};

use crate::sent::Sent;
use std::alloc::{AllocError, Global};

/// A word on its way from A to B, with its number.
#[derive(Clone, Copy)]
pub struct Packet {
    pub number: u16,
    pub word: u16,
}

/// What A and what B ever sent.
#[derive(Drop)]
pub struct Air {
    /// A's packets, for B.
    pub packets: Sent<Packet>,
    /// B's acknowledgements, for A: how many words it has accepted.
    pub acknowledgements: Sent<u16>,
}

impl Air {
    /// The air in which nothing was sent yet. Takes memory for 1,000,000 of each kind, 6 MB, and no more later.
    pub fn new(alloc: Global) -> Result<Air, AllocError>
        ensures { IfOk result (λ air. air ≡ record { packets = nothing_sent; acknowledgements = nothing_sent }) }
    {
        Ok(Air {
            packets: Sent::new(alloc)?,
            acknowledgements: Sent::new(alloc)?,
        })
    }
}
