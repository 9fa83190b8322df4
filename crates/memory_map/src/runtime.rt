//! The runtime that a source is compiled for.

/// What makes a cut attempt void.
#[derive(Clone, Copy)]
pub enum Logging {
    /// The attempt works in copies, which the commit brings home; so nothing is to be put back.
    Redo,
    /// The attempt works in the shared words themselves, and lists first what stood there; a boot puts the listed words back.
    Undo,
}

/// Whom a board's words are for: a board that is alone offers them to the receiver at its ports.
#[derive(Clone, Copy)]
pub enum Role {
    Alone,
}

/// The runtime that a source is compiled for. What the start of an attempt, the commit and the words of FRAM are for is chosen by it.
#[derive(Clone, Copy)]
pub struct Runtime {
    pub logging: Logging,
    pub role: Role,
    /// Whether it takes events: it then counts those of the ring that an attempt takes.
    pub events: bool,
}
