//! What a schedule has done, one thing after the other.

/// One thing that a schedule has done.
#[derive(Clone, Copy)]
pub enum Entry {
    /// So many steps of board A.
    StepsOfA(u32),
    /// So many steps of board B.
    StepsOfB(u32),
    /// The packet of this place, counted from 0 in the order of sending, is brought to B.
    BringPacket(u32),
    /// The acknowledgement of this place, counted likewise, is brought to A.
    BringAcknowledgement(u32),
    /// So many rounds: a step of A, one of B, then the newest packet and the newest acknowledgement, each where nothing brought it yet.
    Rounds(u32),
}
