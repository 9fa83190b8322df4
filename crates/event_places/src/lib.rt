//! What stands at one place in the image of each source that takes events: the words that count them, the handler, and the ring,
//! from the end of the program up to the vector of interrupts.
#![tactic(auto)]

/// TAIL: the index of the oldest word of the ring.
pub const TAIL: u16 = 0xFF18;

/// EC: how many words of the ring the attempt has taken.
pub const EVENT_COUNT: u16 = 0xFF1A;

/// SE: TAIL as the transition leaves it.
pub const SENT_TAIL: u16 = 0xFF1C;

/// ANS: the last answer.
pub const ANSWER: u16 = 0xFF1E;

/// The handler's first instruction.
pub const HANDLER: u16 = 0xFF20;

/// HEAD: the index behind the newest word of the ring.
pub const HEAD: u16 = 0xFF6E;

/// The first slot of the ring.
pub const RING: u16 = 0xFF70;

/// How many slots the ring has.
pub const RING_SLOTS: u16 = 64;

ghost use Rattle.std.specs.Prelude.{◌≡◌};
ghost use Rattle.event_places.specs.Places.{slot_place};

/// The address of the slot of an index.
pub fn slot_of(index: u16) -> u16
    ensures place { result ≡ slot_place index }
{
    RING + 2 * (index % RING_SLOTS)
}
