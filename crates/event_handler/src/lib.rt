//! The handler of events: it takes the word that waits in the port EVENT into the ring, unless that is full, and gives the program
//! back all that it uses.
#![tactic(auto)]

mod laws;

ghost use Rattle.std.specs.Prelude.{◌≡◌};
ghost use Rattle.event_handler.specs.Handler.{handler_words};

use address_space::EVENT;
use event_places::{HEAD, RING, RING_SLOTS, TAIL};
pub use laws::{handler_begins, handler_goes_on, handler_keeps_the_rest, handler_takes_its_cycles};

/// How many words the handler has.
pub const HANDLER_LENGTH: usize = 23;

/// The handler's words, which stand from `event_places::HANDLER` on.
pub fn handler_words() -> [u16; HANDLER_LENGTH]
    ensures { result ≡ handler_words }
{
    [
        0x1204, // push r4
        0x1205, // push r5
        0x4214,
        EVENT, // mov &EVENT,r4
        0x4215,
        HEAD, // mov &HEAD,r5
        0x8215,
        TAIL, // sub &TAIL,r5
        0x9035,
        RING_SLOTS, // cmp #64,r5
        0x2409, // jeq out
        0x4215,
        HEAD, // mov &HEAD,r5
        0xF035,
        RING_SLOTS - 1, // and #63,r5
        0x5505, // add r5,r5
        0x4485,
        RING, // mov r4,ring(r5)
        0x5392,
        HEAD, // add #1,&HEAD
        0x4135, // out: mov @sp+,r5
        0x4134, // mov @sp+,r4
        0x1300, // reti
    ]
}
