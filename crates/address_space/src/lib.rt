//! The board's address space: where RAM and FRAM begin and end, the words of the FRAM, and the ports.
#![tactic(auto)]

/// The port at which a word read is a reading of the sensor.
pub const SENSOR: u16 = 0x200;

/// The port that keeps the number of the word that is offered next.
pub const OUTNUM: u16 = 0x202;

/// The port at which a word written is offered to the receiver.
pub const OUTDATA: u16 = 0x204;

/// The port at which a word read is the event that waits in it, or 0 where none does.
pub const EVENT: u16 = 0x206;

/// The port at which a board that sends over a radio reads the greatest acknowledgement that was brought since its power came back, or 0.
pub const ACKS: u16 = 0x208;

/// The port at which a board that listens to a radio reads the number of the packet that waits in the port EVENT, or 0 where none does.
pub const EVNUM: u16 = 0x20A;

/// The port at which such a board sends an acknowledgement: a word written is its number.
pub const ACKOUT: u16 = 0x20C;

/// The first word of RAM.
pub const RAM_FIRST: u16 = 0x1C00;

/// The address behind the last word of RAM.
pub const RAM_END: u16 = 0x2400;

/// SP where nothing is on the stack: behind the last word of RAM, from which PUSH goes down.
pub const STACK_TOP: u16 = RAM_END;

/// The first word of the FRAM, which goes on to the last address.
pub const FRAM_FIRST: u16 = 0x4400;

/// The address behind the last word of the FRAM.
pub const FRAM_END: u32 = 0x10000;

/// How many words the FRAM has.
pub const FRAM_WORDS: usize = 24064;

/// The last word of the FRAM, which holds the address at which the CPU starts.
pub const RESET_VECTOR: u16 = 0xFFFE;

/// The word of the FRAM that holds the address at which the CPU goes on where it accepts an event.
pub const EVENT_VECTOR: u16 = 0xFFF0;

ghost use Rattle.std.specs.Prelude.{◌≡◌, ◌≤◌, ◌<◌};
ghost use Rattle.address_space.specs.Limits.{fram_first, fram_words, place_of};

/// Which word of the FRAM an address belongs to, counted from 0.
#[inline(always)]
pub fn fram_index(address: u16) -> usize
    requires { fram_first ≤ address }
    ensures place { result ≡ place_of address }
    ensures inside { result < fram_words }
{
    usize::from((address - FRAM_FIRST) / 2)
}
