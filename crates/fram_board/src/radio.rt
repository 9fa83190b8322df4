//! The radio of a board.

ghost use Rattle.std.specs.Prelude.{◌≡◌};
ghost use Rattle.fram_board.specs.Radio.{radio_word, radio_powered, acknowledged, packet_heard};

use msp_step::Refused;
use state_text::address_space::{ACKS, EVNUM};

/// What a board has of a radio.
#[derive(Clone, Copy)]
pub enum Radio {
    /// None.
    Alone,
    /// It sends words, and hears acknowledgements: the greatest one that was brought since power came back, or 0.
    Sends(u16),
    /// It hears packets, and sends acknowledgements: the number of the packet that took the port EVENT last, or 0.
    Listens(u16),
}

impl Radio {
    /// A word read at a port of the radio, where a packet waits in EVENT or none does. Refuses another address.
    pub fn read(self, waits: bool, address: u16) -> Result<u16, Refused>
        ensures { result ≡ radio_word self waits address }
    {
        match self {
            Radio::Sends(greatest) if address == ACKS => Ok(greatest),
            Radio::Listens(number) if address == EVNUM => Ok(if waits { number } else { 0 }),
            _ => Err(Refused::Bus),
        }
    }

    /// The radio as power comes back.
    pub fn powered(self) -> Radio
        ensures { result ≡ radio_powered self }
    {
        match self {
            Radio::Alone => Radio::Alone,
            Radio::Sends(_) => Radio::Sends(0),
            Radio::Listens(_) => Radio::Listens(0),
        }
    }

    /// The radio once this acknowledgement is brought.
    pub fn acknowledged(self, number: u16) -> Radio
        ensures { result ≡ acknowledged number self }
    {
        match self {
            Radio::Sends(greatest) if greatest < number => Radio::Sends(number),
            radio => radio,
        }
    }

    /// The radio once a packet with this number is brought, where one waits in EVENT or none does.
    pub fn with_packet(self, number: u16, waits: bool) -> Radio
        ensures { result ≡ packet_heard number waits self }
    {
        match self {
            Radio::Listens(_) if !waits => Radio::Listens(number),
            radio => radio,
        }
    }
}
