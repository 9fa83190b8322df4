//! The receiver of offered words.

ghost use Rattle.std.specs.Prelude.{◌≡◌, ◌+◌, ◌-◌, ◌^◌, ◌<◌, Some};
ghost use Rattle.fram_board.specs.Board.{next_number, offered_to, accepted_word};

/// The number that it took first, how many words it accepted, and how many repeats it counted. All of them outlive power loss.
#[derive(Clone, Copy)]
pub struct Receiver {
    pub first: u16,
    pub accepted: u64,
    pub repeats: u64,
}

impl Receiver {
    /// The number of the word that it takes next.
    pub fn next_number(self) -> u16
        ensures { result ≡ next_number self }
    {
        ((u64::from(self.first) + self.accepted % 0x10000) % 0x10000) as u16
    }

    /// Offers a word with its number. It is accepted, and answered, where the number is the one that the receiver takes
    /// next; else it counts as a repeat.
    pub fn offer(&mut self, number: u16, word: u16) -> Option<u16>
        requires accepted { self.old.accepted < 2 ^ 64 - 1 }
        requires repeats { self.old.repeats < 2 ^ 64 - 1 }
        ensures counts { self.new ≡ offered_to number self.old }
        ensures word { result ≡ accepted_word number (Some word) self.old }
    {
        if number == self.next_number() {
            self.accepted += 1;
            Some(word)
        } else {
            self.repeats += 1;
            None
        }
    }
}
