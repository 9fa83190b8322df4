//! Stretches of memory.

use image_text::address_space::FRAM_END;

/// The addresses from one on, up to another.
#[derive(Clone, Copy)]
pub struct Stretch {
    pub from: u64,
    pub to: u64,
}

impl Stretch {
    ghost use Rattle.std.specs.Prelude.{◌≡◌, ◌<◌, ◌^◌, nat_le};
    ghost use Rattle.fram_state.specs.Stretch.{words_at, holds, lies_in, fits_fram};

    /// So many words from an address on.
    pub fn of_words(address: u16, words: u64) -> Stretch
        requires { words < 2 ^ 62 }
        ensures { result ≡ words_at address words }
    {
        let from = address as u64;
        Stretch {
            from,
            to: from + 2 * words,
        }
    }

    /// Whether an address is one of them.
    pub fn holds(self, address: u64) -> bool
        ensures { result ≡ holds self address }
    {
        self.from <= address && address < self.to
    }

    /// Whether all of it is in another one.
    pub fn lies_in(self, outer: Stretch) -> bool
        ensures { result ≡ lies_in self outer }
    {
        outer.from <= self.from && self.to <= outer.to
    }

    /// Whether it ends within the FRAM.
    pub fn fits_fram(self) -> bool
        ensures { result ≡ fits_fram self }
    {
        self.to <= FRAM_END as u64
    }
}
