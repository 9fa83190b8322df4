//! Draws, one after another.
ghost use Rattle.std.specs.Prelude.{◌≡◌};
ghost use Rattle.source_generator.specs.Draws.{next, drawn, behind};

/// A linear congruential generator modulo 2^32, of which each draw gives the upper 16 bits.
#[derive(Clone, Copy)]
pub struct Generator {
    state: u32,
}

impl Generator {
    ghost use Rattle.std.specs.Prelude.{◌≡◌};
    ghost use Rattle.source_generator.specs.Draws.{next, drawn, behind};

    /// A generator that starts at this number.
    pub fn new(number: u32) -> Generator
        ensures { result.state ≡ number }
    {
        Generator { state: number }
    }

    /// The next draw.
    pub fn draw(&mut self) -> u16
        ensures value { result ≡ drawn self.old.state }
        ensures state { self.new.state ≡ next self.old.state }
    {
        self.state = self.state.wrapping_mul(1664525).wrapping_add(1013904223);
        (self.state / 65536) as u16
    }

    /// Goes past so many draws.
    pub fn skip(&mut self, count: u32)
        ensures { self.new.state ≡ behind count self.old.state }
    {
        for _draw in 0..count {
            self.draw();
        }
    }
}
