//! The port EVENT and the events that arise there.

ghost use Rattle.std.specs.Prelude.{◌≡◌, ℕ, ◌+◌, ◌^◌, ◌<◌, ◌≤◌, length, true, false, IfOk};
ghost use Rattle.fram_board.specs.Events.{line_of_events, is_full, port_word, port_read, arising, bringing, arrived, step_counted, line_behind_step, line_behind_power_up};

use std::alloc::{AllocError, Global};
use std::marker::Model;

/// How many events arise at most, with those that are brought.
const COUNTED: u64 = 1 << 61;

/// What was read of EVENT since the last boundary between two steps.
#[derive(Clone, Copy, PartialEq, Eq, Debug)]
pub enum Heard {
    /// Nothing.
    Nothing,
    /// It was read once. This word was taken, if one waited there.
    Once(Option<u16>),
    /// It was read more than once. This is what the first read took.
    Again(Option<u16>),
}

/// The events of a run, the first of which arose, how many words were brought beside them, and the port.
#[derive(Drop)]
pub struct Events {
    port: Option<u16>,
    heard: Heard,
    events: Vec<(u32, u16)>,
    arisen: usize,
    brought: u64,
    missed: u64,
    made: u32,
    // Since the last boundary nothing was read, and no event is to come.
    is_quiet: bool,
}

impl Model for Events {
    ghost use Rattle.std.specs.Prelude.{◌≡◌, ◌≤◌, ◌+◌, ◌^◌, true, drop, length};
    ghost use Rattle.fram_board.specs.declared.events.Heard.TheVariants.{Nothing};
    ghost use Rattle.fram_board.specs.Events.{EventLine, words_in};

    ghost Value = { EventLine };

    ghost view = { λ e. record {
      port = e.port;
      heard = e.heard;
      coming = drop e.arisen e.events.items;
      arisen = e.arisen + e.brought;
      missed = e.missed;
      made = e.made;
    } };

    // No more events are lost than arose, without the one that waits.
    ghost invariant = { λ e. (e.arisen ≤ length e.events.items) × (length e.events.items ≤ 65536) × (e.brought ≤ 2 ^ 61)
        × (e.missed + words_in e.port ≤ e.arisen + e.brought)
        × (e.is_quiet ≡ true → (e.heard ≡ Nothing) × (length (drop e.arisen e.events.items) ≡ 0)) };
}

impl Events {
    /// These events, none of which arose: behind how many steps of the run each does, and its word. Fails where memory is
    /// refused.
    pub fn new(alloc: Global, events: &[(u32, u16)]) -> Result<Events, AllocError>
        requires { length events.now ≤ 65536 }
        ensures { IfOk result (λ e. e ≡ line_of_events events.now) }
    {
        Ok(Events {
            port: None,
            heard: Heard::Nothing,
            events: events.to_vec(alloc)?,
            arisen: 0,
            brought: 0,
            missed: 0,
            made: 0,
            is_quiet: false,
        })
    }

    /// Whether a word waits in the port.
    #[inline(always)]
    pub fn is_full(&self) -> bool
        ensures { result ≡ is_full self.now.port }
    {
        self.port.is_some()
    }

    /// What was read of the port since the last boundary.
    #[inline(always)]
    pub fn heard(&self) -> Heard
        ensures { result ≡ self.now.heard }
    {
        if self.is_quiet {
            return Heard::Nothing;
        }
        self.heard
    }

    /// How many events arose, and words were brought.
    pub fn arisen(&self) -> u64
        ensures { result ≡ self.now.arisen }
    {
        self.arisen as u64 + self.brought
    }

    /// How many of them were lost at the port.
    pub fn missed(&self) -> u64
        ensures value { result ≡ self.now.missed }
        ensures few { result < 2 ^ 62 }
    {
        self.missed
    }

    /// A word read at the port: the one that waits there, which is taken, or 0.
    pub fn read(&mut self) -> u16
        ensures value { result ≡ port_word self.old.port }
        ensures taken { self.new ≡ port_read self.old }
    {
        self.is_quiet = false;
        self.heard = match self.heard {
            Heard::Nothing => Heard::Once(self.port),
            Heard::Once(taken) => Heard::Again(taken),
            Heard::Again(taken) => Heard::Again(taken),
        };
        match self.port {
            Some(word) => {
                self.port = None;
                word
            }
            None => 0,
        }
    }

    /// A word is brought beside the events: it waits in the port, or is lost where that is full. Behind 2^61 of them it doesn't arise.
    pub fn bring(&mut self, word: u16)
        ensures { self.new ≡ bringing word self.old }
    {
        if self.arisen() < COUNTED {
            self.arise(word);
        }
    }

    // A word arises that was brought.
    fn arise(&mut self, word: u16)
        requires { self.old.arisen < 2 ^ 61 }
        ensures { self.new ≡ arising word self.old.coming self.old }
    {
        self.brought += 1;
        if self.port.is_some() {
            self.missed += 1;
        } else {
            self.port = Some(word);
        }
    }

    // How many events are to come.
    #[inline(always)]
    fn coming(&self) -> usize
        ensures { result ≡ length self.now.coming }
    {
        self.events.len() - self.arisen
    }

    // The next event arises, where it is due. Answers whether it did.
    fn arise_next(&mut self) -> bool
        ensures same { arrived self.new ≡ arrived self.old }
        ensures one { result ≡ true → length self.old.coming ≡ length self.new.coming + 1 }
        ensures none { result ≡ false → self.new ≡ arrived self.old }
    {
        if self.arisen == self.events.len() {
            return false;
        }
        let (steps, word) = self.events[self.arisen];
        if steps > self.made {
            return false;
        }
        self.is_quiet = false;
        self.arisen += 1;
        if self.port.is_some() {
            self.missed += 1;
        } else {
            self.port = Some(word);
        }
        true
    }

    // The events that are due arise, in order.
    #[tactic(auto, using(crate::proofs::Arrivals::none_comes))]
    fn arise_due(&mut self)
        ensures { self.new ≡ arrived self.old }
    {
        let count = self.coming();
        for i in 0..count {
            if !self.arise_next() {
                return;
            }
        }
    }

    // A step is counted, and the events that are due behind it arise.
    #[tactic(auto, using(crate::proofs::Arrivals::one_counted, crate::proofs::Arrivals::none_counted))]
    fn count_step(&mut self)
        requires { 0 < length self.old.coming }
        ensures { self.new ≡ arrived (record self.old { made = step_counted self.old.coming self.old.made }) }
    {
        if self.made < u32::MAX {
            self.made += 1;
        }
        self.arise_due();
    }

    // Whether all is quiet is looked at anew.
    fn settle(&mut self)
        ensures { self.new ≡ self.old }
    {
        self.is_quiet = match self.heard {
            Heard::Nothing => self.coming() == 0,
            Heard::Once(_) => false,
            Heard::Again(_) => false,
        };
    }

    // Behind a step that read EVENT, or as long as an event is to come.
    #[inline(never)]
    #[tactic(auto, using(crate::proofs::Arrivals::quiet_step))]
    fn step_on(&mut self)
        ensures { self.new ≡ line_behind_step self.old }
    {
        self.heard = Heard::Nothing;
        if self.coming() > 0 {
            self.count_step();
        }
        self.settle();
    }

    /// Behind a step: it is counted, and the events that are due behind it arise.
    #[inline(always)]
    #[tactic(auto, using(crate::proofs::Arrivals::quiet_line))]
    pub fn step(&mut self)
        ensures { self.new ≡ line_behind_step self.old }
    {
        if !self.is_quiet {
            self.step_on();
        }
    }

    /// Power comes back after a loss: a word in the port is lost, and the events that are due arise.
    pub fn power_up(&mut self)
        ensures { self.new ≡ line_behind_power_up self.old }
    {
        if self.port.is_some() {
            self.missed += 1;
        }
        self.port = None;
        self.heard = Heard::Nothing;
        self.arise_due();
        self.settle();
    }
}
