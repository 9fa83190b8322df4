//! What becomes of the words that a run takes from EVENT.
ghost use Rattle.std.specs.Prelude.{◌≡◌, ◌+◌, ◌-◌, ◌^◌, ◌<◌, ◌≤◌, ◌++◌, Some, None};
ghost use Rattle.board_run.specs.Events.{Reads, ChangesHead, Returns, PowersUp, reads_of, return_ends};
ghost use Rattle.board_run.specs.Tally.{no_tally, tallied, tallied_all, counted, words_of, change_if};

use fram_board::Heard;

/// Whether a word is in hand, how many were accepted, and how many were lost in hand.
#[derive(Clone, Copy)]
pub struct Tally {
    pub in_hand: bool,
    pub accepted: u64,
    pub lost: u64,
}

impl Tally {
    /// Nothing was taken yet.
    pub fn new() -> Tally
        ensures { counted result ≡ no_tally }
    {
        Tally {
            in_hand: false,
            accepted: 0,
            lost: 0,
        }
    }

    // What is in hand is accepted.
    fn accept(&mut self)
        requires { words_of (counted self.old) < 2 ^ 64 }
        ensures { counted self.new ≡ tallied ChangesHead (counted self.old) }
    {
        if self.in_hand {
            self.accepted += 1;
        }
        self.in_hand = false;
    }

    /// What is in hand is lost, by a RETI or a power-up.
    pub fn lose(&mut self)
        requires { words_of (counted self.old) < 2 ^ 64 }
        ensures returned { counted self.new ≡ tallied Returns (counted self.old) }
        ensures powered { counted self.new ≡ tallied PowersUp (counted self.old) }
    {
        if self.in_hand {
            self.lost += 1;
        }
        self.in_hand = false;
    }

    // A read of EVENT took this word, if one waited there: what was in hand is lost.
    fn take(&mut self, took: Option<u16>)
        requires { words_of (counted self.old) < 2 ^ 64 }
        ensures { counted self.new ≡ tallied (Reads took) (counted self.old) }
    {
        self.lose();
        self.in_hand = took.is_some();
    }

    /// The reads of a step.
    pub fn read(&mut self, heard: Heard)
        requires { words_of (counted self.old) < 2 ^ 64 - 1 }
        ensures { counted self.new ≡ tallied_all (reads_of heard) (counted self.old) }
    {
        match heard {
            Heard::Nothing => {}
            Heard::Once(took) => self.take(took),
            Heard::Again(took) => {
                self.take(took);
                self.take(None);
            }
        }
    }

    // What ended the time of a word in hand: the reads of a step, then another word in HEAD, then a return.
    #[inline(never)]
    fn end(&mut self, heard: Heard, has_changed: bool, is_return: bool)
        requires { words_of (counted self.old) < 2 ^ 64 - 1 }
        ensures { counted self.new ≡ tallied_all (reads_of heard ++ (change_if has_changed ++ return_ends is_return)) (counted self.old) }
    {
        self.read(heard);
        if has_changed {
            self.accept();
        }
        if is_return {
            self.lose();
        }
    }

    /// A step was made: what it read, whether it left another word in HEAD, and whether it is a RETI.
    #[inline(always)]
    pub fn note(&mut self, heard: Heard, has_changed: bool, is_return: bool)
        requires { words_of (counted self.old) < 2 ^ 64 - 1 }
        ensures tally { counted self.new ≡ tallied_all (reads_of heard ++ (change_if has_changed ++ return_ends is_return)) (counted self.old) }
        ensures few { words_of (counted self.new) ≤ words_of (counted self.old) + 1 }
    {
        if self.in_hand || !matches!(heard, Heard::Nothing) {
            self.end(heard, has_changed, is_return);
        }
    }
}
