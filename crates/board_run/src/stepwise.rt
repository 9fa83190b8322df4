//! A run that is made step by step.
ghost use Rattle.std.specs.Prelude.{◌≡◌, IfSome, option_map};
ghost use Rattle.image_text.specs.image_map.MapValue.{IsFramWord};
ghost use Rattle.board_run.specs.Stepwise.{ring_of};

use crate::seen::Seen;
use crate::spend::{Turn, take_turn};
use crate::state::word;
use alp_io::{Failed, Report, Sink};
use energy_trace::Charge;
use fram_board::{Board, Stepped};
use image_text::{Map, RingPlaces};

// The ring of a map, if it has one.
fn ring_of(map: Option<&Map>) -> Option<RingPlaces>
    ensures value { result ≡ ring_of (option_map (λ m. m.now) map.entry) }
    ensures fits { IfSome result (λ r. IsFramWord r.event_count) }
{
    let map = map?;
    map.rules();
    map.ring()
}

/// What a step of a run came to.
#[derive(Clone, Copy)]
pub struct Advance {
    /// What it did; nothing where the run has ended.
    pub done: Option<Stepped>,
    /// Whether power came up in front of it.
    pub powers_up: bool,
}

/// The run of a board under charges, which is made step by step, so that something may be brought to the board between two steps.
#[derive(Drop)]
pub struct StepwiseRun<'r, 'i> {
    pub(crate) board: &'r mut Board,
    pub(crate) watch: &'r mut Seen<'i>,
    /// All charges; those from `next` on haven't begun.
    pub(crate) charges: &'r [Charge],
    pub(crate) next: usize,
    /// The charge that has begun last, how often it comes again, and what is left of it.
    pub(crate) charge: Charge,
    pub(crate) again: u32,
    pub(crate) left: u32,
    pub(crate) has_ended: bool,
}

impl<'r, 'i> StepwiseRun<'r, 'i> {
    ghost use Rattle.std.specs.Prelude.{◌≡◌, ℕ, ◌+◌, ◌^◌, ◌<◌, true, false, OnOk};
    ghost use Rattle.alp_io.specs.Count.{HasCause};
    ghost use Rattle.fram_board.specs.Board.{packet_brought, acknowledgement_brought};
    ghost use Rattle.board_run.specs.History.{with_word};
    ghost use Rattle.board_run.specs.Tally.{counted, words_of};
    ghost use Rattle.board_run.specs.Stepwise.{state_of, known_of, ring_of, answer_of_ring, events_in, with_board};
    ghost use Rattle.board_run.specs.Stepwise.{IsGoing, HasRoom, IsAdvance, TakesCharge, HasNoCharge, IsRenewed, IsEnded};

    /// Whether the run has ended: its further steps do nothing.
    pub fn has_ended(&self) -> bool
        ensures { result ≡ (state_of self.now).has_ended }
    {
        self.has_ended
    }

    /// The board.
    pub fn board(&self) -> &Board
        ensures { result.now ≡ (state_of self.now).board }
    {
        self.board
    }

    /// How many events were accepted.
    pub fn accepted_events(&self) -> u64
        ensures { result ≡ (known_of self.now).tally.accepted }
    {
        self.watch.tally.accepted
    }

    /// The address of ANS, where the map has a ring of events.
    pub fn answer_place(&self) -> Option<u16>
        ensures { result ≡ answer_of_ring (ring_of (known_of self.now).history.map) }
    {
        match ring_of(self.watch.map) {
            Some(ring) => Some(ring.answer),
            None => None,
        }
    }

    /// EC, where the map has a ring of events; 0 where it has none.
    pub fn events_taken(&self) -> u16
        ensures { result ≡ events_in (ring_of (known_of self.now).history.map) (state_of self.now).board.fram }
    {
        match ring_of(self.watch.map) {
            Some(ring) => word(self.board, ring.event_count),
            None => 0,
        }
    }

    /// GATE, as the watch knows it.
    pub fn gate(&self) -> u16
        ensures { result ≡ (known_of self.now).history.gate }
    {
        self.watch.state.gate
    }

    /// A packet comes to the port EVENT of a board that listens; nothing changes on another board.
    pub fn bring_packet(&mut self, number: u16, word: u16)
        requires { IsGoing self.old }
        ensures going { IsGoing self.new }
        ensures state { state_of self.new ≡ with_board (state_of self.old) (packet_brought number word (state_of self.old).board) }
        ensures known { known_of self.new ≡ known_of self.old }
        ensures room { (n : ℕ) → HasRoom self.old n → HasRoom self.new n }
    {
        self.board.bring_packet(number, word);
    }

    /// An acknowledgement comes to a board that sends; nothing changes on another board.
    pub fn bring_ack(&mut self, number: u16)
        requires { IsGoing self.old }
        ensures going { IsGoing self.new }
        ensures state { state_of self.new ≡ with_board (state_of self.old) (acknowledgement_brought number (state_of self.old).board) }
        ensures known { known_of self.new ≡ known_of self.old }
        ensures room { (n : ℕ) → HasRoom self.old n → HasRoom self.new n }
    {
        self.board.bring_ack(number);
    }

    /// A word was accepted on another board: it is told with the next transition of this one.
    pub fn took(&mut self, word: u16)
        requires { IsGoing self.old }
        ensures going { IsGoing self.new }
        ensures state { state_of self.new ≡ state_of self.old }
        ensures history { (known_of self.new).history ≡ with_word (known_of self.old).history word }
        ensures tally { (known_of self.new).tally ≡ (known_of self.old).tally }
        ensures room { (n : ℕ) → HasRoom self.old n → HasRoom self.new n }
    {
        self.watch.state.keep(word);
    }

    // The next charge, if one is left, is the one that is spent from now on.
    fn take_charge(&mut self) -> bool
        requires { IsGoing self.old }
        ensures taken { result ≡ true → TakesCharge self.old self.new }
        ensures none { result ≡ false → HasNoCharge self.old self.new }
    {
        if self.again > 0 {
            self.again -= 1;
            return true;
        }
        if self.next == self.charges.len() {
            return false;
        }
        self.charge = self.charges[self.next];
        self.next += 1;
        self.again = self.charge.times - 1;
        true
    }

    // The charge is spent: power comes up with the next one, or the run has ended where there is none. Answers whether power came up.
    fn renew(&mut self) -> bool
        requires going { IsGoing self.old }
        requires words { words_of (counted self.old.watch.now.tally) < 2 ^ 64 }
        ensures up { result ≡ true → IsRenewed self.old self.new }
        ensures end { result ≡ false → IsEnded self.old self.new }
    {
        if !self.take_charge() {
            self.has_ended = true;
            return false;
        }
        self.left = self.charge.n;
        self.board.power_up(self.charge.fill);
        self.watch.note_power_up(self.board);
        true
    }

    /// The next step: an instruction or an acceptance, with all power-ups in front of it that are needed. Its lines are written. Where
    /// the board stops, or all charges are spent, the run has ended, and nothing is written of that.
    #[inline(always)]
    pub fn advance<S: Sink>(&mut self, report: &mut Report<'_, S>) -> Result<Advance, Failed>
        requires going { IsGoing self.old }
        requires room { HasRoom self.old 1 }
        ensures same_sink { report.new.sink.ghost_name ≡ report.old.sink.ghost_name }
        ensures going { OnOk result (IsGoing self.new) }
        ensures room { OnOk result ((n : ℕ) → HasRoom self.old (n + 1) → HasRoom self.new n) }
        ensures step { IsAdvance (state_of self.old) (known_of self.old) (S.contents report.old.sink.now) (S.contents report.new.sink.now)
            result (state_of self.new) (known_of self.new) }
        ensures cause { HasCause (S.faults report.old.sink.now) (S.faults report.new.sink.now) result }
    {
        let mut powers_up = false;
        while !self.has_ended {
            match take_turn(self.board, self.charge.kind, self.left, self.watch, report)? {
                Turn::Left(left, done) => {
                    self.left = left;
                    return Ok(Advance {
                        done: Some(done),
                        powers_up,
                    });
                }
                Turn::Spent => {
                    if self.renew() {
                        powers_up = true;
                    }
                }
                Turn::Stopped(_stop) => self.has_ended = true,
            }
        }
        Ok(Advance {
            done: None,
            powers_up,
        })
    }
}
