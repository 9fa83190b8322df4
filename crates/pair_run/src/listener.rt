//! What becomes of words at the listener: which are accepted, and how many its committed attempts consume.
ghost use Rattle.std.specs.Prelude.{◌≡◌};
ghost use Rattle.fram_board.specs.Gate.{is_decide, is_done};
ghost use Rattle.pair_run.specs.Consuming.{is_written};
ghost use Rattle.pair_run.specs.Listening.{word_behind};

use fram_board::{Heard, Stepped};
use image_text::RingPlaces;

/// A step of the listener, as far as its words are concerned.
#[derive(Clone, Copy)]
pub struct Progress {
    /// What it did.
    pub done: Stepped,
    /// Whether an event was accepted.
    pub accepts: bool,
    /// GATE in front of it and behind it.
    pub gate_before: u16,
    pub gate: u16,
    /// EC behind it.
    pub events: u16,
}

/// What is known of its words.
#[derive(Clone, Copy)]
pub struct Listener {
    /// ANS of its ring, if it has one.
    pub answer_place: Option<u16>,
    /// EC behind the last step.
    pub events: u16,
    /// The word that was taken from EVENT last.
    pub word: u16,
    /// Whether an answer waits for EC.
    pub is_answered: bool,
    /// How many answers the attempt has consumed.
    pub taken: u64,
    /// How many the attempt of the last decide had.
    pub decided: u64,
    /// How many all committed attempts consumed.
    pub consumed: u64,
}

// Whether a write at this address is one to the word at that address.
fn is_written(wrote: Option<u16>, place: u16) -> bool
    ensures { result ≡ is_written wrote place }
{
    match wrote {
        Some(address) => address - address % 2 == place,
        None => false,
    }
}

// The word that was taken from EVENT last, with what a step read.
fn word_behind(heard: Heard, word: u16) -> u16
    ensures { result ≡ word_behind heard word }
{
    match heard {
        Heard::Once(Some(taken)) => taken,
        _ => word,
    }
}

impl Listener {
    ghost use Rattle.std.specs.Prelude.{◌≡◌};
    ghost use Rattle.pair_run.specs.Listening.{new_listener, power_if, consumes_on, consumes, with_step, accepted_word, HasCountsFor};

    /// A listener whose ring has ANS at this address, if it has a ring, before its first step; EC is this word.
    pub fn new(answer_place: Option<u16>, events: u16) -> Listener
        ensures { result ≡ new_listener answer_place events }
    {
        Listener {
            answer_place,
            events,
            word: 0,
            is_answered: false,
            taken: 0,
            decided: 0,
            consumed: 0,
        }
    }

    /// Power came up, or it didn't: where it did, the attempt begins anew.
    pub fn hear_power(&mut self, powers_up: bool)
        ensures { self.new ≡ power_if powers_up self.old }
    {
        if powers_up && self.answer_place.is_some() {
            self.is_answered = false;
            self.taken = 0;
        }
    }

    // The answers that the attempt has consumed behind a step.
    fn count_answers(&mut self, place: u16, step: &Progress)
        requires { HasCountsFor self.old 1 }
        ensures { self.new ≡ consumes_on place step.now self.old }
    {
        let is_answer = is_written(step.done.wrote, place);
        let is_consumed = self.is_answered && self.events < step.events;
        if is_consumed {
            self.taken += 1;
        }
        self.is_answered = is_answer || (self.is_answered && !is_consumed);
        self.events = step.events;
    }

    // A step: the answers that the attempt consumes, up to a decide, and then up to a done.
    fn consume(&mut self, place: u16, step: &Progress)
        requires { HasCountsFor self.old 1 }
        ensures { self.new ≡ consumes place step.now self.old }
    {
        let decides = is_decide(step.gate_before, step.gate);
        if is_done(step.gate_before, step.gate) {
            self.is_answered = false;
            self.taken = 0;
            self.consumed += self.decided;
            self.decided = 0;
            self.events = step.events;
            return;
        }
        let taken = self.taken;
        self.count_answers(place, step);
        if decides {
            self.decided = taken;
        }
    }

    /// A step was made. Answers the word that was accepted in it, if one was.
    pub fn note(&mut self, step: &Progress) -> Option<u16>
        requires { HasCountsFor self.old 1 }
        ensures word { result ≡ accepted_word step.now self.old }
        ensures state { self.new ≡ with_step step.now self.old }
    {
        self.word = word_behind(step.done.heard, self.word);
        if let Some(place) = self.answer_place {
            self.consume(place, step);
        }
        if step.accepts { Some(self.word) } else { None }
    }
}

// Whether GATE came to 1.
fn is_decide(before: u16, now: u16) -> bool
    ensures { result ≡ is_decide before now }
{
    now == 1 && before != 1
}

// Whether GATE went from 1 to 0.
fn is_done(before: u16, now: u16) -> bool
    ensures { result ≡ is_done before now }
{
    now == 0 && before == 1
}
