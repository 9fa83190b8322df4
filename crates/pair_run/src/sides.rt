//! The steps of either side, and what is brought to it.
ghost use Rattle.std.specs.Prelude.{◌≡◌, ℕ, ◌+◌, OnOk};
ghost use Rattle.alp_io.specs.Count.{HasCause};
ghost use Rattle.alp_io.specs.Sink.{Writes};
ghost use Rattle.prefixed_lines.specs.Prefixes.{prefixed};
ghost use Rattle.board_run.specs.History.{bound_lines};
ghost use Rattle.board_run.specs.Stepwise.{state_of, known_of, IsGoing, HasRoom, IsAdvance};
ghost use Rattle.fram_board.specs.Run.{word_list};
ghost use Rattle.board_run.specs.History.{with_words};
ghost use Rattle.pair_run.specs.Pair.{with_packet, with_acknowledgement};
ghost use Rattle.pair_run.specs.Listening.{with_step, accepted_word, HasCountsFor};
ghost use Rattle.pair_run.specs.Sides.{IsLettered, sent_in, progress_in};

use crate::listener::{Listener, Progress};
use alp_io::{Failed, Report, Sink};
use board_run::{Advance, StepwiseRun, Watch};
use buffered_sink::Holds;
use fram_board::Stepped;
use prefixed_lines::{LineOrigin, PrefixedLines};
use radio_link::{Air, Packet};
use std::marker::Brand;

/// The letter in front of A's lines.
pub const A: u8 = b'a';

/// The letter in front of B's lines.
pub const B: u8 = b'b';

/// Both sides and the air between them.
#[derive(Drop)]
pub struct Sides<'r, 'x, 'y> {
    pub a: StepwiseRun<'r, 'x>,
    pub b: StepwiseRun<'r, 'y>,
    pub air: &'r mut Air,
    pub listener: Listener,
}

// The line of a side's bound.
fn write_bound_line<L: Sink>(lines: &mut L, watch: &Watch<'_>) -> Result<(), Failed>
    ensures bytes { Writes (L.contents lines.old) (L.contents lines.new) result (bound_lines watch.now.map) }
    ensures cause { HasCause (L.faults lines.old) (L.faults lines.new) result }
{
    let mut report = Report::new(lines);
    watch.write_bound(&mut report)
}

// The line of a side's bound, in front of which its letter stands.
fn write_bound_through<'s, S: Holds, P: LineOrigin>(
    sink: &'s mut S,
    letter: u8,
    watch: &Watch<'_>,
) -> (&'s mut S, Result<(), Failed>)
    requires place { sink.ghost_name ≡ P.place }
    requires contents { S.contents sink.old ≡ P.contents }
    requires letter { letter ≡ P.letter }
    ensures same_sink { result.0.ghost_name ≡ sink.entry.ghost_name }
    ensures bytes { Writes (S.contents sink.old) (S.contents result.0.now) result.1 (prefixed letter (bound_lines watch.now.map)) }
    ensures cause { HasCause (S.faults sink.old) (S.faults result.0.now) result.1 }
{
    let mut lines = PrefixedLines::<S, P>::new(sink, letter);
    let written = write_bound_line(&mut lines, watch);
    lines.finish(written)
}

/// The line of a side's bound, in front of which its letter stands.
pub fn write_bound<S: Holds>(sink: &mut S, letter: u8, watch: &Watch<'_>) -> Result<(), Failed>
    ensures bytes { Writes (S.contents sink.old) (S.contents sink.new) result (prefixed letter (bound_lines watch.now.map)) }
    ensures cause { HasCause (S.faults sink.old) (S.faults sink.new) result }
{
    let (_, result) = write_bound_through::<S, Brand>(sink, letter, watch);
    result
}

// A step of one side.
#[inline(always)]
fn advance_by_line<L: Sink>(lines: &mut L, run: &mut StepwiseRun<'_, '_>) -> Result<Advance, Failed>
    requires going { IsGoing run.old }
    requires room { HasRoom run.old 1 }
    ensures going { OnOk result (IsGoing run.new) }
    ensures room { OnOk result ((n : ℕ) → HasRoom run.old (n + 1) → HasRoom run.new n) }
    ensures step { IsAdvance (state_of run.old) (known_of run.old) (L.contents lines.old) (L.contents lines.new)
        result (state_of run.new) (known_of run.new) }
    ensures cause { HasCause (L.faults lines.old) (L.faults lines.new) result }
{
    let mut report = Report::new(lines);
    run.advance(&mut report)
}

// A step of one side, whose letter stands in front of its lines.
#[inline(always)]
fn advance_through<'s, S: Holds, P: LineOrigin>(
    sink: &'s mut S,
    letter: u8,
    run: &mut StepwiseRun<'_, '_>,
) -> (&'s mut S, Result<Advance, Failed>)
    requires place { sink.ghost_name ≡ P.place }
    requires contents { S.contents sink.old ≡ P.contents }
    requires letter { letter ≡ P.letter }
    requires going { IsGoing run.old }
    requires room { HasRoom run.old 1 }
    ensures same_sink { result.0.ghost_name ≡ sink.entry.ghost_name }
    ensures going { OnOk result.1 (IsGoing run.new) }
    ensures room { OnOk result.1 ((n : ℕ) → HasRoom run.old (n + 1) → HasRoom run.new n) }
    ensures step { IsLettered letter (state_of run.old) (known_of run.old) (S.contents sink.old) (S.contents result.0.now)
        result.1 (state_of run.new) (known_of run.new) }
    ensures cause { HasCause (S.faults sink.old) (S.faults result.0.now) result.1 }
{
    let mut lines = PrefixedLines::<S, P>::new(sink, letter);
    let answer = advance_by_line(&mut lines, run);
    lines.finish(answer)
}

// The same on a sink of any origin.
#[inline(always)]
fn advance<S: Holds>(
    sink: &mut S,
    letter: u8,
    run: &mut StepwiseRun<'_, '_>,
) -> Result<Advance, Failed>
    requires going { IsGoing run.old }
    requires room { HasRoom run.old 1 }
    ensures going { OnOk result (IsGoing run.new) }
    ensures room { OnOk result ((n : ℕ) → HasRoom run.old (n + 1) → HasRoom run.new n) }
    ensures step { IsLettered letter (state_of run.old) (known_of run.old) (S.contents sink.old) (S.contents sink.new)
        result (state_of run.new) (known_of run.new) }
    ensures cause { HasCause (S.faults sink.old) (S.faults sink.new) result }
{
    let (_, result) = advance_through::<S, Brand>(sink, letter, run);
    result
}

impl<'r, 'x, 'y> Sides<'r, 'x, 'y> {
    ghost use Rattle.std.specs.Prelude.{◌≡◌, ℕ, ◌+◌, ◌&&◌, nat_le, OnOk};
    ghost use Rattle.board_run.specs.Stepwise.{state_of};
    ghost use Rattle.alp_io.specs.Count.{HasCause};
    ghost use Rattle.pair_run.specs.Actions.{StepOfA, StepOfB, PacketToB, AcknowledgementToA, NewestPacketToB, NewestAcknowledgementToA};
    ghost use Rattle.pair_run.specs.Sides.{accepted_words, IsGoingOn, HasRoomForBoth, IsDone, IsBrought};
    ghost use Rattle.pair_run.specs.Pair.{most_words};

    /// Whether B has accepted as many words as it may.
    #[inline(always)]
    pub fn is_full(&self) -> bool
        ensures { result ≡ nat_le most_words (accepted_words self.now) }
    {
        self.b.accepted_events() >= 32768
    }

    /// Whether both runs have ended.
    #[inline(always)]
    pub fn have_ended(&self) -> bool
        ensures { result ≡ ((state_of self.now.a).has_ended && (state_of self.now.b).has_ended) }
    {
        self.a.has_ended() && self.b.has_ended()
    }

    /// A step of A: what it sends goes into the air.
    pub fn step_a<S: Holds>(&mut self, sink: &mut S) -> Result<(), Failed>
        requires going { IsGoingOn self.old }
        requires room { HasRoomForBoth self.old 1 0 }
        ensures going { OnOk result (IsGoingOn self.new) }
        ensures room { OnOk result ((n m : ℕ) → HasRoomForBoth self.old (n + 1) m → HasRoomForBoth self.new n m) }
        ensures done { IsDone StepOfA self.old (S.contents sink.old) (S.contents sink.new) result self.new }
        ensures cause { HasCause (S.faults sink.old) (S.faults sink.new) result }
    {
        let advance = advance(sink, A, &mut self.a)?;
        send_packet(self.air, sent(&advance));
        Ok(())
    }

    /// A step of B: what it sends goes into the air, and A is told of the word that it accepts.
    pub fn step_b<S: Holds>(&mut self, sink: &mut S) -> Result<(), Failed>
        requires going { IsGoingOn self.old }
        requires room { HasRoomForBoth self.old 0 1 }
        ensures going { OnOk result (IsGoingOn self.new) }
        ensures room { OnOk result ((n m : ℕ) → HasRoomForBoth self.old n (m + 1) → HasRoomForBoth self.new n m) }
        ensures done { IsDone StepOfB self.old (S.contents sink.old) (S.contents sink.new) result self.new }
        ensures cause { HasCause (S.faults sink.old) (S.faults sink.new) result }
    {
        let accepted = self.b.accepted_events();
        let gate_before = self.b.gate();
        let advance = advance(sink, B, &mut self.b)?;
        send_acknowledgement(self.air, sent(&advance));
        self.listener.hear_power(advance.powers_up);
        if let Some(done) = advance.done {
            note_step(
                &mut self.listener,
                &mut self.a,
                &self.b,
                done,
                accepted,
                gate_before,
            );
        }
        Ok(())
    }

    /// The packet of this place is brought to B, if there is one.
    pub fn bring_packet(&mut self, place: u32)
        requires { IsGoingOn self.old }
        ensures going { IsGoingOn self.new }
        ensures room { (n m : ℕ) → HasRoomForBoth self.old n m → HasRoomForBoth self.new n m }
        ensures brought { IsBrought (PacketToB place) self.old self.new }
    {
        if let Some(packet) = self.air.packets.bring(place) {
            self.b.bring_packet(packet.number, packet.word);
        }
    }

    /// The acknowledgement of this place is brought to A, if there is one.
    pub fn bring_ack(&mut self, place: u32)
        requires { IsGoingOn self.old }
        ensures going { IsGoingOn self.new }
        ensures room { (n m : ℕ) → HasRoomForBoth self.old n m → HasRoomForBoth self.new n m }
        ensures brought { IsBrought (AcknowledgementToA place) self.old self.new }
    {
        if let Some(number) = self.air.acknowledgements.bring(place) {
            self.a.bring_ack(number);
        }
    }

    /// The newest packet is brought to B, where it waits.
    pub fn bring_newest_packet(&mut self)
        requires { IsGoingOn self.old }
        ensures going { IsGoingOn self.new }
        ensures room { (n m : ℕ) → HasRoomForBoth self.old n m → HasRoomForBoth self.new n m }
        ensures brought { IsBrought NewestPacketToB self.old self.new }
    {
        if let Some(packet) = self.air.packets.bring_newest() {
            self.b.bring_packet(packet.number, packet.word);
        }
    }

    /// The newest acknowledgement is brought to A, where it waits.
    pub fn bring_newest_ack(&mut self)
        requires { IsGoingOn self.old }
        ensures going { IsGoingOn self.new }
        ensures room { (n m : ℕ) → HasRoomForBoth self.old n m → HasRoomForBoth self.new n m }
        ensures brought { IsBrought NewestAcknowledgementToA self.old self.new }
    {
        if let Some(number) = self.air.acknowledgements.bring_newest() {
            self.a.bring_ack(number);
        }
    }
}

// What a step of a run sent, if it was made and sent something.
fn sent(advance: &Advance) -> Option<(u16, u16)>
    ensures { result ≡ sent_in advance.now }
{
    match advance.done {
        Some(done) => done.sent,
        None => None,
    }
}

// What A sent goes into the air.
fn send_packet(air: &mut Air, sent: Option<(u16, u16)>)
    ensures packets { air.new.packets ≡ with_packet sent air.old.packets }
    ensures acknowledgements { air.new.acknowledgements ≡ air.old.acknowledgements }
{
    if let Some((number, word)) = sent {
        air.packets.send(Packet { number, word });
    }
}

// What B sent goes into the air: its number alone.
fn send_acknowledgement(air: &mut Air, sent: Option<(u16, u16)>)
    ensures packets { air.new.packets ≡ air.old.packets }
    ensures acknowledgements { air.new.acknowledgements ≡ with_acknowledgement sent air.old.acknowledgements }
{
    if let Some((number, _)) = sent {
        air.acknowledgements.send(number);
    }
}

// A step of B, as far as its words are concerned, told behind it.
fn progress(b: &StepwiseRun<'_, '_>, done: Stepped, accepted: u64, gate_before: u16) -> Progress
    ensures { result ≡ progress_in b.now done accepted gate_before }
{
    Progress {
        done,
        accepts: b.accepted_events() > accepted,
        gate_before,
        gate: b.gate(),
        events: b.events_taken(),
    }
}

// A is told of the word that B accepted, if it did.
fn tell_word(a: &mut StepwiseRun<'_, '_>, word: Option<u16>)
    requires { IsGoing a.old }
    ensures going { IsGoing a.new }
    ensures room { (n : ℕ) → HasRoom a.old n → HasRoom a.new n }
    ensures state { state_of a.new ≡ state_of a.old }
    ensures history { (known_of a.new).history ≡ with_words (known_of a.old).history (word_list word) }
{
    if let Some(word) = word {
        a.took(word);
    }
}

// What a step of B did with its words: its listener is told of it, and A of the word that was accepted.
fn note_step(
    listener: &mut Listener,
    a: &mut StepwiseRun<'_, '_>,
    b: &StepwiseRun<'_, '_>,
    done: Stepped,
    accepted: u64,
    gate_before: u16,
)
    requires going { IsGoing a.old }
    requires counts { HasCountsFor listener.old 1 }
    ensures going { IsGoing a.new }
    ensures room { (n : ℕ) → HasRoom a.old n → HasRoom a.new n }
    ensures state { state_of a.new ≡ state_of a.old }
    ensures listener { listener.new ≡ with_step (progress_in b.now done accepted gate_before) listener.old }
    ensures history { (known_of a.new).history ≡ with_words (known_of a.old).history
        (word_list (accepted_word (progress_in b.now done accepted gate_before) listener.old)) }
{
    let step = progress(b, done, accepted, gate_before);
    let word = listener.note(&step);
    tell_word(a, word);
}
