//! What a watch keeps of a run.
ghost use Rattle.std.specs.Prelude.{◌≡◌, ◌+◌, ◌*◌, ◌<◌, ◌≤◌, ◌++◌, true, Some, None, OnOk, IfOk, option_map, flat_map};
ghost use Rattle.alp_io.specs.Count.{HasCause};
ghost use Rattle.alp_io.specs.Sink.{Writes};
ghost use Rattle.alp_io.specs.Report.{accepted_line};
ghost use Rattle.image_text.specs.image_map.MapValue.{MapValue, IsFramWord, IsVariable};
ghost use Rattle.board_run.specs.History.{word_in, task_name, more_lines, changed_line, number_at, number_of, shared_numbers, variable_numbers, array_words};
ghost use Rattle.board_run.specs.History.{is_decide, is_done};
ghost use Rattle.board_run.specs.Shadow.{Covers, CoversBut};
ghost use Rattle.board_run.specs.State.{placed, told_lines, StandsInFram};

use crate::numbers::{PlacedNumber, long_of};
use crate::shadow::Shadow;
use alp_io::{Failed, Report, Sink};
use arrayvec::ArrayVec;
use fram_board::{Board, Stepped};
use image_text::address_space::fram_index;
use image_text::{Image, Map, Variable};
use std::alloc::{AllocError, Global};

/// What is known of a run, beside the map.
#[derive(Drop)]
pub struct State {
    /// GATE.
    pub gate: u16,
    /// Whether that is GATE of the board.
    pub is_gate_known: bool,
    /// How many transitions were completed.
    pub completed: u64,
    /// CUR at the last done.
    pub task: u16,
    /// The FRAM at the last done.
    pub shadow: Shadow,
    /// The first 256 words accepted since, and how many came behind them.
    pub accepted: ArrayVec<u16, 256>,
    pub more: u64,
    /// How many readings were taken at the last boot or done.
    pub since: u32,
    /// The span of the last decide.
    pub span_from: u32,
    pub span_to: u32,
}

// The word of the FRAM at an address.
#[inline(always)]
pub fn word(board: &Board, address: u16) -> u16
    requires { IsFramWord address }
    ensures { result ≡ word_in board.now.fram address }
{
    board.fram()[fram_index(address)]
}

// The number of the FRAM at an address.
fn number(board: &Board, address: u16, is_long: bool) -> u32
    requires low { IsFramWord address }
    requires high { is_long ≡ true → IsFramWord (address + 2) }
    ensures { result ≡ number_at (word_in board.now.fram) address is_long }
{
    let low = word(board, address);
    if is_long {
        long_of(low, word(board, address + 2))
    } else {
        low as u32
    }
}

// The name of a task by its number.
fn task_name(map: &Map, number: u16) -> Option<&[u8]>
    ensures { option_map (λ t. t.now) result ≡ task_name map.now.tasks number }
{
    let task = map.tasks().get(number as usize)?;
    Some(task.name().as_bytes())
}

fn write_words<S: Sink>(words: &[u16], report: &mut Report<'_, S>) -> Result<(), Failed>
    ensures same_sink { report.new.sink.ghost_name ≡ report.old.sink.ghost_name }
    ensures bytes { Writes (S.contents report.old.sink.now) (S.contents report.new.sink.now) result (flat_map accepted_line words.now) }
    ensures cause { HasCause (S.faults report.old.sink.now) (S.faults report.new.sink.now) result }
{
    for w in words {
        report.accepted(*w)?;
    }
    Ok(())
}

fn write_more<S: Sink>(more: u64, report: &mut Report<'_, S>) -> Result<(), Failed>
    ensures same_sink { report.new.sink.ghost_name ≡ report.old.sink.ghost_name }
    ensures bytes { Writes (S.contents report.old.sink.now) (S.contents report.new.sink.now) result (more_lines more) }
    ensures cause { HasCause (S.faults report.old.sink.now) (S.faults report.new.sink.now) result }
{
    if more == 0 {
        return Ok(());
    }
    report.more(more)
}

// The line of a shared number, if it isn't what it was.
fn write_number<S: Sink>(
    place: PlacedNumber<'_>,
    was: u32,
    now: u32,
    report: &mut Report<'_, S>,
) -> Result<(), Failed>
    ensures same_sink { report.new.sink.ghost_name ≡ report.old.sink.ghost_name }
    ensures bytes { Writes (S.contents report.old.sink.now) (S.contents report.new.sink.now) result (changed_line (placed place.entry) was now) }
    ensures cause { HasCause (S.faults report.old.sink.now) (S.faults report.new.sink.now) result }
{
    if now == was {
        return Ok(());
    }
    report.value(place.name, place.index, now)
}

// The same of the number at a place, by what it was in the shadow.
fn write_place<S: Sink>(
    place: PlacedNumber<'_>,
    shadow: &Shadow,
    board: &Board,
    report: &mut Report<'_, S>,
) -> Result<(), Failed>
    requires { StandsInFram (placed place) }
    ensures same_sink { report.new.sink.ghost_name ≡ report.old.sink.ghost_name }
    ensures bytes { Writes (S.contents report.old.sink.now) (S.contents report.new.sink.now) result
        (changed_line (placed place.entry) (number_of (word_in shadow.now.words) (placed place.entry))
        (number_of (word_in board.now.fram) (placed place.entry))) }
    ensures cause { HasCause (S.faults report.old.sink.now) (S.faults report.new.sink.now) result }
{
    let was = shadow.number(place.address, place.is_long);
    let now = number(board, place.address, place.is_long);
    write_number(place, was, now, report)
}

// The lines of the words of an array that have changed.
fn write_array<S: Sink>(
    v: &Variable,
    length: u16,
    shadow: &Shadow,
    board: &Board,
    report: &mut Report<'_, S>,
) -> Result<(), Failed>
    requires variable { IsVariable v.now }
    requires length { v.now.length ≡ Some length }
    requires covers { Covers shadow.now board.now.fram }
    ensures same_sink { report.new.sink.ghost_name ≡ report.old.sink.ghost_name }
    ensures bytes { Writes (S.contents report.old.sink.now) (S.contents report.new.sink.now) result
        (told_lines shadow.now.words board.now.fram (array_words v.now.name v.now.address 0 length)) }
    ensures cause { HasCause (S.faults report.old.sink.now) (S.faults report.new.sink.now) result }
{
    let mut i = shadow.next_index(v.address, 0, length);
    while i < length {
        let place = PlacedNumber {
            name: v.name.as_bytes(),
            index: Some(i),
            address: v.address + 2 * i,
            is_long: false,
        };
        write_place(place, shadow, board, report)?;
        i = shadow.next_index(v.address, i + 1, length);
    }
    Ok(())
}

// The lines of the numbers of a variable that have changed.
fn write_variable<S: Sink>(
    v: &Variable,
    shadow: &Shadow,
    board: &Board,
    report: &mut Report<'_, S>,
) -> Result<(), Failed>
    requires variable { IsVariable v.now }
    requires covers { Covers shadow.now board.now.fram }
    ensures same_sink { report.new.sink.ghost_name ≡ report.old.sink.ghost_name }
    ensures bytes { Writes (S.contents report.old.sink.now) (S.contents report.new.sink.now) result
        (told_lines shadow.now.words board.now.fram (variable_numbers v.now.name v.now.address v.now.value_type v.now.length)) }
    ensures cause { HasCause (S.faults report.old.sink.now) (S.faults report.new.sink.now) result }
{
    let Some(length) = v.length else {
        let place = PlacedNumber {
            name: v.name.as_bytes(),
            index: None,
            address: v.address,
            is_long: v.value_type.is_long(),
        };
        return write_place(place, shadow, board, report);
    };
    write_array(v, length, shadow, board, report)
}

// The lines of the shared numbers that have changed. What isn't marked in the shadow is not looked at.
fn write_changes<S: Sink>(
    map: &Map,
    shadow: &Shadow,
    board: &Board,
    report: &mut Report<'_, S>,
) -> Result<(), Failed>
    requires { Covers shadow.now board.now.fram }
    ensures same_sink { report.new.sink.ghost_name ≡ report.old.sink.ghost_name }
    ensures bytes { Writes (S.contents report.old.sink.now) (S.contents report.new.sink.now) result
        (told_lines shadow.now.words board.now.fram (shared_numbers map.now.variables)) }
    ensures cause { HasCause (S.faults report.old.sink.now) (S.faults report.new.sink.now) result }
{
    map.rules();
    for v in map.variables() {
        write_variable(v, shadow, board, report)?;
    }
    Ok(())
}

impl State {
    ghost use Rattle.std.specs.Prelude.{◌≡◌, ◌<◌, Option, Some, None, OnOk, IfOk, option_map, length};
    ghost use Rattle.alp_io.specs.Count.{HasCause};
    ghost use Rattle.alp_io.specs.Sink.{Writes};
    ghost use Rattle.image_text.specs.image_map.MapValue.{MapValue};
    ghost use Rattle.std.specs.Prelude.{[], if◌then◌else◌};
    ghost use Rattle.fram_board.specs.Run.{word_list};
    ghost use Rattle.board_run.specs.History.{with_word, with_words, transition_lines, completed, decided, gated, is_done, behind_instruction};
    ghost use Rattle.board_run.specs.History.{instruction_lines, start_with, start_of};
    ghost use Rattle.board_run.specs.State.{history_of, IsGateUnlessWritten};

    /// A word more was accepted.
    pub fn keep(&mut self, w: u16)
        ensures history { (m : Option MapValue) → history_of m self.new ≡ with_word (history_of m self.old) w }
        ensures shadow { self.new.shadow ≡ self.old.shadow }
        ensures gate { self.new.gate ≡ self.old.gate }
        ensures known { self.new.is_gate_known ≡ self.old.is_gate_known }
    {
        if self.accepted.len() < 256 {
            self.accepted.push(w);
        } else {
            self.more = self.more.saturating_add(1);
        }
    }

    // A decide at this board.
    fn decide(&mut self, board: &Board)
        ensures history { (m : Option MapValue) → history_of m self.new ≡ decided (history_of m self.old) board.now }
        ensures shadow { self.new.shadow ≡ self.old.shadow }
    {
        self.span_from = self.since;
        self.span_to = board.taken();
    }

    // A done at this board: the lines of its transition are written.
    #[inline(never)]
    fn complete<S: Sink>(
        &mut self,
        map: &Map,
        board: &Board,
        report: &mut Report<'_, S>,
    ) -> Result<(), Failed>
        requires { Covers self.old.shadow board.now.fram }
        ensures same_sink { report.new.sink.ghost_name ≡ report.old.sink.ghost_name }
        ensures history { OnOk result (history_of (Some map.now) self.new ≡ completed map.now (history_of (Some map.now) self.old) board.now) }
        ensures covers { OnOk result (Covers self.new.shadow board.now.fram) }
        ensures bytes { Writes (S.contents report.old.sink.now) (S.contents report.new.sink.now) result
            (transition_lines map.now (history_of (Some map.now) self.old) board.now) }
        ensures cause { HasCause (S.faults report.old.sink.now) (S.faults report.new.sink.now) result }
    {
        map.rules();
        let next = word(board, map.words().current_task);
        self.completed = self.completed.saturating_add(1);
        report.step(
            self.completed,
            task_name(map, self.task),
            task_name(map, next),
            self.span_from,
            self.span_to,
        )?;
        write_words(self.accepted.as_slice(), report)?;
        write_more(self.more, report)?;
        write_changes(map, &self.shadow, board, report)?;
        self.shadow.settle(board);
        self.task = next;
        self.accepted.clear();
        self.more = 0;
        self.since = board.taken();
        Ok(())
    }

    // GATE went from one word to another.
    #[inline(always)]
    fn note_gate<S: Sink>(
        &mut self,
        map: &Map,
        now: u16,
        board: &Board,
        report: &mut Report<'_, S>,
    ) -> Result<(), Failed>
        requires { Covers self.old.shadow board.now.fram }
        ensures same_sink { report.new.sink.ghost_name ≡ report.old.sink.ghost_name }
        ensures history { OnOk result (history_of (Some map.now) self.new ≡ gated map.now (history_of (Some map.now) self.old) board.now now) }
        ensures covers { OnOk result (Covers self.new.shadow board.now.fram) }
        ensures bytes { Writes (S.contents report.old.sink.now) (S.contents report.new.sink.now) result
            (if is_done self.old.gate now then transition_lines map.now (history_of (Some map.now) self.old) board.now else []) }
        ensures cause { HasCause (S.faults report.old.sink.now) (S.faults report.new.sink.now) result }
    {
        let before = self.gate;
        if now == before {
            return Ok(());
        }
        self.gate = now;
        if is_done(before, now) {
            self.complete(map, board, report)
        } else if is_decide(before, now) {
            self.decide(board);
            Ok(())
        } else {
            Ok(())
        }
    }

    /// A step was made, which wrote at these addresses and left this board: its lines are written.
    #[inline(always)]
    pub fn note<S: Sink>(
        &mut self,
        map: &Map,
        done: &Stepped,
        stores: (Option<u16>, Option<u16>),
        board: &Board,
        report: &mut Report<'_, S>,
    ) -> Result<(), Failed>
        requires covers { CoversBut stores self.old.shadow board.now.fram }
        requires gate { IsGateUnlessWritten map.now stores self.old.is_gate_known self.old.gate board.now.fram }
        ensures same_sink { report.new.sink.ghost_name ≡ report.old.sink.ghost_name }
        ensures history { OnOk result (history_of (Some map.now) self.new ≡
            behind_instruction (Some map.now) (history_of (Some map.now) self.old) (word_list done.now.accepted) board.now) }
        ensures covers { OnOk result (Covers self.new.shadow board.now.fram) }
        ensures gate { OnOk result (self.new.gate ≡ word_in board.now.fram map.now.words.gate) }
        ensures bytes { Writes (S.contents report.old.sink.now) (S.contents report.new.sink.now) result
            (instruction_lines (Some map.now) (history_of (Some map.now) self.old) (word_list done.now.accepted) board.now) }
        ensures cause { HasCause (S.faults report.old.sink.now) (S.faults report.new.sink.now) result }
    {
        let in_fram = self.shadow.note_writes(stores);
        self.keep_accepted(done);
        if self.is_gate_known && !in_fram {
            return Ok(());
        }
        map.rules();
        self.is_gate_known = true;
        let now = word(board, map.words().gate);
        self.note_gate(map, now, board, report)
    }

    // The word that an instruction made the receiver accept, if it did.
    #[inline(always)]
    fn keep_accepted(&mut self, done: &Stepped)
        ensures history { (m : Option MapValue) → history_of m self.new ≡ with_words (history_of m self.old) (word_list done.now.accepted) }
        ensures shadow { self.new.shadow ≡ self.old.shadow }
        ensures gate { self.new.gate ≡ self.old.gate }
        ensures known { self.new.is_gate_known ≡ self.old.is_gate_known }
    {
        if let Some(w) = done.accepted {
            self.keep(w);
        }
    }

    /// What is known before a run of a board that is new from this image, whose map this is. Fails where memory is refused.
    pub fn of(alloc: Global, image: &Image, map: Option<&Map>) -> Result<State, AllocError>
        requires { option_map (λ m. m.now) map ≡ image.now.map }
        ensures { IfOk result (λ s. history_of image.now.map s ≡ start_of image.now) }
    {
        let blank = State::blank(alloc, image)?;
        match map {
            None => Ok(blank),
            Some(map) => Ok(blank.with_words(image, map)),
        }
    }

    fn blank(alloc: Global, image: &Image) -> Result<State, AllocError>
        ensures history { IfOk result (λ s. history_of None s ≡ start_with [] None) }
        ensures shadow { IfOk result (λ s. s.shadow.words ≡ image.now.words) }
    {
        Ok(State {
            gate: 0,
            is_gate_known: false,
            completed: 0,
            task: 0,
            shadow: Shadow::of(alloc, image.words())?,
            accepted: ArrayVec::new(),
            more: 0,
            since: 0,
            span_from: 0,
            span_to: 0,
        })
    }

    // The same with GATE and CUR of the image.
    fn with_words(mut self, image: &Image, map: &Map) -> State
        requires history { history_of None self ≡ start_with [] None }
        requires shadow { self.shadow.words ≡ image.now.words }
        ensures { history_of (Some map.now) result ≡ start_with image.now.words (Some map.now) }
    {
        map.rules();
        self.gate = word_of(image, map.words().gate);
        self.task = word_of(image, map.words().current_task);
        self
    }
}

// Whether GATE came to 1.
fn is_decide(before: u16, now: u16) -> bool
    ensures { result ≡ is_decide before now }
{
    now == 1 && before != 1
}

// Whether GATE went from 1 to 0.
fn is_done(before: u16, now: u16) -> bool
    ensures { result ≡ is_done before now }
{
    now == 0 && before == 1
}

fn word_of(image: &Image, address: u16) -> u16
    requires { IsFramWord address }
    ensures { result ≡ word_in image.now.words address }
{
    image.word(address).unwrap()
}
