//! What is seen of a run while it is made.
ghost use Rattle.std.specs.Prelude.{◌≡◌, ◌%◌, ◌+◌, ◌-◌, ◌^◌, ◌<◌, ◌≤◌, Some, None, List, ℕ, OnOk, IfOk, IfSome, flat_map, option_map};
ghost use Rattle.alp_io.specs.Count.{HasCause};
ghost use Rattle.alp_io.specs.Sink.{Writes};
ghost use Rattle.alp_io.specs.Report.{accepted_line};
ghost use Rattle.fram_board.specs.Run.{word_list};
ghost use Rattle.board_run.specs.History.{start_of, bound_lines, total, values_in, shared_numbers, instruction_lines, behind_instruction, behind_power_up};
ghost use Rattle.board_run.specs.State.{seen_so, Follows, FollowsBut};
ghost use Rattle.board_run.specs.Events.{PowersUp};
ghost use Rattle.image_text.specs.image_map.MapValue.{IsFramWord};
ghost use Rattle.board_run.specs.Tally.{IsHead, no_tally, counted, words_of, tallied, tallied_all, step_ends};

use crate::head::Head;
use crate::numbers::cut_number;
use crate::shadow::Shadow;
use crate::state::State;
use crate::tally::Tally;
use alp_io::{Failed, Report, Sink};
use fram_board::{Board, Heard, Stepped};
use image_text::{Image, Map};
use std::alloc::{AllocError, Global};

/// What is seen of a run: the map of its image, if it has one, and what is known of it.
#[derive(Drop)]
pub struct Seen<'a> {
    pub map: Option<&'a Map>,
    pub state: State,
    /// What became of events since the run began, and HEAD as it was behind the last step.
    pub tally: Tally,
    pub head: Head,
}

impl<'a> Seen<'a> {
    /// What is seen before a run of a board that is new from this image. Fails where memory is refused.
    pub fn of(alloc: Global, image: &'a Image) -> Result<Seen<'a>, AllocError>
        ensures { IfOk result (λ s. seen_so s ≡ start_of image.now) }
    {
        let map = image.map();
        Ok(Seen {
            map,
            state: State::of(alloc, image, map)?,
            tally: Tally::new(),
            head: Head::none(),
        })
    }

    /// A run begins: from here on it follows this board, and no event was taken yet.
    pub fn begin(&mut self, board: &Board)
        ensures history { seen_so self.new ≡ seen_so self.old }
        ensures tally { counted self.new.tally ≡ no_tally }
        ensures follows { Follows self.new board.now.fram }
    {
        self.state.shadow.mark_all();
        self.state.is_gate_known = false;
        self.tally = Tally::new();
        self.head = Head::of(self.map, board);
    }

    /// The sum of all shared numbers at the last done, modulo 65536; 0 without a map.
    pub fn sum(&self) -> u16
        ensures { result ≡ total (seen_so self.now).shared % 65536 }
    {
        match self.map {
            Some(map) => sum_of(map, &self.state.shadow),
            None => 0,
        }
    }

    /// Writes the line of the bound, if there is a map.
    pub fn write_bound<S: Sink>(&self, report: &mut Report<'_, S>) -> Result<(), Failed>
        ensures same_sink { report.new.sink.ghost_name ≡ report.old.sink.ghost_name }
        ensures bytes { Writes (S.contents report.old.sink.now) (S.contents report.new.sink.now) result (bound_lines (seen_so self.now).map) }
        ensures cause { HasCause (S.faults report.old.sink.now) (S.faults report.new.sink.now) result }
    {
        match self.map {
            Some(map) => report.bound(map.bound()),
            None => Ok(()),
        }
    }

    /// Power came up.
    pub fn note_power_up(&mut self, board: &Board)
        requires { words_of (counted self.old.tally) < 2 ^ 64 }
        ensures history { seen_so self.new ≡ behind_power_up (seen_so self.old).map (seen_so self.old) board.now }
        ensures tally { counted self.new.tally ≡ tallied PowersUp (counted self.old.tally) }
        ensures follows { (fram : List ℕ) → Follows self.old fram → Follows self.new fram }
    {
        self.tally.lose();
        if self.map.is_some() {
            self.state.since = board.taken();
        }
    }

    /// A step was made, which wrote at these addresses, may be a RETI, and left this board: its lines are written.
    #[inline(always)]
    pub fn note<S: Sink>(
        &mut self,
        done: &Stepped,
        stores: (Option<u16>, Option<u16>),
        is_return: bool,
        board: &Board,
        report: &mut Report<'_, S>,
    ) -> Result<(), Failed>
        requires follows { FollowsBut stores self.old board.now.fram }
        requires words { words_of (counted self.old.tally) < 2 ^ 64 - 1 }
        ensures same_sink { report.new.sink.ghost_name ≡ report.old.sink.ghost_name }
        ensures history { OnOk result (seen_so self.new ≡ behind_instruction (seen_so self.old).map (seen_so self.old) (word_list done.now.accepted)
            board.now) }
        ensures tally { counted self.new.tally ≡ tallied_all
            (step_ends done.now.heard self.old.head.place self.old.head.word board.now.fram is_return) (counted self.old.tally) }
        ensures few { words_of (counted self.new.tally) ≤ words_of (counted self.old.tally) + 1 }
        ensures follows { OnOk result (Follows self.new board.now.fram) }
        ensures bytes { Writes (S.contents report.old.sink.now) (S.contents report.new.sink.now) result
            (instruction_lines (seen_so self.old).map (seen_so self.old) (word_list done.now.accepted) board.now) }
        ensures cause { HasCause (S.faults report.old.sink.now) (S.faults report.new.sink.now) result }
    {
        note_events(
            &mut self.head,
            &mut self.tally,
            done.heard,
            is_return,
            board,
        );
        match self.map {
            Some(map) => self.state.note(map, done, stores, board, report),
            None => write_accepted(done, report),
        }
    }
}

// What ended the time of a word in hand, in a step that this board is left by, and HEAD is looked at.
#[cold]
#[inline(never)]
fn note_ends(head: &mut Head, tally: &mut Tally, heard: Heard, is_return: bool, board: &Board)
    requires fits { IfSome head.old.place IsFramWord }
    requires words { words_of (counted tally.old) < 2 ^ 64 - 1 }
    ensures tally { counted tally.new ≡ tallied_all
        (step_ends heard head.old.place head.old.word board.now.fram is_return) (counted tally.old) }
    ensures few { words_of (counted tally.new) ≤ words_of (counted tally.old) + 1 }
    ensures place { head.new.place ≡ head.old.place }
    ensures word { IsHead head.new.place head.new.word board.now.fram }
{
    let has_changed = head.look(board);
    tally.note(heard, has_changed, is_return);
}

// The same, where a word may be in hand: in most steps nothing is read, nothing is in hand, and no HEAD is looked at.
#[inline(always)]
#[tactic(auto, using(crate::proofs::Tallies::nothing_ends))]
fn note_events(head: &mut Head, tally: &mut Tally, heard: Heard, is_return: bool, board: &Board)
    requires fits { IfSome head.old.place IsFramWord }
    requires words { words_of (counted tally.old) < 2 ^ 64 - 1 }
    ensures tally { counted tally.new ≡ tallied_all
        (step_ends heard head.old.place head.old.word board.now.fram is_return) (counted tally.old) }
    ensures few { words_of (counted tally.new) ≤ words_of (counted tally.old) + 1 }
    ensures place { head.new.place ≡ head.old.place }
    ensures word { IsHead head.new.place head.new.word board.now.fram }
{
    match heard {
        Heard::Nothing => {
            if head.place.is_some() || tally.in_hand {
                note_ends(head, tally, Heard::Nothing, is_return, board);
            }
        }
        Heard::Once(_) => note_ends(head, tally, heard, is_return, board),
        Heard::Again(_) => note_ends(head, tally, heard, is_return, board),
    }
}

// The sum of the shared numbers of a map in a shadow.
fn sum_of(map: &Map, shadow: &Shadow) -> u16
    ensures { result ≡ total (values_in shadow.now.words (shared_numbers map.now.variables)) % 65536 }
{
    map.rules();
    let mut sum = 0u16;
    let mut rest = map.variables();
    let mut i = 0;
    while let Some((place, behind, next)) = cut_number(rest, i) {
        let number = shadow.number(place.address, place.is_long);
        sum = sum.wrapping_add((number % 65536) as u16);
        rest = behind;
        i = next;
    }
    sum
}

// The line of the word that an instruction made the receiver accept, if it did.
#[inline(always)]
fn write_accepted<S: Sink>(done: &Stepped, report: &mut Report<'_, S>) -> Result<(), Failed>
    ensures same_sink { report.new.sink.ghost_name ≡ report.old.sink.ghost_name }
    ensures bytes { Writes (S.contents report.old.sink.now) (S.contents report.new.sink.now) result (flat_map accepted_line (word_list done.now.accepted)) }
    ensures cause { HasCause (S.faults report.old.sink.now) (S.faults report.new.sink.now) result }
{
    match done.accepted {
        Some(w) => report.accepted(w),
        None => Ok(()),
    }
}
