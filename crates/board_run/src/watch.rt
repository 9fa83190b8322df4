//! What is known of a run while it is made.
use crate::seen::Seen;
use crate::stepwise::StepwiseRun;
use crate::trace_run::{RunEnd, RunFault, run_charges};
use alp_io::{Failed, Report, Sink};
use energy_trace::{Charge, ChargeKind, Trace};
use fram_board::Board;
use image_text::Image;
use std::alloc::{AllocError, Global};
use std::marker::Model;

/// What is known of a run so far: with a map, its transitions, the shared numbers at the last one and the words accepted since.
#[derive(Drop)]
pub struct Watch<'a> {
    seen: Seen<'a>,
}

impl<'a> Model for Watch<'a> {
    ghost use Rattle.board_run.specs.History.{History};
    ghost use Rattle.board_run.specs.Watched.{watched};

    ghost Value = { History };

    ghost view = { watched };
}

impl<'a> Watch<'a> {
    ghost use Rattle.std.specs.Prelude.{◌≡◌, ◌%◌, ◌^◌, ◌<◌, IfOk};
    ghost use Rattle.alp_io.specs.Count.{HasCause};
    ghost use Rattle.alp_io.specs.Sink.{Writes};
    ghost use Rattle.board_run.specs.Charges.{charges_of};
    ghost use Rattle.board_run.specs.History.{start_of, bound_lines, total};
    ghost use Rattle.board_run.specs.Report.{IsRestOf, HasWriteCause};
    ghost use Rattle.board_run.specs.Tally.{no_tally};
    ghost use Rattle.board_run.specs.Stepwise.{state_of, known_of, not_begun, IsGoing};

    /// A watch for a board that is new from this image. Fails where memory is refused.
    pub fn new(alloc: Global, image: &'a Image) -> Result<Watch<'a>, AllocError>
        ensures { IfOk result (λ w. w ≡ start_of image.now) }
    {
        Ok(Watch {
            seen: Seen::of(alloc, image)?,
        })
    }

    /// How many transitions were completed; 0 for an image without a map.
    pub fn completed(&self) -> u64
        ensures { result ≡ self.now.completed }
    {
        self.seen.state.completed
    }

    /// The sum, modulo 65536, of all shared numbers at the last completed transition, at first of the image's; 0 without a map.
    pub fn sum(&self) -> u16
        ensures { result ≡ total self.now.shared % 65536 }
    {
        self.seen.sum()
    }

    /// Writes the line of the bound, if there is a map.
    pub fn write_bound<S: Sink>(&self, report: &mut Report<'_, S>) -> Result<(), Failed>
        ensures same_sink { report.new.sink.ghost_name ≡ report.old.sink.ghost_name }
        ensures bytes { Writes (S.contents report.old.sink.now) (S.contents report.new.sink.now) result (bound_lines self.now.map) }
        ensures cause { HasCause (S.faults report.old.sink.now) (S.faults report.new.sink.now) result }
    {
        self.seen.write_bound(report)
    }

    /// A run of this board under the charges of a trace, told from here on, that is made step by step.
    pub fn stepwise<'r>(&'r mut self, board: &'r mut Board, trace: &'r Trace) -> StepwiseRun<'r, 'a>
        ensures state { state_of result ≡ not_begun board.old (charges_of trace.now.charges) }
        ensures known { known_of result ≡ record { history = self.old; tally = no_tally } }
        ensures going { IsGoing result }
    {
        self.seen.begin(board);
        StepwiseRun {
            board,
            watch: &mut self.seen,
            charges: trace.charges(),
            next: 0,
            charge: Charge {
                kind: ChargeKind::Steps,
                n: 0,
                fill: 0,
                times: 0,
            },
            again: 0,
            left: 0,
            has_ended: false,
        }
    }

    /// The run behind the line of the bound.
    pub(crate) fn run_charges<S: Sink>(
        &mut self,
        board: &mut Board,
        trace: &Trace,
        report: &mut Report<'_, S>,
    ) -> Result<RunEnd, RunFault>
        requires accepted { board.old.receiver.accepted < 2 ^ 63 }
        requires repeats { board.old.receiver.repeats < 2 ^ 63 }
        ensures same_sink { report.new.sink.ghost_name ≡ report.old.sink.ghost_name }
        ensures run { IsRestOf self.old (charges_of trace.now.charges) trace.now.events board.old
            (S.contents report.old.sink.now) (S.contents report.new.sink.now) result board.new self.new }
        ensures cause { HasWriteCause (S.faults report.old.sink.now) (S.faults report.new.sink.now) result }
    {
        self.seen.begin(board);
        run_charges(board, trace, &mut self.seen, report)
    }
}
