//! The run of a board under a trace.
ghost use Rattle.std.specs.Prelude.{◌≡◌, ◌+◌, ◌-◌, ◌*◌, ◌^◌, ◌<◌, ◌≤◌, ◌∷◌, [], None, OnOk, All, replicate};
ghost use Rattle.alp_io.specs.Count.{HasCause};
ghost use Rattle.alp_io.specs.Sink.{Writes};
ghost use Rattle.alp_io.specs.Report.{end_line, events_line};
ghost use Rattle.energy_trace.specs.TraceValue.{charge_count};
ghost use Rattle.board_run.specs.Charges.{charge_of, charges_of};
ghost use Rattle.board_run.specs.State.{seen_so, known_so, Follows};
ghost use Rattle.board_run.specs.Tally.{no_tally, counted, counts_at, tally_at, words_of};
ghost use Rattle.board_run.specs.Parts.{AreSpent, ended, known_lines};
ghost use Rattle.board_run.specs.Report.{IsEndOf, IsRestOf, IsRunOf, HasWriteCause, events_lines, last_line};

use crate::seen::Seen;
use crate::spend::spend;
use crate::tally::Tally;
use crate::watch::Watch;
use alp_io::{Failed, Reason, Report, Sink};
use energy_trace::{Charge, Trace};
use fram_board::Board;
use msp_step::Stop;
use thiserror::Error;

/// Why a run ended.
#[derive(Clone, Copy, Debug, PartialEq, Eq)]
pub enum RunEnd {
    /// All charges are spent.
    Charges,
    /// A reading was wanted and none was left.
    Readings,
    /// The CPU was switched off.
    Off,
}

/// Why a run has no end of its own.
#[derive(Clone, Copy, Debug, PartialEq, Eq, Error)]
pub enum RunFault {
    /// The word at PC is no instruction.
    #[error("an illegal instruction at {pc}")]
    Illegal { pc: u16, word: u16 },
    /// The instruction at PC made an access that nothing serves.
    #[error("a bus fault of the instruction at {pc}")]
    Bus { pc: u16, address: u16 },
    /// The report can't be written.
    #[error("the report can't be written")]
    Write,
}

impl From<Failed> for RunFault {
    ghost use Rattle.std.specs.Prelude.{◌≡◌};
    ghost use Rattle.board_run.specs.declared.trace_run.RunFault.TheVariants.{Write};

    ghost from_gives = { λ _ e. e ≡ Write };

    fn from(_failed: Failed) -> Self {
        RunFault::Write
    }
}

// One charge, from its power-up on; answers why the board stopped, if it did.
fn spend_one<S: Sink>(
    board: &mut Board,
    charge: &Charge,
    watch: &mut Seen<'_>,
    report: &mut Report<'_, S>,
) -> Result<Option<Stop>, Failed>
    requires follows { Follows watch.old board.old.fram }
    requires accepted { board.old.receiver.accepted < 2 ^ 63 + 2 ^ 62 }
    requires repeats { board.old.receiver.repeats < 2 ^ 63 + 2 ^ 62 }
    requires words { words_of (counted watch.old.tally) < 2 ^ 63 + 2 ^ 62 }
    ensures same_sink { report.new.sink.ghost_name ≡ report.old.sink.ghost_name }
    ensures follows { OnOk result (Follows watch.new board.new.fram) }
    ensures spent { AreSpent (known_so watch.old) (charge_of charge.now ∷ []) board.old
        (S.contents report.old.sink.now) (S.contents report.new.sink.now) result board.new (known_so watch.new) 4294967295 }
    ensures cause { HasCause (S.faults report.old.sink.now) (S.faults report.new.sink.now) result }
{
    board.power_up(charge.fill);
    watch.note_power_up(board);
    spend(board, charge.kind, charge.n, watch, report)
}

// A charge as often as it comes.
fn spend_repeated<S: Sink>(
    board: &mut Board,
    charge: &Charge,
    watch: &mut Seen<'_>,
    report: &mut Report<'_, S>,
) -> Result<Option<Stop>, Failed>
    requires follows { Follows watch.old board.old.fram }
    requires accepted { board.old.receiver.accepted + 4294967295 * charge.now.times < 2 ^ 63 + 2 ^ 62 }
    requires repeats { board.old.receiver.repeats + 4294967295 * charge.now.times < 2 ^ 63 + 2 ^ 62 }
    requires words { words_of (counted watch.old.tally) + 4294967295 * charge.now.times < 2 ^ 63 + 2 ^ 62 }
    ensures same_sink { report.new.sink.ghost_name ≡ report.old.sink.ghost_name }
    ensures follows { OnOk result (Follows watch.new board.new.fram) }
    ensures spent { AreSpent (known_so watch.old) (replicate charge.now.times (charge_of charge.now)) board.old
        (S.contents report.old.sink.now) (S.contents report.new.sink.now) result board.new (known_so watch.new) (4294967295 * charge.now.times) }
    ensures cause { HasCause (S.faults report.old.sink.now) (S.faults report.new.sink.now) result }
{
    let mut left = charge.times;
    while left > 0 {
        let stop = spend_one(board, charge, watch, report)?;
        if stop.is_some() {
            return Ok(stop);
        }
        left -= 1;
    }
    Ok(None)
}

// All charges of a trace.
fn spend_all<S: Sink>(
    board: &mut Board,
    charges: &[Charge],
    watch: &mut Seen<'_>,
    report: &mut Report<'_, S>,
) -> Result<Option<Stop>, Failed>
    requires few { charge_count charges.now ≤ 1000000 }
    requires follows { Follows watch.old board.old.fram }
    requires accepted { board.old.receiver.accepted < 2 ^ 63 }
    requires repeats { board.old.receiver.repeats < 2 ^ 63 }
    requires words { words_of (counted watch.old.tally) < 2 ^ 63 }
    ensures same_sink { report.new.sink.ghost_name ≡ report.old.sink.ghost_name }
    ensures follows { OnOk result (Follows watch.new board.new.fram) }
    ensures spent { AreSpent (known_so watch.old) (charges_of charges.now) board.old
        (S.contents report.old.sink.now) (S.contents report.new.sink.now) result board.new (known_so watch.new) (4294967295 * charge_count charges.now) }
    ensures cause { HasCause (S.faults report.old.sink.now) (S.faults report.new.sink.now) result }
{
    for charge in charges {
        let stop = spend_repeated(board, charge, watch, report)?;
        if stop.is_some() {
            return Ok(stop);
        }
    }
    Ok(None)
}

fn write_end<S: Sink>(
    reason: Reason,
    board: &Board,
    watch: &Seen<'_>,
    report: &mut Report<'_, S>,
) -> Result<(), Failed>
    ensures same_sink { report.new.sink.ghost_name ≡ report.old.sink.ghost_name }
    ensures bytes { Writes (S.contents report.old.sink.now) (S.contents report.new.sink.now) result
        (end_line reason (seen_so watch.now).completed board.now.receiver.accepted board.now.receiver.repeats) }
    ensures cause { HasCause (S.faults report.old.sink.now) (S.faults report.new.sink.now) result }
{
    report.end(
        reason,
        watch.state.completed,
        board.accepted(),
        board.repeats(),
    )
}

// What became of events, where a run ended so.
fn last_tally(stop: Option<Stop>, board: &Board, watch: &Seen<'_>) -> Tally
    requires { words_of (counted watch.now.tally) < 2 ^ 64 - 1 }
    ensures { counted result ≡ tally_at (ended stop) board.now (counted watch.now.tally) }
{
    let mut tally = watch.tally;
    if stop.is_some() {
        tally.read(board.heard());
    }
    tally
}

// The line of what became of events, where there are any.
fn write_events<S: Sink>(
    events: &[(u32, u16)],
    stop: Option<Stop>,
    board: &Board,
    watch: &Seen<'_>,
    report: &mut Report<'_, S>,
) -> Result<(), Failed>
    requires { words_of (counted watch.now.tally) < 2 ^ 63 + 2 ^ 62 }
    ensures same_sink { report.new.sink.ghost_name ≡ report.old.sink.ghost_name }
    ensures bytes { Writes (S.contents report.old.sink.now) (S.contents report.new.sink.now) result
        (events_lines events.now (counts_at (ended stop) board.now (counted watch.now.tally))) }
    ensures cause { HasCause (S.faults report.old.sink.now) (S.faults report.new.sink.now) result }
{
    if events.is_empty() {
        return Ok(());
    }
    let tally = last_tally(stop, board, watch);
    report.events(board.arisen(), tally.accepted, board.missed() + tally.lost)
}

// The last line of the report of a run that ended so.
fn write_last<S: Sink>(
    stop: Option<Stop>,
    board: &Board,
    watch: &Seen<'_>,
    report: &mut Report<'_, S>,
) -> Result<RunEnd, RunFault>
    ensures same_sink { report.new.sink.ghost_name ≡ report.old.sink.ghost_name }
    ensures end { IsEndOf (ended stop) (last_line (seen_so watch.now) (ended stop) board.now)
        (S.contents report.old.sink.now) (S.contents report.new.sink.now) result }
    ensures cause { HasWriteCause (S.faults report.old.sink.now) (S.faults report.new.sink.now) result }
{
    match stop {
        None => {
            write_end(Reason::Charges, board, watch, report)?;
            Ok(RunEnd::Charges)
        }
        Some(Stop::Off) => {
            write_end(Reason::Off, board, watch, report)?;
            Ok(RunEnd::Off)
        }
        Some(Stop::NoReading) => {
            write_end(Reason::Readings, board, watch, report)?;
            Ok(RunEnd::Readings)
        }
        Some(Stop::Illegal { pc, word }) => {
            report.illegal(pc, word)?;
            Err(RunFault::Illegal { pc, word })
        }
        Some(Stop::Bus { pc, address }) => {
            report.bus(pc, address)?;
            Err(RunFault::Bus { pc, address })
        }
    }
}

// The last lines of the report of a run under these events that ended so.
fn finish<S: Sink>(
    stop: Option<Stop>,
    events: &[(u32, u16)],
    board: &Board,
    watch: &Seen<'_>,
    report: &mut Report<'_, S>,
) -> Result<RunEnd, RunFault>
    requires { words_of (counted watch.now.tally) < 2 ^ 63 + 2 ^ 62 }
    ensures same_sink { report.new.sink.ghost_name ≡ report.old.sink.ghost_name }
    ensures end { IsEndOf (ended stop) (known_lines (known_so watch.now) events.now (ended stop) board.now)
        (S.contents report.old.sink.now) (S.contents report.new.sink.now) result }
    ensures cause { HasWriteCause (S.faults report.old.sink.now) (S.faults report.new.sink.now) result }
{
    write_events(events, stop, board, watch, report)?;
    write_last(stop, board, watch, report)
}

/// The run behind the line of the bound.
pub fn run_charges<S: Sink>(
    board: &mut Board,
    trace: &Trace,
    watch: &mut Seen<'_>,
    report: &mut Report<'_, S>,
) -> Result<RunEnd, RunFault>
    requires follows { Follows watch.old board.old.fram }
    requires accepted { board.old.receiver.accepted < 2 ^ 63 }
    requires repeats { board.old.receiver.repeats < 2 ^ 63 }
    requires tally { counted watch.old.tally ≡ no_tally }
    ensures same_sink { report.new.sink.ghost_name ≡ report.old.sink.ghost_name }
    ensures run { IsRestOf (seen_so watch.old) (charges_of trace.now.charges) trace.now.events board.old
        (S.contents report.old.sink.now) (S.contents report.new.sink.now) result board.new (seen_so watch.new) }
    ensures cause { HasWriteCause (S.faults report.old.sink.now) (S.faults report.new.sink.now) result }
{
    let stop = spend_all(board, trace.charges(), watch, report)?;
    finish(stop, trace.events(), board, watch, report)
}

/// The run of a board under a trace, which needs a board and a watch that are new from one image, and the board the trace's
/// readings and events. Its report is written line by line, and last how the run ended, which is answered too. Where the trace
/// has events, a line in front of the last says how many arose, were accepted and were lost. Without a map each accepted word has its line at
/// once. With a map the bound comes first, and each completed transition has its line, then one for each word accepted since
/// the last (the first 256, then how many more), and one for each shared word that has changed since.
///
/// For each charge in order power comes up with its fill word; then the board makes steps while the charge pays for the next
/// one, in cycles or in steps; a charge that can't pay is spent. A step is an instruction or the acceptance of an event. The run ends with `Charges` where
/// all are spent, `Off` where CPUOFF is set, and `Readings` where a reading is wanted and none is left. `Illegal` and `Bus` are the board's faults, which
/// the report's last line says. No memory is taken.
///
/// After `Write` the sink's count of faults rose, and it has a proper prefix of the report more. The board stands right behind
/// the step whose lines broke off, and those of all steps before it are whole; where the bound's line broke off it is as it was
/// lent, and where the last line did it is the one at the run's end.
pub fn run<S: Sink>(
    board: &mut Board,
    trace: &Trace,
    watch: &mut Watch<'_>,
    report: &mut Report<'_, S>,
) -> Result<RunEnd, RunFault>
    requires accepted { board.old.receiver.accepted < 2 ^ 63 }
    requires repeats { board.old.receiver.repeats < 2 ^ 63 }
    ensures same_sink { report.new.sink.ghost_name ≡ report.old.sink.ghost_name }
    ensures run { IsRunOf watch.old (charges_of trace.now.charges) trace.now.events board.old
        (S.contents report.old.sink.now) (S.contents report.new.sink.now) result board.new watch.new }
    ensures cause { HasWriteCause (S.faults report.old.sink.now) (S.faults report.new.sink.now) result }
{
    watch.write_bound(report)?;
    watch.run_charges(board, trace, report)
}
