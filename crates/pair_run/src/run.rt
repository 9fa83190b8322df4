//! The run of a pair.
ghost use Rattle.std.specs.Prelude.{◌≡◌, ◌*◌, ◌^◌, ◌<◌, OnOk, length};
ghost use Rattle.alp_io.specs.Count.{HasCause};
ghost use Rattle.alp_io.specs.Sink.{Writes};
ghost use Rattle.alp_io.specs.Report.{pair_line};
ghost use Rattle.board_run.specs.Charges.{charges_of};
ghost use Rattle.pair_run.specs.Actions.{all_actions};
ghost use Rattle.pair_run.specs.Sides.{IsGoingOn, HasRoomFor, most_steps, AreDone};
ghost use Rattle.pair_run.specs.Told.{pair_at_first, IsTold};

use crate::listener::Listener;
use crate::rounds::make_entry;
use crate::sides::{A, B, Sides, write_bound};
use alp_io::{Failed, Report, Sink};
use board_run::Watch;
use buffered_sink::{BufferedSink, Holds, Origin};
use energy_trace::Trace;
use fram_board::Board;
use radio_link::{Air, Entry, Schedule};
use std::marker::Brand;

// What all entries have done, unless both runs have ended.
fn make_entries<S: Holds>(
    entries: &[Entry],
    sides: &mut Sides<'_, '_, '_>,
    sink: &mut S,
) -> Result<(), Failed>
    requires going { IsGoingOn sides.old }
    requires room { HasRoomFor sides.old (most_steps * length entries.now) }
    ensures going { OnOk result (IsGoingOn sides.new) }
    ensures done { AreDone (all_actions entries.now) sides.old (S.contents sink.old) (S.contents sink.new) result sides.new }
    ensures cause { HasCause (S.faults sink.old) (S.faults sink.new) result }
{
    for entry in entries {
        if sides.is_full() {
            return Ok(());
        }
        if sides.have_ended() {
            return Ok(());
        }
        make_entry(entry, sides, sink)?;
    }
    Ok(())
}

// The last line.
fn write_last<S: Sink>(sink: &mut S, accepted: u64, consumed: u64) -> Result<(), Failed>
    ensures bytes { Writes (S.contents sink.old) (S.contents sink.new) result (pair_line accepted consumed) }
    ensures cause { HasCause (S.faults sink.old) (S.faults sink.new) result }
{
    let mut report = Report::new(sink);
    report.pair(accepted, consumed)
}

// The report of a pair, on a sink that takes short pieces whole.
fn write_lines<S: Holds>(
    a: &mut Board,
    a_trace: &Trace,
    a_watch: &mut Watch<'_>,
    b: &mut Board,
    b_trace: &Trace,
    b_watch: &mut Watch<'_>,
    air: &mut Air,
    schedule: &Schedule,
    sink: &mut S,
) -> Result<(), Failed>
    requires a_accepted { a.old.receiver.accepted < 2 ^ 63 }
    requires a_repeats { a.old.receiver.repeats < 2 ^ 63 }
    requires b_accepted { b.old.receiver.accepted < 2 ^ 63 }
    requires b_repeats { b.old.receiver.repeats < 2 ^ 63 }
    ensures told { IsTold (pair_at_first a.old (charges_of a_trace.now.charges) b.old (charges_of b_trace.now.charges) air.old)
        a_watch.old b_watch.old schedule.now (S.contents sink.old) (S.contents sink.new) result }
    ensures cause { HasCause (S.faults sink.old) (S.faults sink.new) result }
{
    write_bound(sink, A, a_watch)?;
    write_bound(sink, B, b_watch)?;
    let a = a_watch.stepwise(a, a_trace);
    let b = b_watch.stepwise(b, b_trace);
    let listener = Listener::new(b.answer_place(), b.events_taken());
    let mut sides = Sides {
        a,
        b,
        air,
        listener,
    };
    make_entries(schedule.entries(), &mut sides, sink)?;
    write_last(sink, sides.b.accepted_events(), sides.listener.consumed)
}

// The same through a buffer before any sink, which is given back.
fn write_through<'s, S: Sink, P: Origin>(
    a: &mut Board,
    a_trace: &Trace,
    a_watch: &mut Watch<'_>,
    b: &mut Board,
    b_trace: &Trace,
    b_watch: &mut Watch<'_>,
    air: &mut Air,
    schedule: &Schedule,
    sink: &'s mut S,
) -> (&'s mut S, Result<(), Failed>)
    requires place { sink.ghost_name ≡ P.place }
    requires contents { S.contents sink.old ≡ P.contents }
    requires a_accepted { a.old.receiver.accepted < 2 ^ 63 }
    requires a_repeats { a.old.receiver.repeats < 2 ^ 63 }
    requires b_accepted { b.old.receiver.accepted < 2 ^ 63 }
    requires b_repeats { b.old.receiver.repeats < 2 ^ 63 }
    ensures same_sink { result.0.ghost_name ≡ sink.entry.ghost_name }
    ensures told { IsTold (pair_at_first a.old (charges_of a_trace.now.charges) b.old (charges_of b_trace.now.charges) air.old)
        a_watch.old b_watch.old schedule.now (S.contents sink.old) (S.contents result.0.now) result.1 }
    ensures cause { HasCause (S.faults sink.old) (S.faults result.0.now) result.1 }
{
    let mut lines = BufferedSink::<S, P>::new(sink);
    let written = write_lines(
        a, a_trace, a_watch, b, b_trace, b_watch, air, schedule, &mut lines,
    );
    lines.finish(written)
}

/// Runs two boards over a radio, step by step as a schedule says, and writes the report: the bounds of both, the lines of both as they come,
/// with `a ` or `b ` in front, and last how many words B accepted and how many of them its committed attempts consumed. The words that A
/// tells as accepted are those that B accepted. A board's first step powers it up; one whose run has ended does nothing. The run ends with the
/// schedule, or where B has accepted 32,768 words. Takes no memory.
///
/// # Errors
/// `Failed` where a write failed; the sink then gained a proper prefix of the report.
pub fn run_pair<S: Sink>(
    a: &mut Board,
    a_trace: &Trace,
    a_watch: &mut Watch<'_>,
    b: &mut Board,
    b_trace: &Trace,
    b_watch: &mut Watch<'_>,
    air: &mut Air,
    schedule: &Schedule,
    sink: &mut S,
) -> Result<(), Failed>
    requires a_accepted { a.old.receiver.accepted < 2 ^ 63 }
    requires a_repeats { a.old.receiver.repeats < 2 ^ 63 }
    requires b_accepted { b.old.receiver.accepted < 2 ^ 63 }
    requires b_repeats { b.old.receiver.repeats < 2 ^ 63 }
    ensures told { IsTold (pair_at_first a.old (charges_of a_trace.now.charges) b.old (charges_of b_trace.now.charges) air.old)
        a_watch.old b_watch.old schedule.now (S.contents sink.old) (S.contents sink.new) result }
    ensures cause { HasCause (S.faults sink.old) (S.faults sink.new) result }
{
    let (_, result) = write_through::<S, Brand>(
        a, a_trace, a_watch, b, b_trace, b_watch, air, schedule, sink,
    );
    result
}
