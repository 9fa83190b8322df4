//! `mean SRC TRACE`: the report of a source's meaning.
ghost use Rattle.std.specs.Prelude.{◌≡◌, ◌≤◌, ◌∷◌, [], IfOk, IfErr, length};
ghost use Rattle.command_texts.specs.alp_io.Count.{HasCause};
ghost use Rattle.command_texts.specs.alp_io.Sink.{Writes};
ghost use Rattle.command_texts.specs.source_report.task_ast.View.{program_of};
ghost use Rattle.source_values.specs.Running.{fresh_run};
ghost use Rattle.command_texts.specs.source_report.MeanReport.{mean_report};
ghost use Rattle.command_texts.specs.source_report.SourceReport.{IsMeanReport};
ghost use Rattle.command_texts.specs.alp_io.Shelf.{NeverFall};
ghost use Rattle.command_texts.specs.command_answers.Ending.{well};
ghost use Rattle.command_texts.specs.command_answers.Outside.{WhereStands};
ghost use Rattle.command_texts.specs.command_answers.CommandAnswers.{CommandAnswers, IsWhole, TextAnswers};
ghost use Rattle.command_texts.specs.command_answers.Outcomes.{FailsBy, FailsWriting, Gains};
ghost use Rattle.plain_commands.specs.Mean.{mean_promise};

use buffered_sink::{BufferedSink, Origin};
use command_texts::answers::{Failure, Status, answer_failure, answer_unread, read_texts};
use command_texts::outside::{Failed, Report, Shelf, Sink};
use command_texts::{
    Accepted, Trace, mean_report_is_determined, source_of, trace_of, write_mean_report,
};
use source_values::SourceRun;
use std::alloc::Global;
use std::marker::Brand;

/// The names of the files of `mean SRC TRACE`.
#[derive(Clone, Copy)]
pub struct MeanNames<'n> {
    /// The file of the source.
    pub source: &'n str,
    /// The file of the trace.
    pub trace: &'n str,
}

const MOST_TRANSITIONS: u64 = 10_000;

// What is written is the report of the source's meaning.
fn report_is_the_meaning(source: &Accepted, trace: &Trace)
    ensures { IsMeanReport source.now.text.items (program_of source.now.checked.source) trace.now.readings
        (mean_report 10000 source.now.text.items (program_of source.now.checked.source) trace.now.readings) }
{
    mean_report_is_determined();
}

// Writes the report of a run that has made no transition, each line by a write of its own.
fn write_by_line<S: Sink>(
    out: &mut S,
    source: &Accepted,
    run: &mut SourceRun,
    trace: &Trace,
) -> Result<(), Failed>
    requires fresh { run.old ≡ fresh_run (program_of source.now.checked.source) }
    ensures bytes { Writes (S.contents out.old) (S.contents out.new) result
        (mean_report 10000 source.now.text.items (program_of source.now.checked.source) trace.now.readings) }
    ensures cause { HasCause (S.faults out.old) (S.faults out.new) result }
{
    let mut report = Report::new(out);
    write_mean_report(
        &mut report,
        source.source(),
        source.checked().source(),
        run,
        trace.readings(),
        MOST_TRANSITIONS,
    )
}

// Writes the report of a run that has made no transition through a buffer before the output, which is given back.
fn write_through<'a, O: Sink, P: Origin>(
    out: &'a mut O,
    source: &Accepted,
    run: &mut SourceRun,
    trace: &Trace,
) -> (&'a mut O, Result<(), Failed>)
    requires place { out.ghost_name ≡ P.place }
    requires contents { O.contents out.old ≡ P.contents }
    requires fresh { run.old ≡ fresh_run (program_of source.now.checked.source) }
    ensures same_sink { result.0.ghost_name ≡ out.entry.ghost_name }
    ensures bytes { Writes (O.contents out.old) (O.contents result.0.now) result.1
        (mean_report 10000 source.now.text.items (program_of source.now.checked.source) trace.now.readings) }
    ensures cause { HasCause (O.faults out.old) (O.faults result.0.now) result.1 }
{
    let mut lines = BufferedSink::<O, P>::new(out);
    let written = write_by_line(&mut lines, source, run, trace);
    lines.finish(written)
}

// Writes the report of a run that has made no transition. Takes no memory.
fn write_report<O: Sink>(
    out: &mut O,
    source: &Accepted,
    run: &mut SourceRun,
    trace: &Trace,
) -> Result<(), Failed>
    requires fresh { run.old ≡ fresh_run (program_of source.now.checked.source) }
    ensures bytes { Writes (O.contents out.old) (O.contents out.new) result
        (mean_report 10000 source.now.text.items (program_of source.now.checked.source) trace.now.readings) }
    ensures cause { HasCause (O.faults out.old) (O.faults out.new) result }
{
    let (_, result) = write_through::<O, Brand>(out, source, run, trace);
    result
}

/// Writes the whole report, once all memory is taken.
fn write_meaning<'t, O: Sink>(
    alloc: Global,
    out: &mut O,
    source: &Accepted,
    trace: &Trace,
) -> Result<(), Failure<'t>>
    ensures faults { O.faults out.old ≤ O.faults out.new }
    ensures whole { IfOk result (λ _. Gains
        (record { old = O.contents out.old; new = O.contents out.new; faults_old = O.faults out.old; faults_new = O.faults out.new })
        (IsMeanReport source.now.text.items (program_of source.now.checked.source) trace.now.readings)) }
    ensures failure { IfErr result (λ e. FailsWriting e
        (record { old = O.contents out.old; new = O.contents out.new; faults_old = O.faults out.old; faults_new = O.faults out.new })
        (IsMeanReport source.now.text.items (program_of source.now.checked.source) trace.now.readings)) }
{
    report_is_the_meaning(source, trace);
    let mut run = SourceRun::new(alloc, source.checked().source())?;
    write_report(out, source, &mut run, trace)?;
    Ok(())
}

/// Writes the report of the source and the trace that the two texts are.
///
/// # Errors
/// `Refused` for the first text that is refused, `Memory` where memory was refused; nothing is written then. `Write` where a
/// write failed, and the output gained a proper prefix of the report.
pub fn mean_texts<'t, O: Sink>(
    alloc: Global,
    names: MeanNames<'t>,
    source: &'t [u8],
    trace: &[u8],
    out: &mut O,
) -> Result<(), Failure<'t>>
    requires first { length source.now ≤ 1048576 }
    requires second { length trace.now ≤ 1048576 }
    ensures faults { O.faults out.old ≤ O.faults out.new }
    ensures whole { IfOk result (λ _. WhereStands (λ shelf. IsWhole (mean_promise names.entry.source.now names.entry.trace.now)
        (source.now ∷ trace.now ∷ []) well shelf
        (record { old = O.contents out.old; new = O.contents out.new; faults_old = O.faults out.old; faults_new = O.faults out.new }))) }
    ensures failure { IfErr result (λ e. WhereStands (λ shelf. FailsBy e (mean_promise names.entry.source.now names.entry.trace.now)
        (source.now ∷ trace.now ∷ []) shelf
        (record { old = O.contents out.old; new = O.contents out.new; faults_old = O.faults out.old; faults_new = O.faults out.new }))) }
{
    let source = source_of(alloc, names.source, source)?;
    let trace = trace_of(alloc, names.trace, trace)?;
    write_meaning(alloc, out, &source, &trace)
}

fn mean_of<O: Sink, E: Sink>(
    alloc: Global,
    names: MeanNames<'_>,
    source: &[u8],
    trace: &[u8],
    out: &mut O,
    err: &mut E,
) -> Status
    requires source { length source.now ≤ 1048576 }
    requires trace { length trace.now ≤ 1048576 }
    ensures out_faults { O.faults out.old ≤ O.faults out.new }
    ensures err_faults { E.faults err.old ≤ E.faults err.new }
    ensures answers { WhereStands (λ shelf. TextAnswers result (mean_promise names.entry.source.now names.entry.trace.now)
        (source.now ∷ trace.now ∷ []) shelf
        (record { old = O.contents out.old; new = O.contents out.new; faults_old = O.faults out.old; faults_new = O.faults out.new })
        (record { old = E.contents err.old; new = E.contents err.new; faults_old = E.faults err.old; faults_new = E.faults err.new })) }
{
    match mean_texts(alloc, names, source, trace, out) {
        Ok(()) => Status::Done,
        Err(failure) => answer_failure(err, failure),
    }
}

/// The answer to `mean SRC TRACE`.
pub fn answer_mean<H: Shelf, O: Sink, E: Sink>(
    alloc: Global,
    names: MeanNames<'_>,
    shelf: &mut H,
    out: &mut O,
    err: &mut E,
) -> Status
    ensures counts { NeverFall (H.counts shelf.old) (H.counts shelf.new) }
    ensures out_faults { O.faults out.old ≤ O.faults out.new }
    ensures err_faults { E.faults err.old ≤ E.faults err.new }
    ensures answers { CommandAnswers result (mean_promise names.entry.source.now names.entry.trace.now)
        (record { old = H.files shelf.old; new = H.files shelf.new; counts_old = H.counts shelf.old; counts_new = H.counts shelf.new })
        (record { old = O.contents out.old; new = O.contents out.new; faults_old = O.faults out.old; faults_new = O.faults out.new })
        (record { old = E.contents err.old; new = E.contents err.new; faults_old = E.faults err.old; faults_new = E.faults err.new }) }
{
    match read_texts(alloc, shelf, names.source, names.trace) {
        Ok(texts) => mean_of(
            alloc,
            names,
            texts.first.as_slice(),
            texts.second.as_slice(),
            out,
            err,
        ),
        Err(unread) => answer_unread(err, unread),
    }
}
