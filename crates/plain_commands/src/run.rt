//! `run IMAGE TRACE`: the report of an image's run.
ghost use Rattle.std.specs.Prelude.{◌≡◌, ◌<◌, ◌≤◌, ◌^◌, ◌∷◌, [], IfOk, IfErr, length};
ghost use Rattle.command_texts.specs.alp_io.Count.{HasCause};
ghost use Rattle.board_run.specs.History.{start_of};
ghost use Rattle.plain_commands.specs.RunReport.{IsReportFrom};
ghost use Rattle.command_texts.specs.alp_io.Shelf.{NeverFall};
ghost use Rattle.plain_commands.specs.Ends as ends;
ghost use Rattle.plain_commands.specs.Ends.{ending_of, WritesRun};
ghost use Rattle.command_texts.specs.command_answers.Ending.{Ending};
ghost use Rattle.command_texts.specs.command_answers.Outside.{WhereStands};
ghost use Rattle.command_texts.specs.command_answers.CommandAnswers.{CommandAnswers, IsWhole, TextAnswers};
ghost use Rattle.command_texts.specs.command_answers.Outcomes.{FailsBy, FailsWriting, Gains};
ghost use Rattle.plain_commands.specs.Run.{run_promise};

use board_run::{RunEnd, RunFault, Watch, run};
use buffered_sink::{BufferedSink, Origin};
use command_texts::answers::{
    Failure, Status, answer_failure, answer_unread, messages, read_texts,
};
use command_texts::outside::{Failed, Reason, Report, Shelf, Sink};
use command_texts::{Image, Trace, image_of, trace_of};
use fram_board::Board;
use std::alloc::Global;
use std::marker::Brand;

/// The names of the files of `run IMAGE TRACE`.
#[derive(Clone, Copy)]
pub struct RunNames<'n> {
    /// The file of the image.
    pub image: &'n str,
    /// The file of the trace.
    pub trace: &'n str,
}

/// How a run ended whose report is whole.
#[derive(Clone, Copy)]
pub enum RunEnding {
    /// Its charges or readings ran out, or the CPU was switched off.
    Well,
    /// It met a word that is no instruction, or a bus fault.
    AtFault,
}

/// The word of the last line for how a run ended well.
pub fn reason_of(end: RunEnd) -> Reason
    ensures { result ≡ ends.reason_of end }
{
    match end {
        RunEnd::Charges => Reason::Charges,
        RunEnd::Readings => Reason::Readings,
        RunEnd::Off => Reason::Off,
    }
}

// Writes the lines of a board's run.
fn write_lines<S: Sink>(
    report: &mut Report<'_, S>,
    trace: &Trace,
    board: &mut Board,
    watch: &mut Watch<'_>,
) -> Result<RunEnding, Failed>
    requires accepted { board.old.receiver.accepted < 2 ^ 63 }
    requires repeats { board.old.receiver.repeats < 2 ^ 63 }
    ensures same_sink { report.new.sink.ghost_name ≡ report.old.sink.ghost_name }
    ensures bytes { WritesRun board.old watch.old trace.now (S.contents report.old.sink.now) (S.contents report.new.sink.now) result }
    ensures cause { HasCause (S.faults report.old.sink.now) (S.faults report.new.sink.now) result }
{
    match run(board, trace, watch, report) {
        Ok(_) => Ok(RunEnding::Well),
        Err(RunFault::Illegal { .. }) => Ok(RunEnding::AtFault),
        Err(RunFault::Bus { .. }) => Ok(RunEnding::AtFault),
        Err(RunFault::Write) => Err(Failed),
    }
}

// Writes the report of a board's run, each line by a write of its own.
fn write_by_line<S: Sink>(
    out: &mut S,
    trace: &Trace,
    board: &mut Board,
    watch: &mut Watch<'_>,
) -> Result<RunEnding, Failed>
    requires accepted { board.old.receiver.accepted < 2 ^ 63 }
    requires repeats { board.old.receiver.repeats < 2 ^ 63 }
    ensures bytes { WritesRun board.old watch.old trace.now (S.contents out.old) (S.contents out.new) result }
    ensures cause { HasCause (S.faults out.old) (S.faults out.new) result }
{
    let mut report = Report::new(out);
    write_lines(&mut report, trace, board, watch)
}

// Writes the report of a board's run through a buffer before the output, which is given back.
fn write_through<'a, O: Sink, P: Origin>(
    out: &'a mut O,
    trace: &Trace,
    board: &mut Board,
    watch: &mut Watch<'_>,
) -> (&'a mut O, Result<RunEnding, Failed>)
    requires place { out.ghost_name ≡ P.place }
    requires contents { O.contents out.old ≡ P.contents }
    requires accepted { board.old.receiver.accepted < 2 ^ 63 }
    requires repeats { board.old.receiver.repeats < 2 ^ 63 }
    ensures same_sink { result.0.ghost_name ≡ out.entry.ghost_name }
    ensures bytes { WritesRun board.old watch.old trace.now (O.contents out.old) (O.contents result.0.now) result.1 }
    ensures cause { HasCause (O.faults out.old) (O.faults result.0.now) result.1 }
{
    let mut lines = BufferedSink::<O, P>::new(out);
    let written = write_by_line(&mut lines, trace, board, watch);
    lines.finish(written)
}

/// Writes the report of a board's run, told from what its watch knows. Takes no memory.
pub fn write_report<O: Sink>(
    out: &mut O,
    trace: &Trace,
    board: &mut Board,
    watch: &mut Watch<'_>,
) -> Result<RunEnding, Failed>
    requires accepted { board.old.receiver.accepted < 2 ^ 63 }
    requires repeats { board.old.receiver.repeats < 2 ^ 63 }
    ensures bytes { WritesRun board.old watch.old trace.now (O.contents out.old) (O.contents out.new) result }
    ensures cause { HasCause (O.faults out.old) (O.faults out.new) result }
{
    let (_, result) = write_through::<O, Brand>(out, trace, board, watch);
    result
}

/// Writes the whole report of a board's run, told from the image that the board has, once all memory is taken.
///
/// # Errors
/// `Memory` where memory was refused; nothing is written then. `Write` where a write failed, and the output gained a proper prefix of the
/// report.
pub fn write_run<'t, O: Sink>(
    alloc: Global,
    out: &mut O,
    board: &mut Board,
    image: &Image,
    trace: &Trace,
) -> Result<RunEnding, Failure<'t>>
    requires accepted { board.old.receiver.accepted < 2 ^ 63 }
    requires repeats { board.old.receiver.repeats < 2 ^ 63 }
    ensures faults { O.faults out.old ≤ O.faults out.new }
    ensures whole { IfOk result (λ ending. Gains
        (record { old = O.contents out.old; new = O.contents out.new; faults_old = O.faults out.old; faults_new = O.faults out.new })
        (IsReportFrom board.old (start_of image.now) trace.now (ending_of ending))) }
    ensures failure { IfErr result (λ e. FailsWriting e
        (record { old = O.contents out.old; new = O.contents out.new; faults_old = O.faults out.old; faults_new = O.faults out.new })
        (λ output. (ending : Ending) × IsReportFrom board.old (start_of image.now) trace.now ending output)) }
{
    let mut watch = Watch::new(alloc, image)?;
    let ending = write_report(out, trace, board, &mut watch)?;
    Ok(ending)
}

/// Writes the report of the run of the image and the trace that the two texts are, and answers how it ended.
///
/// # Errors
/// `Refused` for the first text that is refused, `Memory` where memory was refused; nothing is written then. `Write` where a
/// write failed, and the output gained a proper prefix of the report.
pub fn run_texts<'t, O: Sink>(
    alloc: Global,
    names: RunNames<'t>,
    image: &[u8],
    trace: &[u8],
    out: &mut O,
) -> Result<RunEnding, Failure<'t>>
    requires image { length image.now ≤ 1048576 }
    requires trace { length trace.now ≤ 1048576 }
    ensures faults { O.faults out.old ≤ O.faults out.new }
    ensures whole { IfOk result (λ ending. WhereStands (λ shelf. IsWhole (run_promise names.entry.image.now names.entry.trace.now)
        (image.now ∷ trace.now ∷ []) (ending_of ending) shelf
        (record { old = O.contents out.old; new = O.contents out.new; faults_old = O.faults out.old; faults_new = O.faults out.new }))) }
    ensures failure { IfErr result (λ e. WhereStands (λ shelf. FailsBy e (run_promise names.entry.image.now names.entry.trace.now)
        (image.now ∷ trace.now ∷ []) shelf
        (record { old = O.contents out.old; new = O.contents out.new; faults_old = O.faults out.old; faults_new = O.faults out.new }))) }
{
    let image = image_of(alloc, names.image, image)?;
    let trace = trace_of(alloc, names.trace, trace)?;
    let mut board = Board::new(alloc, &image, trace.readings(), trace.events())?;
    write_run(alloc, out, &mut board, &image, &trace)
}

fn run_of<O: Sink, E: Sink>(
    alloc: Global,
    names: RunNames<'_>,
    image: &[u8],
    trace: &[u8],
    out: &mut O,
    err: &mut E,
) -> Status
    requires image { length image.now ≤ 1048576 }
    requires trace { length trace.now ≤ 1048576 }
    ensures out_faults { O.faults out.old ≤ O.faults out.new }
    ensures err_faults { E.faults err.old ≤ E.faults err.new }
    ensures answers { WhereStands (λ shelf. TextAnswers result (run_promise names.entry.image.now names.entry.trace.now)
        (image.now ∷ trace.now ∷ []) shelf
        (record { old = O.contents out.old; new = O.contents out.new; faults_old = O.faults out.old; faults_new = O.faults out.new })
        (record { old = E.contents err.old; new = E.contents err.new; faults_old = E.faults err.old; faults_new = E.faults err.new })) }
{
    match run_texts(alloc, names, image, trace, out) {
        Ok(RunEnding::Well) => Status::Done,
        Ok(RunEnding::AtFault) => {
            messages::tell_machine_fault(err);
            Status::MachineFault
        }
        Err(failure) => answer_failure(err, failure),
    }
}

/// The answer to `run IMAGE TRACE`.
pub fn answer_run<H: Shelf, O: Sink, E: Sink>(
    alloc: Global,
    names: RunNames<'_>,
    shelf: &mut H,
    out: &mut O,
    err: &mut E,
) -> Status
    ensures counts { NeverFall (H.counts shelf.old) (H.counts shelf.new) }
    ensures out_faults { O.faults out.old ≤ O.faults out.new }
    ensures err_faults { E.faults err.old ≤ E.faults err.new }
    ensures answers { CommandAnswers result (run_promise names.entry.image.now names.entry.trace.now)
        (record { old = H.files shelf.old; new = H.files shelf.new; counts_old = H.counts shelf.old; counts_new = H.counts shelf.new })
        (record { old = O.contents out.old; new = O.contents out.new; faults_old = O.faults out.old; faults_new = O.faults out.new })
        (record { old = E.contents err.old; new = E.contents err.new; faults_old = E.faults err.old; faults_new = E.faults err.new }) }
{
    match read_texts(alloc, shelf, names.image, names.trace) {
        Ok(texts) => run_of(
            alloc,
            names,
            texts.first.as_slice(),
            texts.second.as_slice(),
            out,
            err,
        ),
        Err(unread) => answer_unread(err, unread),
    }
}
