//! `try SRC TRACE IMAGE` and `undo SRC TRACE IMAGE`: the image of a source, put as an image text, and the report of its run on the trace.
ghost use Rattle.std.specs.Prelude.{◌≡◌, ◌<◌, ◌≤◌, ◌^◌, ◌∷◌, [], ℕ, List, IfOk, IfErr, length};
ghost use Rattle.plain_commands.specs.alp_io.Shelf.{NeverFall};
ghost use Rattle.plain_commands.specs.command_answers.Ending.{Ending, well};
ghost use Rattle.compiler_commands.specs.Try.{trial_promise, try_promise, undo_promise};
ghost use Rattle.plain_commands.specs.RunReport.{IsReportFrom};
ghost use Rattle.plain_commands.specs.command_answers.CommandAnswers.{CommandAnswers, IsWhole, TextAnswers};
ghost use Rattle.plain_commands.specs.command_answers.Outcomes.{Breaks, FailsBy, Gains};

use crate::built::built_of;
use memory_map::Logging;
use plain_commands::answers::{
    Failure, Status, answer_failure, answer_unread, put_file, read_texts,
};
use plain_commands::board_runs::Watch;
use plain_commands::boards::Board;
use plain_commands::outside::{Failed, Shelf, Sink};
use plain_commands::texts::{Trace, source_of, trace_of};
use plain_commands::{RunEnding, write_report};
use std::alloc::Global;

/// The names of the files of `try SRC TRACE IMAGE` or `undo SRC TRACE IMAGE`.
#[derive(Clone, Copy)]
pub struct TryNames<'n> {
    /// The file of the source.
    pub source: &'n str,
    /// The file of the trace.
    pub trace: &'n str,
    /// The file that is to hold the image.
    pub image: &'n str,
}

/// The texts of a trial.
#[derive(Clone, Copy)]
pub struct TryTexts<'t> {
    /// The bytes of the source.
    pub source: &'t [u8],
    /// The bytes of the trace.
    pub trace: &'t [u8],
}

// Writes the report of a board's run that ends well. Takes no memory.
fn write_trial<O: Sink>(
    out: &mut O,
    trace: &Trace,
    board: &mut Board,
    watch: &mut Watch<'_>,
) -> Result<(), Failed>
    requires accepted { board.old.receiver.accepted < 2 ^ 63 }
    requires repeats { board.old.receiver.repeats < 2 ^ 63 }
    requires ends_well { (ending : Ending) (output : List ℕ) → IsReportFrom board.old watch.old trace.now ending output → ending ≡ well }
    ensures faults { O.faults out.old ≤ O.faults out.new }
    ensures whole { IfOk result (λ _. Gains
        (record { old = O.contents out.old; new = O.contents out.new; faults_old = O.faults out.old; faults_new = O.faults out.new })
        (IsReportFrom board.old watch.old trace.now well)) }
    ensures failure { IfErr result (λ _. Breaks
        (record { old = O.contents out.old; new = O.contents out.new; faults_old = O.faults out.old; faults_new = O.faults out.new })
        (IsReportFrom board.old watch.old trace.now well)) }
{
    match write_report(out, trace, board, watch)? {
        RunEnding::Well => Ok(()),
        RunEnding::AtFault => unreachable!(),
    }
}

/// Puts the image of the source for a runtime that logs so, and writes the report of its run on the trace. All memory but that of the put is taken before it.
///
/// # Errors
/// `Refused` for the first text that is refused; `Memory` where memory was refused; no
/// file is changed and nothing is written then. `Put` where the put failed, and the file of the image may hold anything or be absent. `Write`
/// where a write failed behind it, and the output gained a proper prefix of the report.
pub fn try_texts<'t, H: Shelf, O: Sink>(
    alloc: Global,
    logging: Logging,
    names: TryNames<'t>,
    texts: TryTexts<'t>,
    shelf: &mut H,
    out: &mut O,
) -> Result<(), Failure<'t>>
    requires source { length texts.source.now ≤ 1048576 }
    requires trace { length texts.trace.now ≤ 1048576 }
    ensures counts { NeverFall (H.counts shelf.old) (H.counts shelf.new) }
    ensures faults { O.faults out.old ≤ O.faults out.new }
    ensures whole { IfOk result (λ _. IsWhole (trial_promise logging names.entry.source.now names.entry.trace.now names.entry.image.now)
        (texts.entry.source.now ∷ texts.entry.trace.now ∷ []) well
        (record { old = H.files shelf.old; new = H.files shelf.new; counts_old = H.counts shelf.old; counts_new = H.counts shelf.new })
        (record { old = O.contents out.old; new = O.contents out.new; faults_old = O.faults out.old; faults_new = O.faults out.new })) }
    ensures failure { IfErr result (λ e. FailsBy e (trial_promise logging names.entry.source.now names.entry.trace.now names.entry.image.now)
        (texts.entry.source.now ∷ texts.entry.trace.now ∷ [])
        (record { old = H.files shelf.old; new = H.files shelf.new; counts_old = H.counts shelf.old; counts_new = H.counts shelf.new })
        (record { old = O.contents out.old; new = O.contents out.new; faults_old = O.faults out.old; faults_new = O.faults out.new })) }
{
    let source = source_of(alloc, names.source, texts.source)?;
    let trace = trace_of(alloc, names.trace, texts.trace)?;
    let built = built_of(alloc, logging, &source)?;
    let mut board = Board::new(alloc, &built.image, trace.readings(), trace.events())?;
    let mut watch = Watch::new(alloc, &built.image)?;
    put_file(alloc, shelf, names.image, built.text.as_slice())?;
    write_trial(out, &trace, &mut board, &mut watch)?;
    Ok(())
}

fn try_of<H: Shelf, O: Sink, E: Sink>(
    alloc: Global,
    logging: Logging,
    names: TryNames<'_>,
    texts: TryTexts<'_>,
    shelf: &mut H,
    out: &mut O,
    err: &mut E,
) -> Status
    requires source { length texts.source.now ≤ 1048576 }
    requires trace { length texts.trace.now ≤ 1048576 }
    ensures counts { NeverFall (H.counts shelf.old) (H.counts shelf.new) }
    ensures out_faults { O.faults out.old ≤ O.faults out.new }
    ensures err_faults { E.faults err.old ≤ E.faults err.new }
    ensures answers { TextAnswers result (trial_promise logging names.entry.source.now names.entry.trace.now names.entry.image.now)
        (texts.entry.source.now ∷ texts.entry.trace.now ∷ [])
        (record { old = H.files shelf.old; new = H.files shelf.new; counts_old = H.counts shelf.old; counts_new = H.counts shelf.new })
        (record { old = O.contents out.old; new = O.contents out.new; faults_old = O.faults out.old; faults_new = O.faults out.new })
        (record { old = E.contents err.old; new = E.contents err.new; faults_old = E.faults err.old; faults_new = E.faults err.new }) }
{
    match try_texts(alloc, logging, names, texts, shelf, out) {
        Ok(()) => Status::Done,
        Err(failure) => answer_failure(err, failure),
    }
}

// The answer to a trial of a source for a runtime that logs so.
fn answer_trial<H: Shelf, O: Sink, E: Sink>(
    alloc: Global,
    logging: Logging,
    names: TryNames<'_>,
    shelf: &mut H,
    out: &mut O,
    err: &mut E,
) -> Status
    ensures counts { NeverFall (H.counts shelf.old) (H.counts shelf.new) }
    ensures out_faults { O.faults out.old ≤ O.faults out.new }
    ensures err_faults { E.faults err.old ≤ E.faults err.new }
    ensures answers { CommandAnswers result (trial_promise logging names.entry.source.now names.entry.trace.now names.entry.image.now)
        (record { old = H.files shelf.old; new = H.files shelf.new; counts_old = H.counts shelf.old; counts_new = H.counts shelf.new })
        (record { old = O.contents out.old; new = O.contents out.new; faults_old = O.faults out.old; faults_new = O.faults out.new })
        (record { old = E.contents err.old; new = E.contents err.new; faults_old = E.faults err.old; faults_new = E.faults err.new }) }
{
    match read_texts(alloc, shelf, names.source, names.trace) {
        Ok(texts) => try_of(
            alloc,
            logging,
            names,
            TryTexts {
                source: texts.first.as_slice(),
                trace: texts.second.as_slice(),
            },
            shelf,
            out,
            err,
        ),
        Err(unread) => answer_unread(err, unread),
    }
}

/// The answer to `try SRC TRACE IMAGE`.
pub fn answer_try<H: Shelf, O: Sink, E: Sink>(
    alloc: Global,
    names: TryNames<'_>,
    shelf: &mut H,
    out: &mut O,
    err: &mut E,
) -> Status
    ensures counts { NeverFall (H.counts shelf.old) (H.counts shelf.new) }
    ensures out_faults { O.faults out.old ≤ O.faults out.new }
    ensures err_faults { E.faults err.old ≤ E.faults err.new }
    ensures answers { CommandAnswers result (try_promise names.entry.source.now names.entry.trace.now names.entry.image.now)
        (record { old = H.files shelf.old; new = H.files shelf.new; counts_old = H.counts shelf.old; counts_new = H.counts shelf.new })
        (record { old = O.contents out.old; new = O.contents out.new; faults_old = O.faults out.old; faults_new = O.faults out.new })
        (record { old = E.contents err.old; new = E.contents err.new; faults_old = E.faults err.old; faults_new = E.faults err.new }) }
{
    answer_trial(alloc, Logging::Redo, names, shelf, out, err)
}

/// The answer to `undo SRC TRACE IMAGE`: as `try`, of the image that works in the shared words themselves and puts old words back.
pub fn answer_undo<H: Shelf, O: Sink, E: Sink>(
    alloc: Global,
    names: TryNames<'_>,
    shelf: &mut H,
    out: &mut O,
    err: &mut E,
) -> Status
    ensures counts { NeverFall (H.counts shelf.old) (H.counts shelf.new) }
    ensures out_faults { O.faults out.old ≤ O.faults out.new }
    ensures err_faults { E.faults err.old ≤ E.faults err.new }
    ensures answers { CommandAnswers result (undo_promise names.entry.source.now names.entry.trace.now names.entry.image.now)
        (record { old = H.files shelf.old; new = H.files shelf.new; counts_old = H.counts shelf.old; counts_new = H.counts shelf.new })
        (record { old = O.contents out.old; new = O.contents out.new; faults_old = O.faults out.old; faults_new = O.faults out.new })
        (record { old = E.contents err.old; new = E.contents err.new; faults_old = E.faults err.old; faults_new = E.faults err.new }) }
{
    answer_trial(alloc, Logging::Undo, names, shelf, out, err)
}
