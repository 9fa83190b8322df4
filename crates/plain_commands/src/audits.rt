//! `audit SRC REPORT TRACE`: a report checked by its source alone.
ghost use Rattle.std.specs.Prelude.{◌≡◌, ◌≤◌, ◌∷◌, [], IfOk, IfErr, length};
ghost use Rattle.command_texts.specs.alp_io.Count.{HasCause};
ghost use Rattle.command_texts.specs.alp_io.Shelf.{NeverFall};
ghost use Rattle.command_texts.specs.alp_io.Sink.{Writes};
ghost use Rattle.command_texts.specs.source_report.task_ast.View.{program_of};
ghost use Rattle.command_texts.specs.source_meaning.Acceptance.{IsAcceptedText};
ghost use Rattle.command_texts.specs.source_meaning.Events.{HasNoEvent};
ghost use Rattle.report_audit.specs.Good.{IsVerdict};
ghost use Rattle.plain_commands.specs.Verdicts.{verdict_line, verdict_ending};
ghost use Rattle.command_texts.specs.command_answers.Outside.{WhereStands};
ghost use Rattle.command_texts.specs.command_answers.CommandAnswers.{CommandAnswers, IsWhole, TextAnswers};
ghost use Rattle.command_texts.specs.command_answers.Outcomes.{FailsBy, FailsRefused};
ghost use Rattle.plain_commands.specs.Audit.{HasEventAt, audit_promise};

use command_texts::answers::{
    Failure, Status, ThreeTexts, answer_failure, answer_unread, messages, plain, read_three_texts,
};
use command_texts::outside::{Failed, Shelf, Sink, write_pieces};
use command_texts::{Accepted, Trace, print_u64, source_of, trace_of};
use report_audit::{AuditFault, Verdict, audit};
use std::alloc::Global;

/// The names of the files of `audit SRC REPORT TRACE`.
#[derive(Clone, Copy)]
pub struct AuditNames<'n> {
    /// The file of the source.
    pub source: &'n str,
    /// The file of the report.
    pub report: &'n str,
    /// The file of the trace.
    pub trace: &'n str,
}

fn verdict_of<'t>(
    alloc: Global,
    file: &'t str,
    source: &Accepted,
    report: &[u8],
    trace: &Trace,
) -> Result<Verdict, Failure<'t>>
    requires accepted { IsAcceptedText source.now.text.items (program_of source.now.checked.source) source.now.allow }
    requires few { length report.now ≤ 1048576 }
    ensures says { IfOk result (IsVerdict source.now.text.items (program_of source.now.checked.source) source.now.allow.cycles trace.now.readings report.now) }
    ensures no_event { IfOk result (λ _. HasNoEvent source.now.text.items) }
    ensures failure { IfErr result (FailsRefused file.now (HasEventAt source.now.text.items)) }
{
    match audit(alloc, source, trace, report) {
        Ok(verdict) => Ok(verdict),
        Err(AuditFault::Events { line }) => Err(Failure::Refused {
            file,
            refusal: plain(line, "Events"),
        }),
        Err(AuditFault::Memory) => Err(Failure::Memory),
    }
}

// Writes `yes T` or `no LINE`.
#[tactic(auto, unfolding(crate::specs::Verdicts::verdict_line))]
fn write_verdict<O: Sink>(out: &mut O, verdict: Verdict) -> Result<(), Failed>
    ensures bytes { Writes (O.contents out.old) (O.contents out.new) result (verdict_line verdict) }
    ensures cause { HasCause (O.faults out.old) (O.faults out.new) result }
{
    match verdict {
        Verdict::Yes { t } => {
            let t = print_u64(t);
            write_pieces(out, &[b"yes ", t.as_bytes(), b"\n"])
        }
        Verdict::No { line } => {
            let line = print_u64(line as u64);
            write_pieces(out, &[b"no ", line.as_bytes(), b"\n"])
        }
    }
}

/// Writes the verdict on the report, by the source and the trace that the other two texts are, and answers it.
///
/// # Errors
/// `Refused` for the first text that is refused, or behind all else as `Events` for the source's first `next_event`; `Memory` where
/// memory was refused; nothing is written then. `Write` where a write failed, and the output gained a proper prefix of the line.
pub fn audit_texts<'t, O: Sink>(
    alloc: Global,
    names: AuditNames<'t>,
    source: &'t [u8],
    report: &[u8],
    trace: &[u8],
    out: &mut O,
) -> Result<Verdict, Failure<'t>>
    requires source { length source.now ≤ 1048576 }
    requires report { length report.now ≤ 1048576 }
    requires trace { length trace.now ≤ 1048576 }
    ensures faults { O.faults out.old ≤ O.faults out.new }
    ensures whole { IfOk result (λ v. WhereStands (λ shelf. IsWhole
        (audit_promise names.entry.source.now names.entry.report.now names.entry.trace.now) (source.now ∷ report.now ∷ trace.now ∷ [])
        (verdict_ending v) shelf
        (record { old = O.contents out.old; new = O.contents out.new; faults_old = O.faults out.old; faults_new = O.faults out.new }))) }
    ensures failure { IfErr result (λ e. WhereStands (λ shelf. FailsBy e
        (audit_promise names.entry.source.now names.entry.report.now names.entry.trace.now) (source.now ∷ report.now ∷ trace.now ∷ []) shelf
        (record { old = O.contents out.old; new = O.contents out.new; faults_old = O.faults out.old; faults_new = O.faults out.new }))) }
{
    let source = source_of(alloc, names.source, source)?;
    let trace = trace_of(alloc, names.trace, trace)?;
    let verdict = verdict_of(alloc, names.source, &source, report, &trace)?;
    write_verdict(out, verdict)?;
    Ok(verdict)
}

fn audit_of<O: Sink, E: Sink>(
    alloc: Global,
    names: AuditNames<'_>,
    texts: &ThreeTexts,
    out: &mut O,
    err: &mut E,
) -> Status
    requires source { length texts.now.first.items ≤ 1048576 }
    requires report { length texts.now.second.items ≤ 1048576 }
    requires trace { length texts.now.third.items ≤ 1048576 }
    ensures out_faults { O.faults out.old ≤ O.faults out.new }
    ensures err_faults { E.faults err.old ≤ E.faults err.new }
    ensures answers { WhereStands (λ shelf. TextAnswers result
        (audit_promise names.entry.source.now names.entry.report.now names.entry.trace.now)
        (texts.now.first.items ∷ texts.now.second.items ∷ texts.now.third.items ∷ []) shelf
        (record { old = O.contents out.old; new = O.contents out.new; faults_old = O.faults out.old; faults_new = O.faults out.new })
        (record { old = E.contents err.old; new = E.contents err.new; faults_old = E.faults err.old; faults_new = E.faults err.new })) }
{
    match audit_texts(alloc, names, &texts.first, &texts.second, &texts.third, out) {
        Ok(Verdict::Yes { .. }) => Status::Done,
        Ok(Verdict::No { .. }) => {
            messages::tell_differs(err);
            Status::Differs
        }
        Err(failure) => answer_failure(err, failure),
    }
}

/// The answer to `audit SRC REPORT TRACE`.
pub fn answer_audit<H: Shelf, O: Sink, E: Sink>(
    alloc: Global,
    names: AuditNames<'_>,
    shelf: &mut H,
    out: &mut O,
    err: &mut E,
) -> Status
    ensures counts { NeverFall (H.counts shelf.old) (H.counts shelf.new) }
    ensures out_faults { O.faults out.old ≤ O.faults out.new }
    ensures err_faults { E.faults err.old ≤ E.faults err.new }
    ensures answers { CommandAnswers result (audit_promise names.entry.source.now names.entry.report.now names.entry.trace.now)
        (record { old = H.files shelf.old; new = H.files shelf.new; counts_old = H.counts shelf.old; counts_new = H.counts shelf.new })
        (record { old = O.contents out.old; new = O.contents out.new; faults_old = O.faults out.old; faults_new = O.faults out.new })
        (record { old = E.contents err.old; new = E.contents err.new; faults_old = E.faults err.old; faults_new = E.faults err.new }) }
{
    match read_three_texts(alloc, shelf, names.source, names.report, names.trace) {
        Ok(texts) => audit_of(alloc, names, &texts, out, err),
        Err(unread) => answer_unread(err, unread),
    }
}
