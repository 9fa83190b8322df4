//! `bounds SRC`: what each task of a source needs of a charge, in cycles.
ghost use Rattle.std.specs.Prelude.{◌≡◌, ◌≤◌, ◌∷◌, [], IfOk, IfErr, length};
ghost use Rattle.plain_commands.specs.alp_io.Shelf.{NeverFall};
ghost use Rattle.plain_commands.specs.command_answers.Ending.{well};
ghost use Rattle.plain_commands.specs.command_answers.Outside.{WhereStands};
ghost use Rattle.plain_commands.specs.command_answers.CommandAnswers.{CommandAnswers, IsWhole, TextAnswers};
ghost use Rattle.plain_commands.specs.command_answers.Outcomes.{FailsBy, FailsWriting, Gains};
ghost use Rattle.scope_commands.specs.Bounds.{bounds_promise};

use crate::needs::needs_text;
use plain_commands::answers::{Failure, Status, answer_failure, answer_unread, read_file};
use plain_commands::outside::{Shelf, Sink, write_all};
use plain_commands::texts::source_of;
use std::alloc::Global;

// Writes a text. Takes no memory.
fn write_text<'t, O: Sink>(out: &mut O, text: &[u8]) -> Result<(), Failure<'t>>
    ensures faults { O.faults out.old ≤ O.faults out.new }
    ensures whole { IfOk result (λ _. Gains
        (record { old = O.contents out.old; new = O.contents out.new; faults_old = O.faults out.old; faults_new = O.faults out.new })
        (λ output. output ≡ text.now)) }
    ensures failure { IfErr result (λ e. FailsWriting e
        (record { old = O.contents out.old; new = O.contents out.new; faults_old = O.faults out.old; faults_new = O.faults out.new })
        (λ output. output ≡ text.now)) }
{
    write_all(out, text)?;
    Ok(())
}

/// Writes what the tasks of the source that the text is need. All memory is taken before.
///
/// # Errors
/// `Refused` for the text's first fault, `Memory` where memory was refused; nothing is
/// written then. `Write` where a write failed, and the output gained a proper prefix of the lines.
pub fn bounds_texts<'t, O: Sink>(
    alloc: Global,
    name: &'t str,
    source: &'t [u8],
    out: &mut O,
) -> Result<(), Failure<'t>>
    requires { length source.now ≤ 1048576 }
    ensures faults { O.faults out.old ≤ O.faults out.new }
    ensures whole { IfOk result (λ _. WhereStands (λ shelf. IsWhole (bounds_promise name.now) (source.now ∷ []) well shelf
        (record { old = O.contents out.old; new = O.contents out.new; faults_old = O.faults out.old; faults_new = O.faults out.new }))) }
    ensures failure { IfErr result (λ e. WhereStands (λ shelf. FailsBy e (bounds_promise name.now) (source.now ∷ []) shelf
        (record { old = O.contents out.old; new = O.contents out.new; faults_old = O.faults out.old; faults_new = O.faults out.new }))) }
{
    let source = source_of(alloc, name, source)?;
    let text = needs_text(alloc, &source)?;
    write_text(out, text.as_slice())
}

fn bounds_of<O: Sink, E: Sink>(
    alloc: Global,
    name: &str,
    source: &[u8],
    out: &mut O,
    err: &mut E,
) -> Status
    requires { length source.now ≤ 1048576 }
    ensures out_faults { O.faults out.old ≤ O.faults out.new }
    ensures err_faults { E.faults err.old ≤ E.faults err.new }
    ensures answers { WhereStands (λ shelf. TextAnswers result (bounds_promise name.now) (source.now ∷ []) shelf
        (record { old = O.contents out.old; new = O.contents out.new; faults_old = O.faults out.old; faults_new = O.faults out.new })
        (record { old = E.contents err.old; new = E.contents err.new; faults_old = E.faults err.old; faults_new = E.faults err.new })) }
{
    match bounds_texts(alloc, name, source, out) {
        Ok(()) => Status::Done,
        Err(failure) => answer_failure(err, failure),
    }
}

/// The answer to `bounds SRC`.
pub fn answer_bounds<H: Shelf, O: Sink, E: Sink>(
    alloc: Global,
    source: &str,
    shelf: &mut H,
    out: &mut O,
    err: &mut E,
) -> Status
    ensures counts { NeverFall (H.counts shelf.old) (H.counts shelf.new) }
    ensures out_faults { O.faults out.old ≤ O.faults out.new }
    ensures err_faults { E.faults err.old ≤ E.faults err.new }
    ensures answers { CommandAnswers result (bounds_promise source.now)
        (record { old = H.files shelf.old; new = H.files shelf.new; counts_old = H.counts shelf.old; counts_new = H.counts shelf.new })
        (record { old = O.contents out.old; new = O.contents out.new; faults_old = O.faults out.old; faults_new = O.faults out.new })
        (record { old = E.contents err.old; new = E.contents err.new; faults_old = E.faults err.old; faults_new = E.faults err.new }) }
{
    match read_file(alloc, shelf, source) {
        Ok(bytes) => bounds_of(alloc, source, bytes.as_slice(), out, err),
        Err(unread) => answer_unread(err, unread),
    }
}
