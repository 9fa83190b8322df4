//! `build SRC IMAGE`: the image of a source, put as an image text, and the line of its bound.
ghost use Rattle.std.specs.Prelude.{◌≤◌, ◌∷◌, [], IfOk, IfErr, length};
ghost use Rattle.plain_commands.specs.alp_io.Shelf.{NeverFall};
ghost use Rattle.plain_commands.specs.command_answers.Ending.{well};
ghost use Rattle.plain_commands.specs.command_answers.CommandAnswers.{CommandAnswers, IsWhole, TextAnswers};
ghost use Rattle.plain_commands.specs.command_answers.Outcomes.{FailsBy};
ghost use Rattle.compiler_commands.specs.Build.{build_promise};

use crate::built::built_of;
use crate::gen_lines::write_bound;
use image_reports::images_keep_the_laws;
use memory_map::Logging;
use plain_commands::answers::{
    Failure, Status, answer_failure, answer_unread, put_file, read_file,
};
use plain_commands::outside::{Shelf, Sink};
use plain_commands::texts::source_of;
use std::alloc::Global;

/// The names of the files of `build SRC IMAGE`.
#[derive(Clone, Copy)]
pub struct BuildNames<'n> {
    /// The file of the source.
    pub source: &'n str,
    /// The file that is to hold the image.
    pub image: &'n str,
}

/// Puts the image of the source, and writes its bound. All memory but that of the put is taken before it.
///
/// # Errors
/// `Refused` for the text's first fault, `Memory` where memory was refused; no file is
/// changed and nothing is written then. `Put` where the put failed, and the file of the image may hold anything or be absent. `Write` where a
/// write failed behind it, and the output gained a proper prefix of the line.
pub fn build_texts<'t, H: Shelf, O: Sink>(
    alloc: Global,
    names: BuildNames<'t>,
    source: &'t [u8],
    shelf: &mut H,
    out: &mut O,
) -> Result<(), Failure<'t>>
    requires { length source.now ≤ 1048576 }
    ensures counts { NeverFall (H.counts shelf.old) (H.counts shelf.new) }
    ensures faults { O.faults out.old ≤ O.faults out.new }
    ensures whole { IfOk result (λ _. IsWhole (build_promise names.entry.source.now names.entry.image.now) (source.now ∷ []) well
        (record { old = H.files shelf.old; new = H.files shelf.new; counts_old = H.counts shelf.old; counts_new = H.counts shelf.new })
        (record { old = O.contents out.old; new = O.contents out.new; faults_old = O.faults out.old; faults_new = O.faults out.new })) }
    ensures failure { IfErr result (λ e. FailsBy e (build_promise names.entry.source.now names.entry.image.now) (source.now ∷ [])
        (record { old = H.files shelf.old; new = H.files shelf.new; counts_old = H.counts shelf.old; counts_new = H.counts shelf.new })
        (record { old = O.contents out.old; new = O.contents out.new; faults_old = O.faults out.old; faults_new = O.faults out.new })) }
{
    images_keep_the_laws();
    let source = source_of(alloc, names.source, source)?;
    let built = built_of(alloc, Logging::Redo, &source)?;
    put_file(alloc, shelf, names.image, built.text.as_slice())?;
    write_bound(out, source.allow().cycles)?;
    Ok(())
}

fn build_of<H: Shelf, O: Sink, E: Sink>(
    alloc: Global,
    names: BuildNames<'_>,
    source: &[u8],
    shelf: &mut H,
    out: &mut O,
    err: &mut E,
) -> Status
    requires { length source.now ≤ 1048576 }
    ensures counts { NeverFall (H.counts shelf.old) (H.counts shelf.new) }
    ensures out_faults { O.faults out.old ≤ O.faults out.new }
    ensures err_faults { E.faults err.old ≤ E.faults err.new }
    ensures answers { TextAnswers result (build_promise names.entry.source.now names.entry.image.now) (source.now ∷ [])
        (record { old = H.files shelf.old; new = H.files shelf.new; counts_old = H.counts shelf.old; counts_new = H.counts shelf.new })
        (record { old = O.contents out.old; new = O.contents out.new; faults_old = O.faults out.old; faults_new = O.faults out.new })
        (record { old = E.contents err.old; new = E.contents err.new; faults_old = E.faults err.old; faults_new = E.faults err.new }) }
{
    match build_texts(alloc, names, source, shelf, out) {
        Ok(()) => Status::Done,
        Err(failure) => answer_failure(err, failure),
    }
}

/// The answer to `build SRC IMAGE`.
pub fn answer_build<H: Shelf, O: Sink, E: Sink>(
    alloc: Global,
    names: BuildNames<'_>,
    shelf: &mut H,
    out: &mut O,
    err: &mut E,
) -> Status
    ensures counts { NeverFall (H.counts shelf.old) (H.counts shelf.new) }
    ensures out_faults { O.faults out.old ≤ O.faults out.new }
    ensures err_faults { E.faults err.old ≤ E.faults err.new }
    ensures answers { CommandAnswers result (build_promise names.entry.source.now names.entry.image.now)
        (record { old = H.files shelf.old; new = H.files shelf.new; counts_old = H.counts shelf.old; counts_new = H.counts shelf.new })
        (record { old = O.contents out.old; new = O.contents out.new; faults_old = O.faults out.old; faults_new = O.faults out.new })
        (record { old = E.contents err.old; new = E.contents err.new; faults_old = E.faults err.old; faults_new = E.faults err.new }) }
{
    match read_file(alloc, shelf, names.source) {
        Ok(bytes) => build_of(alloc, names, bytes.as_slice(), shelf, out, err),
        Err(unread) => answer_unread(err, unread),
    }
}
