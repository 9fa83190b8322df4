//! `asm ASM IMAGE`: the image of an assembler text, put as an image text.
ghost use Rattle.std.specs.Prelude.{◌≤◌, ◌∷◌, [], IfOk, IfErr, length};
ghost use Rattle.command_texts.specs.alp_io.Shelf.{NeverFall};
ghost use Rattle.command_texts.specs.command_answers.Ending.{well};
ghost use Rattle.command_texts.specs.Assemblies.{RefusesAssembly};
ghost use Rattle.plain_commands.specs.Asm.{Assembles, asm_promise};
ghost use Rattle.command_texts.specs.command_answers.Outside.{WhereSilent};
ghost use Rattle.command_texts.specs.command_answers.Outcomes.{FailsRefused, FailsBy};
ghost use Rattle.command_texts.specs.command_answers.CommandAnswers.{CommandAnswers, IsWhole, TextAnswers};

use command_texts::answers::{Failure, Status, answer_failure, answer_unread, put_file, read_file};
use command_texts::outside::{Shelf, Sink};
use command_texts::{assembly_of, print_image};
use std::alloc::Global;

/// The names of the files of `asm ASM IMAGE`.
#[derive(Clone, Copy)]
pub struct AsmNames<'n> {
    /// The file of the assembler text.
    pub assembly: &'n str,
    /// The file that is to hold the image.
    pub image: &'n str,
}

// The image text of what the assembler text says.
fn image_text_of<'t>(
    alloc: Global,
    file: &'t str,
    assembly: &'t [u8],
) -> Result<Vec<u8>, Failure<'t>>
    requires { length assembly.now ≤ 1048576 }
    ensures said { IfOk result (λ v. Assembles assembly.now v.items) }
    ensures refused { IfErr result (FailsRefused file.now (RefusesAssembly assembly.now)) }
{
    let image = assembly_of(alloc, file, assembly)?;
    let text = print_image(alloc, &image)?;
    Ok(text)
}

/// Puts the image of the assembler text. All memory but that of the put is taken before it.
///
/// # Errors
/// `Refused` for the text's first fault, `Memory` where memory was refused; no file is changed then. `Put` where the put
/// failed, and the file of the image may hold anything or be absent.
pub fn asm_texts<'t, H: Shelf>(
    alloc: Global,
    names: AsmNames<'t>,
    assembly: &'t [u8],
    shelf: &mut H,
) -> Result<(), Failure<'t>>
    requires { length assembly.now ≤ 1048576 }
    ensures counts { NeverFall (H.counts shelf.old) (H.counts shelf.new) }
    ensures whole { IfOk result (λ _. WhereSilent (IsWhole (asm_promise names.entry.assembly.now names.entry.image.now) (assembly.now ∷ []) well
        (record { old = H.files shelf.old; new = H.files shelf.new; counts_old = H.counts shelf.old; counts_new = H.counts shelf.new }))) }
    ensures failure { IfErr result (λ e. WhereSilent (FailsBy e (asm_promise names.entry.assembly.now names.entry.image.now) (assembly.now ∷ [])
        (record { old = H.files shelf.old; new = H.files shelf.new; counts_old = H.counts shelf.old; counts_new = H.counts shelf.new }))) }
{
    let text = image_text_of(alloc, names.assembly, assembly)?;
    put_file(alloc, shelf, names.image, text.as_slice())
}

fn asm_of<H: Shelf, E: Sink>(
    alloc: Global,
    names: AsmNames<'_>,
    assembly: &[u8],
    shelf: &mut H,
    err: &mut E,
) -> Status
    requires { length assembly.now ≤ 1048576 }
    ensures counts { NeverFall (H.counts shelf.old) (H.counts shelf.new) }
    ensures err_faults { E.faults err.old ≤ E.faults err.new }
    ensures answers { WhereSilent (λ out. TextAnswers result (asm_promise names.entry.assembly.now names.entry.image.now) (assembly.now ∷ [])
        (record { old = H.files shelf.old; new = H.files shelf.new; counts_old = H.counts shelf.old; counts_new = H.counts shelf.new }) out
        (record { old = E.contents err.old; new = E.contents err.new; faults_old = E.faults err.old; faults_new = E.faults err.new })) }
{
    match asm_texts(alloc, names, assembly, shelf) {
        Ok(()) => Status::Done,
        Err(failure) => answer_failure(err, failure),
    }
}

/// The answer to `asm ASM IMAGE`, which writes nothing to the output.
pub fn answer_asm<H: Shelf, E: Sink>(
    alloc: Global,
    names: AsmNames<'_>,
    shelf: &mut H,
    err: &mut E,
) -> Status
    ensures counts { NeverFall (H.counts shelf.old) (H.counts shelf.new) }
    ensures err_faults { E.faults err.old ≤ E.faults err.new }
    ensures answers { WhereSilent (λ out. CommandAnswers result (asm_promise names.entry.assembly.now names.entry.image.now)
        (record { old = H.files shelf.old; new = H.files shelf.new; counts_old = H.counts shelf.old; counts_new = H.counts shelf.new }) out
        (record { old = E.contents err.old; new = E.contents err.new; faults_old = E.faults err.old; faults_new = E.faults err.new })) }
{
    match read_file(alloc, shelf, names.assembly) {
        Ok(bytes) => asm_of(alloc, names, bytes.as_slice(), shelf, err),
        Err(unread) => answer_unread(err, unread),
    }
}
