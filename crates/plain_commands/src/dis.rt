//! `dis IMAGE`: the assembler text of an image.
ghost use Rattle.std.specs.Prelude.{◌≤◌, ◌∷◌, [], IfOk, IfErr, length};
ghost use Rattle.command_texts.specs.alp_io.Shelf.{NeverFall};
ghost use Rattle.command_texts.specs.command_answers.Ending.{well};
ghost use Rattle.plain_commands.specs.Dis.{IsListing, dis_promise};
ghost use Rattle.command_texts.specs.command_answers.Outside.{WhereStands};
ghost use Rattle.command_texts.specs.command_answers.CommandAnswers.{CommandAnswers, IsWhole, TextAnswers};
ghost use Rattle.command_texts.specs.command_answers.Outcomes.{FailsBy, FailsWriting, Gains};

use command_texts::answers::{Failure, Status, answer_failure, answer_unread, read_file};
use command_texts::outside::{Shelf, Sink};
use command_texts::{Image, disassemble, image_of, images_have_texts};
use std::alloc::Global;

// Writes the listing of the image. Takes no memory.
fn write_listing<'t, O: Sink>(out: &mut O, image: &Image) -> Result<(), Failure<'t>>
    ensures faults { O.faults out.old ≤ O.faults out.new }
    ensures whole { IfOk result (λ _. Gains
        (record { old = O.contents out.old; new = O.contents out.new; faults_old = O.faults out.old; faults_new = O.faults out.new })
        (IsListing image.now.words)) }
    ensures failure { IfErr result (λ e. FailsWriting e
        (record { old = O.contents out.old; new = O.contents out.new; faults_old = O.faults out.old; faults_new = O.faults out.new })
        (IsListing image.now.words)) }
{
    images_have_texts(image);
    disassemble(image, out)?;
    Ok(())
}

/// Writes the assembler text of the image that the text is.
///
/// # Errors
/// `Refused` for the text's first fault, `Memory` where memory was refused; nothing is written then. `Write` where a write
/// failed, and the output gained a proper prefix of the text.
pub fn dis_texts<'t, O: Sink>(
    alloc: Global,
    name: &'t str,
    image: &[u8],
    out: &mut O,
) -> Result<(), Failure<'t>>
    requires { length image.now ≤ 1048576 }
    ensures faults { O.faults out.old ≤ O.faults out.new }
    ensures whole { IfOk result (λ _. WhereStands (λ shelf. IsWhole (dis_promise name.now) (image.now ∷ []) well shelf
        (record { old = O.contents out.old; new = O.contents out.new; faults_old = O.faults out.old; faults_new = O.faults out.new }))) }
    ensures failure { IfErr result (λ e. WhereStands (λ shelf. FailsBy e (dis_promise name.now) (image.now ∷ []) shelf
        (record { old = O.contents out.old; new = O.contents out.new; faults_old = O.faults out.old; faults_new = O.faults out.new }))) }
{
    let image = image_of(alloc, name, image)?;
    write_listing(out, &image)
}

fn dis_of<O: Sink, E: Sink>(
    alloc: Global,
    name: &str,
    image: &[u8],
    out: &mut O,
    err: &mut E,
) -> Status
    requires { length image.now ≤ 1048576 }
    ensures out_faults { O.faults out.old ≤ O.faults out.new }
    ensures err_faults { E.faults err.old ≤ E.faults err.new }
    ensures answers { WhereStands (λ shelf. TextAnswers result (dis_promise name.now) (image.now ∷ []) shelf
        (record { old = O.contents out.old; new = O.contents out.new; faults_old = O.faults out.old; faults_new = O.faults out.new })
        (record { old = E.contents err.old; new = E.contents err.new; faults_old = E.faults err.old; faults_new = E.faults err.new })) }
{
    match dis_texts(alloc, name, image, out) {
        Ok(()) => Status::Done,
        Err(failure) => answer_failure(err, failure),
    }
}

/// The answer to `dis IMAGE`.
pub fn answer_dis<H: Shelf, O: Sink, E: Sink>(
    alloc: Global,
    image: &str,
    shelf: &mut H,
    out: &mut O,
    err: &mut E,
) -> Status
    ensures counts { NeverFall (H.counts shelf.old) (H.counts shelf.new) }
    ensures out_faults { O.faults out.old ≤ O.faults out.new }
    ensures err_faults { E.faults err.old ≤ E.faults err.new }
    ensures answers { CommandAnswers result (dis_promise image.now)
        (record { old = H.files shelf.old; new = H.files shelf.new; counts_old = H.counts shelf.old; counts_new = H.counts shelf.new })
        (record { old = O.contents out.old; new = O.contents out.new; faults_old = O.faults out.old; faults_new = O.faults out.new })
        (record { old = E.contents err.old; new = E.contents err.new; faults_old = E.faults err.old; faults_new = E.faults err.new }) }
{
    match read_file(alloc, shelf, image) {
        Ok(bytes) => dis_of(alloc, image, bytes.as_slice(), out, err),
        Err(unread) => answer_unread(err, unread),
    }
}
