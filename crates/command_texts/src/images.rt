//! An image text, read for a command.
ghost use Rattle.std.specs.Prelude.{◌≡◌, ◌<◌, IfOk, IfErr, Ok, length, option_map, Some};
ghost use Rattle.image_text.specs.Reading.{image_of};
ghost use Rattle.command_texts.specs.Texts as told;
ghost use Rattle.command_texts.specs.Texts.{RefusesImage};
ghost use Rattle.command_answers.specs.Outcomes.{FailsRefused};
ghost use Rattle.command_answers.specs.Views.{refusal_of};

use command_answers::{Failure, Refusal, plain};
use image_text::{Image, ImageFault, parse_image};
use std::alloc::Global;

fn image_refusal<'t>(fault: ImageFault) -> Option<Refusal<'t>>
    ensures { option_map refusal_of result ≡ told.image_refusal fault }
{
    match fault {
        ImageFault::BadLine { line } => Some(plain(line, "BadLine")),
        ImageFault::OutsideFram { line } => Some(plain(line, "OutsideFram")),
        ImageFault::Twice { line } => Some(plain(line, "Twice")),
        ImageFault::NoReset => Some(plain(0, "NoReset")),
        ImageFault::BadMap { line } => Some(plain(line, "BadMap")),
        ImageFault::Memory => None,
    }
}

/// Why a command fails whose named file is no image text or no state text.
pub fn image_failure<'t>(file: &'t str, fault: ImageFault) -> Failure<'t>
    ensures { FailsRefused file.now (λ r. told.image_refusal fault ≡ Some r) result }
{
    match image_refusal(fault) {
        Some(refusal) => Failure::Refused { file, refusal },
        None => Failure::Memory,
    }
}

/// The image that the text of a named file is.
///
/// # Errors
/// `Refused` with the text's first fault; `Memory` where memory was refused.
pub fn image_of<'t>(alloc: Global, file: &'t str, text: &[u8]) -> Result<Image, Failure<'t>>
    requires { length text.now < 4294967295 }
    ensures said { IfOk result (λ image. image_of text.now ≡ Ok image) }
    ensures refused { IfErr result (FailsRefused file.now (RefusesImage text.now)) }
{
    match parse_image(alloc, text) {
        Ok(image) => Ok(image),
        Err(fault) => Err(image_failure(file, fault)),
    }
}
