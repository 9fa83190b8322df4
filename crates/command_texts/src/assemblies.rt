//! An assembler text, assembled for a command.
ghost use Rattle.std.specs.Prelude.{◌≡◌, ◌<◌, IfOk, IfErr, Ok, length, option_map, Some, None};
ghost use Rattle.msp_asm.specs.Assembled.{assembled};
ghost use Rattle.command_texts.specs.Assemblies as told;
ghost use Rattle.command_texts.specs.Assemblies.{RefusesAssembly};
ghost use Rattle.command_answers.specs.Outcomes.{FailsRefused};
ghost use Rattle.command_answers.specs.Views.{refusal_of};

use command_answers::{Failure, Refusal, named, plain};
use image_text::Image;
use msp_asm::{AsmFault, assemble};
use std::alloc::Global;

fn assembly_refusal<'t>(text: &'t [u8], fault: AsmFault) -> Option<Refusal<'t>>
    ensures { option_map refusal_of result ≡ told.assembly_refusal text.now fault }
{
    match fault {
        AsmFault::BadLine { line } => Some(plain(line, "BadLine")),
        AsmFault::RepeatedName { line, name } => Some(named(text, line, "RepeatedName", name)),
        AsmFault::UnknownName { line, name } => Some(named(text, line, "UnknownName", name)),
        AsmFault::OutOfRange { line } => Some(plain(line, "OutOfRange")),
        AsmFault::JumpTooFar { line } => Some(plain(line, "JumpTooFar")),
        AsmFault::Outside { line } => Some(plain(line, "Outside")),
        AsmFault::Overlap { line } => Some(plain(line, "Overlap")),
        AsmFault::Memory => None,
    }
}

fn failure_of<'t>(file: &'t str, text: &'t [u8], fault: AsmFault) -> Failure<'t>
    ensures { FailsRefused file.now (λ r. told.assembly_refusal text.now fault ≡ Some r) result }
{
    match assembly_refusal(text, fault) {
        Some(refusal) => Failure::Refused { file, refusal },
        None => Failure::Memory,
    }
}

/// The image that the assembler text of a named file says.
///
/// # Errors
/// `Refused` with the text's first fault; `Memory` where memory was refused.
pub fn assembly_of<'t>(alloc: Global, file: &'t str, text: &'t [u8]) -> Result<Image, Failure<'t>>
    requires { length text.now < 4294967295 }
    ensures said { IfOk result (λ image. assembled text.now ≡ Ok image.words) }
    ensures no_map { IfOk result (λ image. image.map ≡ None) }
    ensures refused { IfErr result (FailsRefused file.now (RefusesAssembly text.now)) }
{
    match assemble(alloc, text) {
        Ok(image) => Ok(image),
        Err(fault) => Err(failure_of(file, text, fault)),
    }
}
