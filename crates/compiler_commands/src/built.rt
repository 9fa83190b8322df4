//! The image of a source, and its text.
ghost use Rattle.std.specs.Prelude.{◌≡◌, IfOk, IfErr};
ghost use Rattle.task_ast.specs.View.{program_of};
ghost use Rattle.plain_commands.specs.source_meaning.Acceptance.{IsAcceptedText};
ghost use Rattle.plain_commands.specs.command_answers.declared.failure.Failure.TheVariants.{Memory};
ghost use Rattle.image_laws.specs.Compiled.{IsCompiledFor};
ghost use Rattle.compiler_commands.specs.Built.{IsBuiltFor};
ghost use Rattle.compiler_commands.specs.ToldRuns.{IsToldOnTraces};

use image_reports::{images_answer_in_order, images_are_mapped, images_are_told};
use link_image::link_for;
use memory_map::Logging;
use plain_commands::answers::Failure;
use plain_commands::boards::board_has_one_run;
use plain_commands::texts::{Accepted, Image, print_image};
use std::alloc::Global;

/// An image and the text that is printed of it.
#[derive(Drop)]
pub struct Built {
    pub image: Image,
    pub text: Vec<u8>,
}

// On any trace the run of a source's image ends well and is told by the source, which has the accepted events in order.
fn image_is_told(logging: Logging, source: &Accepted, image: &Image)
    requires accepted { IsAcceptedText source.now.text.items (program_of source.now.checked.source) source.now.allow }
    requires compiled { IsCompiledFor logging source.now.text.items (program_of source.now.checked.source) source.now.allow image.now }
    ensures { IsToldOnTraces source.now.text.items (program_of source.now.checked.source) image.now }
{
    board_has_one_run();
    images_are_told();
    images_answer_in_order();
}

/// The image of a source for a runtime that logs so, and its text; `Memory` where memory was refused.
pub fn built_of<'t>(
    alloc: Global,
    logging: Logging,
    source: &Accepted,
) -> Result<Built, Failure<'t>>
    requires accepted { IsAcceptedText source.now.text.items (program_of source.now.checked.source) source.now.allow }
    ensures built { IfOk result (λ b. IsBuiltFor logging source.now.text.items (program_of source.now.checked.source) source.now.allow b.image b.text.items) }
    ensures told { IfOk result (λ b. IsToldOnTraces source.now.text.items (program_of source.now.checked.source) b.image) }
    ensures failure { IfErr result (λ e. e ≡ Memory) }
{
    images_are_mapped();
    let image = link_for(alloc, logging, source)?;
    image_is_told(logging, source, &image);
    let text = print_image(alloc, &image)?;
    Ok(Built { image, text })
}
