//! The needs of the tasks of a source, as a text.
ghost use Rattle.std.specs.Prelude.{◌≡◌, IfOk, IfErr};
ghost use Rattle.task_ast.specs.View.{program_of};
ghost use Rattle.plain_commands.specs.source_meaning.Acceptance.{IsAcceptedText};
ghost use Rattle.plain_commands.specs.command_answers.declared.failure.Failure.TheVariants.{Memory};
ghost use Rattle.scope_commands.specs.Bounds.{IsScope};

use image_reports::images_keep_the_laws;
use need_lines::push_needs;
use plain_commands::answers::Failure;
use plain_commands::texts::Accepted;
use source_needs::needs_of;
use std::alloc::Global;

/// The lines of the tasks of a source; `Memory` where memory was refused.
pub fn needs_text<'t>(alloc: Global, source: &Accepted) -> Result<Vec<u8>, Failure<'t>>
    requires accepted { IsAcceptedText source.now.text.items (program_of source.now.checked.source) source.now.allow }
    ensures text { IfOk result (λ text. IsScope source.now.text.items (program_of source.now.checked.source) source.now.allow text.items) }
    ensures failure { IfErr result (λ e. e ≡ Memory) }
{
    images_keep_the_laws();
    let needs = needs_of(alloc, source)?;
    let mut text = Vec::new(alloc);
    push_needs(&mut text, &needs, source.allow().cycles)?;
    Ok(text)
}
