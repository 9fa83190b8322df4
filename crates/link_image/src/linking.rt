//! From a source to its image.
ghost use Rattle.std.specs.Prelude.{◌≡◌, ◌<◌, ◌^◌, ◌-◌, All, length, IfOk, IfErr};
ghost use Rattle.task_ast.specs.View.{program_of};
ghost use Rattle.source_meaning.specs.Acceptance.{IsAcceptedText, IsRefusedText};
ghost use Rattle.war_analysis.specs.Plans.{IsPlan};
ghost use Rattle.privatise.specs.Layouts.{IsLayout, IsLayoutFor};
ghost use Rattle.memory_map.specs.declared.runtime.Logging.TheVariants.{Undo};
ghost use Rattle.link_image.specs.Needs.{IsReadyToLink};
ghost use Rattle.image_laws.specs.Words.{AreImageWords};
ghost use Rattle.image_laws.specs.Compiled.{IsCompiledFor, IsImageFor, IsImageOf};

use crate::code::code_words;
use crate::words::put_image;
use image_text::Image;
use linked_code::linked_is_code;
use lower::lower;
use memory_map::{Layout, Logging};
use privatise::{layout, layouts_are_logged};
use source_maps::map_of;
use source_meaning::{Accepted, SourceFault, accept};
use std::alloc::{AllocError, Global};
use war_analysis::{Plan, analyse};
use whole_programs::programs_are_whole;

// The layout for a runtime that logs so, by the one that works in copies: all stands at the same places.
fn layout_for(logging: Logging, accepted: &Accepted, plan: &Plan, layout: Layout) -> Layout
    requires { IsLayout (program_of accepted.now.checked.source) accepted.now.allow plan.now layout }
    ensures { IsLayoutFor logging (program_of accepted.now.checked.source) accepted.now.allow plan.now result }
{
    layouts_are_logged();
    match logging {
        Logging::Redo => layout,
        Logging::Undo => layout.logged(),
    }
}

// A source with its plan and its layout is ready to be linked: its code has room, and its names can be those of a map.
fn is_ready(logging: Logging, accepted: &Accepted, plan: &Plan, layout: &Layout)
    requires accepted { IsAcceptedText accepted.now.text.items (program_of accepted.now.checked.source) accepted.now.allow }
    requires planned { IsPlan (program_of accepted.now.checked.source) plan.now }
    requires laid_out { IsLayoutFor logging (program_of accepted.now.checked.source) accepted.now.allow plan.now layout.now }
    ensures { IsReadyToLink accepted.now.text.items (program_of accepted.now.checked.source) accepted.now.allow layout.now }
{
    programs_are_whole();
    let _ = accepted.checked();
    let _ = plan.tasks();
    layout.rules();
}

// The image of the words of a source with its layout, without a map.
fn image_of(alloc: Global, accepted: &Accepted, layout: &Layout) -> Result<Image, AllocError>
    requires { IsReadyToLink accepted.now.text.items (program_of accepted.now.checked.source) accepted.now.allow layout.now }
    ensures { IfOk result (λ image. AreImageWords (program_of accepted.now.checked.source) layout.now image.words) }
{
    // The law, that the code ends where the layout's code does.
    linked_is_code();
    let checked = accepted.checked();
    let source = checked.source();
    let programs = lower(alloc, checked, layout)?;
    let code = code_words(alloc, layout, programs.as_slice())?;
    let mut image = Image::blank(alloc)?;
    let _ = image.words();
    put_image(
        &mut image,
        source.shared.as_slice(),
        source.entry.task as u16,
        layout,
        code.as_slice(),
    );
    let _ = image.words();
    Ok(image)
}

/// The image of an accepted source for a runtime that logs so, with a map; or no memory is left.
pub fn link_for(alloc: Global, logging: Logging, accepted: &Accepted) -> Result<Image, AllocError>
    requires accepted { IsAcceptedText accepted.now.text.items (program_of accepted.now.checked.source) accepted.now.allow }
    ensures { IfOk result (IsCompiledFor logging accepted.now.text.items (program_of accepted.now.checked.source) accepted.now.allow) }
{
    let checked = accepted.checked();
    let plan = analyse(alloc, checked)?;
    let copied = layout(alloc, checked, accepted.allow(), &plan)?;
    let layout = layout_for(logging, accepted, &plan, copied);
    is_ready(logging, accepted, &plan, &layout);
    let image = image_of(alloc, accepted, &layout)?;
    let map = map_of(
        alloc,
        accepted.source(),
        checked.source(),
        &layout,
        accepted.allow(),
    )?;
    Ok(image.with_map(map))
}

// The image of a source text for a runtime that logs so, with a map; or the refusal of the first pass that refuses it.
fn compile_for(alloc: Global, logging: Logging, text: &[u8]) -> Result<Image, SourceFault>
    requires { length text.now < 2 ^ 32 - 1 }
    ensures image { IfOk result (IsImageFor logging text.now) }
    ensures refused { IfErr result (IsRefusedText text.now) }
{
    let accepted = accept(alloc, text)?;
    match link_for(alloc, logging, &accepted) {
        Ok(image) => Ok(image),
        Err(AllocError) => Err(SourceFault::Memory),
    }
}

/// The image of a source text, with a map.
///
/// # Errors
/// The refusal of the first pass that refuses the text; `Memory` where memory was refused.
pub fn compile(alloc: Global, text: &[u8]) -> Result<Image, SourceFault>
    requires { length text.now < 2 ^ 32 - 1 }
    ensures image { IfOk result (IsImageOf text.now) }
    ensures refused { IfErr result (IsRefusedText text.now) }
{
    compile_for(alloc, Logging::Redo, text)
}

/// The same for the undo runtime: an attempt works in the shared words themselves, and a boot puts back what a cut one changed.
pub fn compile_undo(alloc: Global, text: &[u8]) -> Result<Image, SourceFault>
    requires { length text.now < 2 ^ 32 - 1 }
    ensures image { IfOk result (IsImageFor Undo text.now) }
    ensures refused { IfErr result (IsRefusedText text.now) }
{
    compile_for(alloc, Logging::Undo, text)
}
