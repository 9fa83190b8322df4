//! The code of the undo runtime: the boot, which finishes a commit that is pending and else puts back what a cut attempt changed; the start of an attempt,
//! which logs the words of the task's private scalars; and the commit.
#![tactic(auto)]

mod closing;
mod laws;
mod recovering;
mod stubs;

ghost use Rattle.std.specs.Prelude.{◌≡◌, ◌+◌, ◌<◌, ◌++◌, ℕ, All, IfOk, OnOk};
ghost use Rattle.undo_runtime.specs.Entries.{logged_tasks, FitsList};
ghost use Rattle.undo_runtime.specs.Listing.{numbers_set, opening, gated_forms, fixed_forms, ladder_offset, boot_forms, boot_bytes};
ghost use Rattle.boot_runtime.specs.Listing.{clearing};

use boot_runtime::{
    clearing_begins, dispatch, end_tested, head, push_clear_loop, push_events_counted,
    push_interrupts_enabled, version_cleared,
};
pub use closing::commit_code;
pub use laws::{
    recovery_is_made, undo_boot_is_short, undo_commit_is_made, undo_commit_is_short,
    undo_start_is_made, undo_starts_are_short,
};
use memory_map::{Layout, RuntimeWord};
use recovering::push_recovering;
use runtime_code::forms::Form::{Move, Update};
use runtime_code::forms::Source::Constant;
use runtime_code::forms::Target::ToFram;
use runtime_code::forms::{Form, Konst, TwoOp};
use std::alloc::{AllocError, Global};
use stubs::{push_ladder, push_stubs};

// VER := VER + 1, EN := 0.
fn numbers_set(layout: &Layout) -> [Form; 2]
    ensures { result ≡ numbers_set layout.now }
{
    let version = layout.word_place(RuntimeWord::Version);
    let emit_count = layout.word_place(RuntimeWord::EmitCount);
    [
        Update(TwoOp::Add, Constant(Konst::One), version),
        Move(Constant(Konst::Zero), ToFram(emit_count)),
    ]
}

// The clearing: each version word becomes 0, and then VER.
fn push_clearing(code: &mut Vec<Form>, layout: &Layout) -> Result<(), AllocError>
    ensures { OnOk result (code.new.items ≡ code.old.items ++ clearing layout.now) }
{
    code.extend_from_slice(&clearing_begins(layout))?;
    push_clear_loop(code, layout)?;
    code.extend_from_slice(&version_cleared(layout))
}

// An attempt's opening.
fn push_opening(code: &mut Vec<Form>, layout: &Layout) -> Result<(), AllocError>
    ensures { OnOk result (code.new.items ≡ code.old.items ++ opening layout.now) }
{
    code.extend_from_slice(&end_tested(layout))?;
    push_clearing(code, layout)?;
    code.extend_from_slice(&numbers_set(layout))?;
    push_events_counted(code, layout)
}

// What stands from the look at GATE on, before the ladder.
fn push_gated(code: &mut Vec<Form>, layout: &Layout) -> Result<(), AllocError>
    ensures { OnOk result (code.new.items ≡ code.old.items ++ gated_forms layout.now layout.now.commit.address) }
{
    code.extend_from_slice(&head(layout))?;
    push_recovering(code, layout)?;
    push_opening(code, layout)?;
    code.extend_from_slice(&dispatch(layout))
}

// What stands before the ladder.
fn fixed_code(alloc: Global, layout: &Layout) -> Result<Vec<Form>, AllocError>
    ensures { IfOk result (λ code. code.items ≡ fixed_forms layout.now layout.now.commit.address) }
{
    let mut code = Vec::new(alloc);
    push_interrupts_enabled(&mut code, layout)?;
    push_gated(&mut code, layout)?;
    Ok(code)
}

// The bytes of the code before the ladder.
fn ladder_offset(layout: &Layout) -> u16
    ensures { result ≡ ladder_offset layout.now }
{
    if layout.runtime().events { 110 } else { 100 }
}

/// The instructions of the boot for a layout, to stand at an address, where each task's private scalars fit the list; or no memory is left.
///
/// Where there are events SP is set first, and GIE. Then GATE is looked at: where it is 1 a branch leads to the commit. Else the entries of the list are
/// put back, the last one first, and CLN := 0. There, and after a commit, an attempt starts: where VER is 65535, every version word := 0, then VER := 0.
/// Then VER := VER + 1, EN := 0, and EC := 0, where there are events; SP is set, and by CUR the words of the task's private scalars are logged, and a
/// branch leads to its code. They take 50 words, 5 more where there are events, and for each task 2, and where it has private scalars 2 more and 8 for
/// each of their words.
pub fn boot_code(alloc: Global, layout: &Layout, at: u16) -> Result<Vec<Form>, AllocError>
    requires room { at + boot_bytes layout.now (logged_tasks layout.now) < 65536 }
    requires few { All (FitsList layout.now) layout.now.tasks }
    ensures { IfOk result (λ code. code.items ≡ boot_forms layout.now layout.now.commit.address (logged_tasks layout.now) at) }
{
    layout.rules();
    let tasks = layout.tasks();
    let mut code = fixed_code(alloc, layout)?;
    push_ladder(
        &mut code,
        layout,
        tasks,
        at + ladder_offset(layout) + 4 * tasks.len() as u16,
    )?;
    push_stubs(&mut code, layout, tasks)?;
    Ok(code)
}
