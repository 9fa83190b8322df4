//! The code of the boot: what runs at each power-up, and after each commit. It finishes a commit that is pending, begins an attempt
//! and goes to the task that is to run.
#![tactic(auto)]

mod laws;
mod stubs;

ghost use Rattle.std.specs.Prelude.{◌≡◌, ◌+◌, ◌<◌, ◌++◌, ℕ, IfOk, OnOk};
ghost use Rattle.boot_runtime.specs.Entries.{task_entries};
ghost use Rattle.boot_runtime.specs.Listing.{head, end_tested, clearing_begins, clear_turn, clear_loop, version_cleared, counts_set, events_counted};
ghost use Rattle.boot_runtime.specs.Listing.{interrupts_enabled, dispatch, fixed_forms, ladder_offset, boot_forms, boot_bytes};

pub use laws::{
    boot_is_short, boot_obeys_the_gate, start_is_made, start_stores_in_fram, starts_are_short,
    tasks_are_entered, version_is_raised,
};
use memory_map::{EVENT_COUNT, Layout, RuntimeWord, STACK_TOP};
use runtime_code::forms::Form::{
    Branch, Calculate, Compare, EnableInterrupts, Move, SetStack, SkipBy, Update,
};
use runtime_code::forms::Source::{Constant, Fram, Number, Register};
use runtime_code::forms::Target::{ToFram, ToPointed, ToRegister};
use runtime_code::forms::WorkRegister::{R4, R5};
use runtime_code::forms::{Condition, Form, Konst, TwoOp, jump};
use runtime_code::{loop_begin, loop_end};
use std::alloc::{AllocError, Global};
use stubs::{push_ladder, push_stubs};

// The bytes of the code before the ladder.
fn ladder_offset(layout: &Layout) -> u16
    ensures { result ≡ ladder_offset layout.now }
{
    if layout.runtime().events { 78 } else { 68 }
}

/// SP := where the stack begins, and the CPU accepts interrupts, where there are events.
pub fn push_interrupts_enabled(code: &mut Vec<Form>, layout: &Layout) -> Result<(), AllocError>
    ensures { OnOk result (code.new.items ≡ code.old.items ++ interrupts_enabled layout.now) }
{
    if layout.runtime().events {
        code.extend_from_slice(&[SetStack(STACK_TOP), EnableInterrupts])?;
    }
    Ok(())
}

/// Where GATE is 1 a branch to the commit, else over it.
pub fn head(layout: &Layout) -> [Form; 3]
    ensures { result ≡ head layout.now layout.now.commit.address }
{
    let gate = layout.word_place(RuntimeWord::Gate);
    [
        Compare(Constant(Konst::One), gate),
        jump(Condition::NotEqual, 2),
        Branch(layout.commit().address),
    ]
}

/// Where VER isn't at its end, over the clearing.
pub fn end_tested(layout: &Layout) -> [Form; 2]
    ensures { result ≡ end_tested layout.now }
{
    let version = layout.word_place(RuntimeWord::Version);
    [
        Compare(Constant(Konst::MinusOne), version),
        jump(Condition::NotEqual, 13),
    ]
}

/// R4 := the number of version words.
pub fn clearing_begins(layout: &Layout) -> [Form; 1]
    ensures { result ≡ clearing_begins layout.now }
{
    layout.rules();
    let count = Number(layout.versions().words as u16);
    [Move(count, ToRegister(R4))]
}

// A version word becomes 0.
fn clear_turn() -> [Form; 2]
    ensures { result ≡ clear_turn }
{
    [
        Move(Constant(Konst::Zero), ToPointed(R5)),
        Calculate(TwoOp::Add, Constant(Konst::Two), R5),
    ]
}

/// Each version word becomes 0.
pub fn push_clear_loop(code: &mut Vec<Form>, layout: &Layout) -> Result<(), AllocError>
    ensures { OnOk result (code.new.items ≡ code.old.items ++ clear_loop layout.now) }
{
    code.extend_from_slice(&loop_begin(layout.versions().address, 7))?;
    code.extend_from_slice(&clear_turn())?;
    code.extend_from_slice(&loop_end(0x400 - 5))
}

/// VER := 0.
pub fn version_cleared(layout: &Layout) -> [Form; 1]
    ensures { result ≡ version_cleared layout.now }
{
    let version = layout.word_place(RuntimeWord::Version);
    [Move(Constant(Konst::Zero), ToFram(version))]
}

// VER := VER + 1, CLN := 0, EN := 0.
fn counts_set(layout: &Layout) -> [Form; 3]
    ensures { result ≡ counts_set layout.now }
{
    let version = layout.word_place(RuntimeWord::Version);
    let list_length = layout.word_place(RuntimeWord::ListLength);
    let emit_count = layout.word_place(RuntimeWord::EmitCount);
    [
        Update(TwoOp::Add, Constant(Konst::One), version),
        Move(Constant(Konst::Zero), ToFram(list_length)),
        Move(Constant(Konst::Zero), ToFram(emit_count)),
    ]
}

/// EC := 0, where there are events.
pub fn push_events_counted(code: &mut Vec<Form>, layout: &Layout) -> Result<(), AllocError>
    ensures { OnOk result (code.new.items ≡ code.old.items ++ events_counted layout.now) }
{
    if layout.runtime().events {
        code.push(Move(Constant(Konst::Zero), ToFram(EVENT_COUNT)))?;
    }
    Ok(())
}

/// SP := where the stack begins; to the branch of the task that CUR names, in a ladder of branches of four bytes that stands right behind.
pub fn dispatch(layout: &Layout) -> [Form; 5]
    ensures { result ≡ dispatch layout.now }
{
    let current_task = Fram(layout.word_place(RuntimeWord::CurrentTask));
    [
        SetStack(STACK_TOP),
        Move(current_task, ToRegister(R4)),
        Calculate(TwoOp::Add, Register(R4), R4),
        Calculate(TwoOp::Add, Register(R4), R4),
        SkipBy(R4),
    ]
}

// What stands before the ladder: where there are events interrupts are enabled; the look at GATE, the opening of an attempt, and the way to the
// ladder.
fn fixed_code(alloc: Global, layout: &Layout) -> Result<Vec<Form>, AllocError>
    ensures { IfOk result (λ code. code.items ≡ fixed_forms layout.now layout.now.commit.address) }
{
    let mut code = Vec::new(alloc);
    push_interrupts_enabled(&mut code, layout)?;
    code.extend_from_slice(&head(layout))?;
    code.extend_from_slice(&end_tested(layout))?;
    code.extend_from_slice(&clearing_begins(layout))?;
    push_clear_loop(&mut code, layout)?;
    code.extend_from_slice(&version_cleared(layout))?;
    code.extend_from_slice(&counts_set(layout))?;
    push_events_counted(&mut code, layout)?;
    code.extend_from_slice(&dispatch(layout))?;
    Ok(code)
}

/// The instructions of the boot for a layout, to stand at an address; or no memory is left.
///
/// Where there are events SP is set first, and GIE. Then GATE is looked at: where it is 1 a branch leads to the commit. Else, and after a commit
/// from 10 bytes behind that look on, an attempt starts. Where VER is 65535, every version word := 0, then VER := 0. Then VER := VER + 1, CLN := 0, EN := 0,
/// and EC := 0, where there are events; and SP is set, and by CUR the private scalars of the task are copied, and a branch leads to its code. They take
/// 34 words, 5 more where there are events, and for each task 2, and where it has private scalars 2 more and 3 for each of their words.
pub fn boot_code(alloc: Global, layout: &Layout, at: u16) -> Result<Vec<Form>, AllocError>
    requires { at + boot_bytes layout.now (task_entries layout.now) < 65536 }
    ensures { IfOk result (λ code. code.items ≡ boot_forms layout.now layout.now.commit.address (task_entries layout.now) at) }
{
    layout.rules();
    let tasks = layout.tasks();
    let mut code = fixed_code(alloc, layout)?;
    push_ladder(
        &mut code,
        tasks,
        at + ladder_offset(layout) + 4 * tasks.len() as u16,
    )?;
    push_stubs(&mut code, tasks)?;
    Ok(code)
}
