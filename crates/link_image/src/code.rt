//! The words of the code.
ghost use Rattle.std.specs.Prelude.{◌≡◌, ◌+◌, ◌-◌, ◌*◌, ◌/◌, ◌%◌, ◌<◌, ◌≤◌, ◌++◌, ◌∷◌, [], ℕ, All, IfOk, OnOk, length, map};
ghost use Rattle.address_space.specs.Limits.{reset_vector};
ghost use Rattle.code_forms.specs.Placed.{instructions, words_of};
ghost use Rattle.array_versions.specs.View.{program_of, programs_of};
ghost use Rattle.link_image.specs.Needs.{HasFewLocals, HasPlaces, IsShort, TaskIsEmitted, TasksAreEmitted};
ghost use Rattle.word_code.specs.Code.{repeated, routine_code};
ghost use Rattle.linked_code.specs.Parts.{filler, chained, PartsInOrder};
ghost use Rattle.linked_code.specs.Linked.{boot_code, bytes_of_boot, commit_code, StartsFit, linked, routine_part, routine_parts, parts_of_task, task_parts};

use array_versions::TaskPrograms;
use codegen::{Form, WordProgram, emit, emit_routine, instruction_of};
use memory_map::{Layout, Logging, RoutinePlace, TaskLayout};
use msp_encode::encode;
use runtime_code::start_address;
use std::alloc::{AllocError, Global};

/// A jump to itself.
const FILLER: u16 = 0x3FFF;

/// The bytes of the recovery, which stands in front of an attempt's start where attempts work in the shared words.
const RECOVERY_BYTES: u16 = 36;

// Adds the words of code.
fn push_code(words: &mut Vec<u16>, code: &[Form]) -> Result<(), AllocError>
    ensures { OnOk result (words.new.items ≡ words.old.items ++ words_of (instructions code.now)) }
{
    for form in code {
        let instruction = instruction_of(form);
        words.extend_from_slice(encode(&instruction).as_slice())?;
    }
    Ok(())
}

// Adds so many jumps to themselves.
fn push_filler(words: &mut Vec<u16>, count: usize) -> Result<(), AllocError>
    ensures { OnOk result (words.new.items ≡ words.old.items ++ words_of (instructions (repeated count filler))) }
{
    for i in 0..count {
        words.push(FILLER)?;
    }
    Ok(())
}

// Adds the words of code that stands at an address, behind those from the start on, with filler up to it.
fn push_part(words: &mut Vec<u16>, start: u16, at: u16, code: &[Form]) -> Result<(), AllocError>
    requires behind { start + 2 * length words.old.items ≤ at }
    ensures { OnOk result (words.new.items ≡ words.old.items
        ++ (words_of (instructions (repeated ((at - (start + 2 * length words.old.items)) / 2) filler)) ++ words_of (instructions code.now))) }
{
    let count = (at - start) as usize / 2 - words.len();
    push_filler(words, count)?;
    push_code(words, code)
}

// Adds the code of a function at its place.
fn push_routine(
    alloc: Global,
    words: &mut Vec<u16>,
    start: u16,
    routine: &RoutinePlace,
    program: &WordProgram,
) -> Result<(), AllocError>
    requires order { PartsInOrder (start + 2 * length words.old.items) (routine_part routine.now (program_of program.now) ∷ []) reset_vector }
    requires short { IsShort (program_of program.now) }
    requires locals { HasFewLocals (program_of program.now) }
    ensures { OnOk result (words.new.items ≡ words.old.items
        ++ (words_of (instructions (repeated ((routine.now.code.address - (start + 2 * length words.old.items)) / 2) filler))
        ++ words_of (instructions (routine_code (program_of program.now))))) }
{
    let mut code = Vec::new(alloc);
    emit_routine(alloc, program, &mut code)?;
    push_part(words, start, routine.code.address, code.as_slice())
}

// Adds the code of each function of a task at its place.
fn push_routines(
    alloc: Global,
    words: &mut Vec<u16>,
    start: u16,
    routines: &[RoutinePlace],
    programs: &[WordProgram],
) -> Result<(), AllocError>
    requires even { start % 2 ≡ 0 }
    requires count { length routines.now ≡ length programs.now }
    requires order { PartsInOrder (start + 2 * length words.old.items) (routine_parts routines.now (map program_of programs.now)) reset_vector }
    requires short { All IsShort (map program_of programs.now) }
    requires locals { All HasFewLocals (map program_of programs.now) }
    ensures { OnOk result (words.new.items ≡ words.old.items
        ++ words_of (instructions (chained (start + 2 * length words.old.items) (routine_parts routines.now (map program_of programs.now))))) }
{
    for k in 0..routines.len() {
        push_routine(alloc, words, start, &routines[k], &programs[k])?;
    }
    Ok(())
}

// Adds the code of a task, and behind it that of each function that it reaches, at their places.
fn push_task(
    alloc: Global,
    words: &mut Vec<u16>,
    start: u16,
    task: &TaskLayout,
    programs: &TaskPrograms,
) -> Result<(), AllocError>
    requires even { start % 2 ≡ 0 }
    requires order { PartsInOrder (start + 2 * length words.old.items) (parts_of_task task.now (programs_of programs.now)) reset_vector }
    requires emitted { TaskIsEmitted task.now (programs_of programs.now) }
    ensures { OnOk result (words.new.items ≡ words.old.items
        ++ words_of (instructions (chained (start + 2 * length words.old.items) (parts_of_task task.now (programs_of programs.now))))) }
{
    let at = task.code().address;
    let mut code = Vec::new(alloc);
    emit(alloc, &programs.own, &mut code)?;
    push_part(words, start, at, code.as_slice())?;
    push_routines(
        alloc,
        words,
        start,
        task.routines(),
        programs.routines.as_slice(),
    )
}

// Adds the code of each task at its place.
fn push_tasks(
    alloc: Global,
    words: &mut Vec<u16>,
    start: u16,
    tasks: &[TaskLayout],
    programs: &[TaskPrograms],
) -> Result<(), AllocError>
    requires even { start % 2 ≡ 0 }
    requires count { length tasks.now ≡ length programs.now }
    requires order { PartsInOrder (start + 2 * length words.old.items) (task_parts tasks.now (map programs_of programs.now)) reset_vector }
    requires emitted { TasksAreEmitted tasks.now (map programs_of programs.now) }
    ensures { OnOk result (words.new.items ≡ words.old.items
        ++ words_of (instructions (chained (start + 2 * length words.old.items) (task_parts tasks.now (map programs_of programs.now))))) }
{
    for k in 0..tasks.len() {
        push_task(alloc, words, start, &tasks[k], &programs[k])?;
    }
    Ok(())
}

// The instructions of the boot, with the start of an attempt, by how the runtime logs.
fn boot_of(alloc: Global, logging: Logging, layout: &Layout) -> Result<Vec<Form>, AllocError>
    requires room { layout.now.boot.address + bytes_of_boot logging layout.now < 65536 }
    requires starts { StartsFit logging layout.now }
    ensures { IfOk result (λ code. code.items ≡ boot_code logging layout.now) }
{
    let at = layout.boot().address;
    match logging {
        Logging::Redo => boot_runtime::boot_code(alloc, layout, at),
        Logging::Undo => undo_runtime::boot_code(alloc, layout, at),
    }
}

// Those of the commit.
fn commit_of(alloc: Global, logging: Logging, layout: &Layout) -> Result<Vec<Form>, AllocError>
    requires { layout.now.boot.address + 52 < 65536 }
    ensures { IfOk result (λ code. code.items ≡ commit_code logging layout.now) }
{
    match logging {
        Logging::Redo => commit_runtime::commit_code(alloc, layout),
        Logging::Undo => {
            let looked = start_address(layout.runtime().events, layout.boot().address);
            undo_runtime::commit_code(alloc, layout, looked + RECOVERY_BYTES)
        }
    }
}

/// The words of the code of a layout and the programs of its tasks, from the boot's address on.
pub fn code_words(
    alloc: Global,
    layout: &Layout,
    programs: &[TaskPrograms],
) -> Result<Vec<u16>, AllocError>
    requires places { HasPlaces layout.now (map programs_of programs.now) }
    requires count { length layout.now.tasks ≡ length programs.now }
    requires emitted { TasksAreEmitted layout.now.tasks (map programs_of programs.now) }
    ensures { IfOk result (λ words. words.items ≡ words_of (linked layout.now (map programs_of programs.now))) }
{
    let start = layout.boot().address;
    let logging = layout.runtime().logging;
    let boot = boot_of(alloc, logging, layout)?;
    let commit = commit_of(alloc, logging, layout)?;
    let mut words = Vec::new(alloc);
    push_part(&mut words, start, start, boot.as_slice())?;
    push_part(
        &mut words,
        start,
        layout.commit().address,
        commit.as_slice(),
    )?;
    push_tasks(alloc, &mut words, start, layout.tasks(), programs)?;
    Ok(words)
}
