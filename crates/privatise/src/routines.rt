//! The functions that tasks reach.
ghost use Rattle.std.specs.Prelude.{◌≡◌, ◌+◌, ◌*◌, ◌≤◌, ◌<◌, ◌++◌, ◌∷◌, [], IfOk, OnOk, length, true, false, if◌then◌else◌, slice_index_or};
ghost use Rattle.task_ast.specs.View.{block_view};
ghost use Rattle.cost_bound.specs.Counts.{all_called_from, routine_words};
ghost use Rattle.cost_bound.specs.Frames.{stack_of};
ghost use Rattle.cost_bound.specs.Machine.{summary_of, known_of};
ghost use Rattle.memory_map.specs.address_space.Limits.{program_end};
ghost use Rattle.privatise.specs.View.{functions_in};
ghost use Rattle.privatise.specs.Routines.{words_above, frame_address, frame_of_locals, first_local, routine_room, routine_at, routines_from, task_routines};

use crate::variables::address_behind;
use cost_bound::{FunctionSummary, SHARED, reached_functions, stack};
use function_locals::{FunctionLocals, is_light};
use memory_map::{Region, RoutinePlace, STACK_TOP};
use std::alloc::{AllocError, Global};
use task_ast::{FunctionName, Stmt, TaskName, VariableName};

/// What is known of a source's functions, in the order of the text.
#[derive(Clone, Copy)]
pub struct Functions<'s> {
    pub summaries: &'s [FunctionSummary],
    pub locals: &'s [FunctionLocals],
}

// The words that a function's code has beside its body.
const ROUTINE: u64 = 40;

// The words of RAM that stand at no place of a stack: they are left below the lowest.
const SPARE: u64 = 16;

// The number of the first word of RAM.
const FIRST_IN_RAM: u64 = 8;

// The words from the end of RAM down to the frame of a function of this depth.
fn words_above(stack: u64, depth: u64) -> u64
    ensures value { result ≡ words_above stack depth }
    ensures low { result ≤ stack }
{
    stack.saturating_sub(SPARE).saturating_sub(depth)
}

// The number of the first local of a function.
fn first_local(stack: u64, function: &FunctionSummary, locals: &FunctionLocals) -> u16
    requires low { stack ≤ 1000 }
    ensures { result ≡ first_local stack (summary_of function.now).depth locals.now }
{
    if is_light(locals) {
        locals.base
    } else {
        (FIRST_IN_RAM + words_above(stack, function.depth)) as u16
    }
}

// Where the stack begins below so many words of RAM; 0 where there aren't so many.
fn address_below(words: u64) -> u16
    ensures { result ≡ frame_address 8 words }
{
    STACK_TOP - 2 * words.min(STACK_TOP as u64 / 2) as u16
}

// Where the stack of a function begins, where its locals stand in RAM.
fn frame_of(stack: u64, function: &FunctionSummary, locals: &FunctionLocals) -> Option<u16>
    requires low { stack ≤ 1000 }
    ensures { result ≡ frame_of_locals stack (summary_of function.now).depth locals.now }
{
    if is_light(locals) {
        None
    } else {
        let above = words_above(stack, function.depth);
        Some(address_below(above.saturating_add(locals.own)))
    }
}

fn routine_at(
    stack: u64,
    number: u32,
    address: u16,
    function: &FunctionSummary,
    locals: &FunctionLocals,
) -> RoutinePlace
    requires low { stack ≤ 1000 }
    requires small { routine_room (summary_of function.now) ≤ 22000 }
    ensures { result ≡ routine_at stack number address (summary_of function.now) locals.now }
{
    RoutinePlace {
        function: number,
        code: Region {
            address,
            words: (ROUTINE + function.words) as u32,
        },
        frame: frame_of(stack, function, locals),
        first: first_local(stack, function, locals),
    }
}

// Adds a function to those of a task, where it is marked. The address behind its code.
fn place_if(
    marked: bool,
    stack: u64,
    number: u32,
    address: u16,
    function: &FunctionSummary,
    locals: &FunctionLocals,
    routines: &mut Vec<RoutinePlace>,
) -> Result<u16, AllocError>
    requires low { stack ≤ 1000 }
    requires small { marked ≡ true → routine_room (summary_of function.now) ≤ 22000 }
    requires room { marked ≡ true → address + 2 * routine_room (summary_of function.now) < 65536 }
    ensures behind { IfOk result (λ n. n ≡ (if marked then address + 2 * routine_room (summary_of function.now) else address)) }
    ensures routines { OnOk result (routines.new.items
        ≡ (if marked then routines.old.items ++ routine_at stack number address (summary_of function.now) locals.now ∷ [] else routines.old.items)) }
{
    if !marked {
        return Ok(address);
    }
    let routine = routine_at(stack, number, address, function, locals);
    routines.push(routine)?;
    Ok(address_behind(address, routine.code.words))
}

// The marked functions in a task with so many words of stack, their code from an address on.
fn place_marked(
    alloc: Global,
    functions: Functions<'_>,
    marks: &[bool; SHARED],
    stack: u64,
    address: u16,
) -> Result<Vec<RoutinePlace>, AllocError>
    requires few { length functions.summaries.now ≤ 64 }
    requires same { length functions.locals.now ≡ length functions.summaries.now }
    requires low { stack ≤ 1000 }
    requires small { all_called_from (λ k. slice_index_or marks.now k false) routine_room 0 (known_of functions.summaries.now) ≤ 22000 }
    requires room { address + 2 * all_called_from (λ k. slice_index_or marks.now k false) routine_room 0 (known_of functions.summaries.now) ≤ program_end }
    ensures { IfOk result (λ v. v.items
        ≡ routines_from stack (λ k. slice_index_or marks.now k false) 0 address (known_of functions.entry.summaries.now) functions.entry.locals.now) }
{
    let (summaries, locals) = (functions.summaries, functions.locals);
    let mut routines = Vec::new(alloc);
    let mut at = address;
    for k in 0..summaries.len() {
        let (function, its) = (&summaries[k], &locals[k]);
        at = place_if(marks[k], stack, k as u32, at, function, its, &mut routines)?;
    }
    Ok(routines)
}

/// The functions that a task reaches, their code from an address on.
pub fn place_routines(
    alloc: Global,
    functions: Functions<'_>,
    body: &[Stmt<VariableName, TaskName, FunctionName>],
    address: u16,
) -> Result<Vec<RoutinePlace>, AllocError>
    requires few { length functions.summaries.now ≤ 64 }
    requires same { length functions.locals.now ≡ length functions.summaries.now }
    requires low { stack_of (known_of functions.summaries.now) (block_view body.now) ≤ 1000 }
    requires small { routine_words (known_of functions.summaries.now) (block_view body.now) ≤ 22000 }
    requires room { address + 2 * routine_words (known_of functions.summaries.now) (block_view body.now) ≤ program_end }
    ensures { IfOk result (λ v. v.items
        ≡ task_routines (functions_in functions.entry) (block_view body.now) address) }
{
    let marks = reached_functions(functions.summaries, body);
    let words = stack(functions.summaries, body);
    place_marked(alloc, functions, &marks, words, address)
}
