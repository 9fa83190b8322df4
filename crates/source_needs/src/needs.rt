//! What each task of a source needs.

ghost use Rattle.std.specs.Prelude.{◌≡◌, ◌+◌, ◌*◌, ◌^◌, ◌<◌, ◌≤◌, [], IfOk, Some, drop, length, map, slice_get, ℕ};
ghost use Rattle.task_ast.specs.View.{block_view, program_of};
ghost use Rattle.task_ast.specs.Paths.{CheckedTask};
ghost use Rattle.cost_bound.specs.Counts.{emits_of};
ghost use Rattle.cost_bound.specs.Machine.{known_of};
ghost use Rattle.cost_bound.specs.Summaries.{summaries};
ghost use Rattle.cost_bound.specs.Allowance.{list_of, scalars_of, task_bound, task_words};
ghost use Rattle.source_meaning.specs.Acceptance.{IsAcceptedText};
ghost use Rattle.war_analysis.specs.Plans.{IsPlan};
ghost use Rattle.memory_map.specs.declared.runtime.Logging.TheVariants.{Redo, Undo};
ghost use Rattle.memory_map.specs.MemoryMap.{MemoryMap, logged_map};
ghost use Rattle.privatise.specs.Layouts.{IsLayout};
ghost use Rattle.array_versions.specs.View.{programs_of};
ghost use Rattle.compiled_model.specs.Parts.{program_parts, task_program};
ghost use Rattle.lower.specs.Lowered.{bare_programs};
ghost use Rattle.code_costs.specs.Dearest.{most_spent};
ghost use Rattle.code_paths.specs.Paths.{capped};
ghost use Rattle.dearest_ways.specs.Ways.{IsDearestWay};
ghost use Rattle.condition_lines.specs.Conditions.{block_ifs, lists_of};
ghost use Rattle.need_lines.specs.Rows.{row_of};
ghost use Rattle.task_needs.specs.Needs.{elements_of, need_parts};
ghost use Rattle.source_needs.specs.Bodies.{made_programs, task_calls};
ghost use Rattle.source_needs.specs.Needs.{AreNeedsOf, AreUndoNeeds, IsPlannedText, need_row, rows_from, undo_need, ways_gone};
ghost use Rattle.source_needs.specs.Needs.{boot_part, commit_part, parts_in, path_part, start_part};

use crate::calls::call_costs;
use crate::parts::{boot_need, commit_need, path_need, start_need};
use crate::runs::{run_count, word_count};
use array_versions::TaskPrograms;
use condition_lines::{behind_functions, if_lines, task_ifs, task_ways};
use cost_bound::{FunctionSummary, assigned_scalars, summaries, task_needs};
use dearest_ways::{DearestWay, dearest_way};
use lower::lower;
use memory_map::{Layout, PrivateScalar, Runtime};
use need_lines::{IfWay, TaskNeed, UndoNeed};
use privatise::{layout, layouts_are_logged, one_layout, one_logged_layout};
use source_meaning::Accepted;
use source_report::spelled;
use std::alloc::{AllocError, Global};
use task_ast::{FunctionName, SharedDeclaration, Stmt, TaskName, VariableName};
use war_analysis::{Plan, analyse, one_plan};

// What the table of allowances says of a task: its bound, its words, what it lists at most, the elements among that, and the words that it emits.
#[derive(Clone, Copy)]
struct Table {
    bound: u64,
    words: u64,
    list: u64,
    elements: u64,
    emits: u64,
}

// The same of a task with these statements, which call these functions, in a source whose bound has 32 bits.
fn table_of(
    functions: &[FunctionSummary],
    shared: &[SharedDeclaration],
    events: bool,
    versions: u64,
    body: &[Stmt<VariableName, TaskName, FunctionName>],
) -> Table
    requires few { length shared.now ≤ 256 }
    requires few_functions { length functions.now ≤ 64 }
    requires small { task_bound (known_of functions.now) events versions shared.now (block_view body.now) < 2 ^ 32 }
    requires short { task_words (known_of functions.now) shared.now (block_view body.now) < 2 ^ 32 }
    ensures bound { result.bound ≡ task_bound (known_of functions.now) events versions shared.now (block_view body.now) }
    ensures words { result.words ≡ task_words (known_of functions.now) shared.now (block_view body.now) }
    ensures list { result.list ≡ list_of (known_of functions.now) shared.now (block_view body.now) }
    ensures elements { result.elements ≡ elements_of (known_of functions.now) shared.now (block_view body.now) }
    ensures emits { result.emits ≡ emits_of (known_of functions.now) (block_view body.now) }
    ensures few { 12 * versions + 40 * result.list + 40 * result.emits < 2 ^ 32 }
    ensures some { result.elements ≤ result.list }
    ensures scalars { scalars_of (known_of functions.now) shared.now (block_view body.now) ≤ 512 }
{
    let needs = task_needs(functions, shared, events, versions, body);
    let scalars = assigned_scalars(functions, shared, body);
    Table {
        bound: needs.bound,
        words: needs.words,
        list: needs.list,
        elements: needs.list - scalars,
        emits: needs.emits,
    }
}

// The parts of a task's need, in cycles.
#[derive(Clone, Copy)]
struct Parts {
    boot: u64,
    start: u64,
    path: u64,
    commit: u64,
}

// The same, under a runtime, of a task with these private scalars, whose dearest way takes so many cycles.
fn parts_of(
    runtime: Runtime,
    versions: u64,
    privates: &[PrivateScalar],
    table: Table,
    most: u64,
) -> Parts
    requires few { length privates.now ≤ 512 }
    requires small { 12 * versions + 40 * table.list + 40 * table.emits < 2 ^ 32 }
    requires some { table.elements ≤ table.list }
    requires bounded { table.bound < 2 ^ 32 }
    ensures boot { result.boot ≡ boot_part runtime table }
    ensures start { result.start ≡ start_part runtime versions privates.now }
    ensures path { result.path ≡ path_part runtime versions privates.now table most }
    ensures commit { result.commit ≡ commit_part runtime privates.now table }
    ensures low { (result.boot < 2 ^ 32) × (result.start < 2 ^ 32) × (result.path < 2 ^ 32) × (result.commit < 2 ^ 32) }
{
    let words = word_count(privates) as u64;
    let entries = run_count(privates) as u64 + table.elements;
    let boot = boot_need(runtime.logging, runtime.events, table.list);
    let start = start_need(runtime.logging, runtime.events, versions, words);
    let commit = commit_need(
        runtime.logging,
        runtime.events,
        entries,
        words + table.elements,
        table.emits,
    );
    Parts {
        boot,
        start,
        path: path_need(most, table.bound, boot + start + commit),
        commit,
    }
}

// What a task of an accepted source takes by the layout's runtime, part by part, and what the table says of it.
#[derive(Clone, Copy)]
struct Priced {
    parts: Parts,
    bound: u64,
    words: u64,
}

// The same of the task of a number, whose dearest way takes so many cycles.
fn price_task(accepted: &Accepted, layout: &Layout, most: u64, number: usize) -> Priced
    requires laid_out { IsPlannedText accepted.now.text.items (program_of accepted.now.checked.source) accepted.now.allow layout.now }
    requires task { number < length (program_of accepted.now.checked.source).tasks }
    requires most { most ≡ capped (most_spent (task_program (program_of accepted.now.checked.source) layout.now number)) }
    ensures parts { parts_in result.parts ≡ need_parts layout.now.runtime.logging (program_of accepted.now.checked.source) layout.now number }
    ensures bound { result.bound ≡ (program_parts (program_of accepted.now.checked.source) layout.now).cost number }
    ensures words { (task : CheckedTask) → slice_get (program_of accepted.now.checked.source).tasks number ≡ Some task
        → result.words ≡ task_words (summaries (program_of accepted.now.checked.source)) (program_of accepted.now.checked.source).shared task.body }
    ensures low { (result.parts.boot < 2 ^ 32) × (result.parts.start < 2 ^ 32) × (result.parts.path < 2 ^ 32) × (result.parts.commit < 2 ^ 32) }
    ensures small { (result.bound < 2 ^ 32) × (result.words < 2 ^ 32) }
{
    let source = accepted.checked().source();
    let functions = summaries(&source.functions);
    let task = &source.tasks[number];
    let runtime = layout.runtime();
    let versions = accepted.allow().versions as u64;
    let table = table_of(
        &functions,
        &source.shared,
        runtime.events,
        versions,
        &task.body,
    );
    let parts = parts_of(
        runtime,
        versions,
        layout.tasks()[number].privates(),
        table,
        most,
    );
    Priced {
        parts,
        bound: table.bound,
        words: table.words,
    }
}

// What the task of a number needs, whose dearest way takes so many cycles and goes these ways; and what it needs in place.
fn task_need<'a>(
    accepted: &'a Accepted,
    layout: &Layout,
    most: u64,
    ways: Vec<IfWay>,
    undo: UndoNeed,
    number: usize,
) -> TaskNeed<'a>
    requires laid_out { IsPlannedText accepted.now.text.items (program_of accepted.now.checked.source) accepted.now.allow layout.now }
    requires redo { layout.now.runtime.logging ≡ Redo }
    requires task { number < length (program_of accepted.now.checked.source).tasks }
    requires most { most ≡ capped (most_spent (task_program (program_of accepted.now.checked.source) layout.now number)) }
    requires undo { undo ≡ undo_need (program_of accepted.now.checked.source) (logged_map layout.now) number }
    ensures { (task : CheckedTask) → slice_get (program_of accepted.now.checked.source).tasks number ≡ Some task
        → row_of result ≡ need_row accepted.now.text.items (program_of accepted.now.checked.source) layout.now number ways.items task }
{
    let task = &accepted.checked().source().tasks[number];
    let priced = price_task(accepted, layout, most, number);
    TaskNeed {
        name: spelled(accepted.source(), task.name),
        boot: priced.parts.boot as u32,
        start: priced.parts.start as u32,
        path: priced.parts.path as u32,
        commit: priced.parts.commit as u32,
        table: priced.bound as u32,
        words: priced.words as u32,
        ways,
        undo,
    }
}

// The dearest way through the task of a number, whose programs these are.
fn way_of(
    alloc: Global,
    accepted: &Accepted,
    layout: &Layout,
    programs: &TaskPrograms,
    number: usize,
) -> Result<DearestWay, AllocError>
    requires laid_out { IsPlannedText accepted.now.text.items (program_of accepted.now.checked.source) accepted.now.allow layout.now }
    requires task { number < length (program_of accepted.now.checked.source).tasks }
    requires programs { programs_of programs.now ≡ made_programs (program_of accepted.now.checked.source) layout.now number }
    ensures way { IfOk result (λ w. IsDearestWay w (task_calls (program_of accepted.now.checked.source) layout.now number)
        (task_program (program_of accepted.now.checked.source) layout.now number)) }
    ensures cycles { IfOk result (λ w. w.cycles
        ≡ capped (most_spent (task_program (program_of accepted.now.checked.source) layout.now number))) }
{
    let routines = layout.tasks()[number].routines();
    let calls = call_costs(alloc, routines, &programs.routines)?;
    dearest_way(alloc, &calls, &programs.own)
}

// What the task of a number needs in place, whose programs these are.
fn undo_need_of(
    alloc: Global,
    accepted: &Accepted,
    layout: &Layout,
    programs: &TaskPrograms,
    number: usize,
) -> Result<UndoNeed, AllocError>
    requires laid_out { IsPlannedText accepted.now.text.items (program_of accepted.now.checked.source) accepted.now.allow layout.now }
    requires undo { layout.now.runtime.logging ≡ Undo }
    requires task { number < length (program_of accepted.now.checked.source).tasks }
    requires programs { programs_of programs.now ≡ made_programs (program_of accepted.now.checked.source) layout.now number }
    ensures { IfOk result (λ n. n ≡ undo_need (program_of accepted.now.checked.source) layout.now number) }
{
    let way = way_of(alloc, accepted, layout, programs, number)?;
    let priced = price_task(accepted, layout, way.cycles, number);
    Ok(UndoNeed {
        boot: priced.parts.boot as u32,
        start: priced.parts.start as u32,
        path: priced.parts.path as u32,
        commit: priced.parts.commit as u32,
    })
}

// What each of the tasks needs in place, by the layout for that, whose programs these are.
fn undo_needs(
    alloc: Global,
    accepted: &Accepted,
    layout: &Layout,
    programs: &[TaskPrograms],
) -> Result<Vec<UndoNeed>, AllocError>
    requires laid_out { IsPlannedText accepted.now.text.items (program_of accepted.now.checked.source) accepted.now.allow layout.now }
    requires undo { layout.now.runtime.logging ≡ Undo }
    requires programs { map programs_of programs.now ≡ bare_programs layout.now (program_of accepted.now.checked.source) }
    ensures { IfOk result (λ needs. AreUndoNeeds (program_of accepted.now.checked.source) layout.now needs.items) }
{
    let mut needs = Vec::new(alloc);
    for i in 0..programs.len() {
        needs.push(undo_need_of(alloc, accepted, layout, &programs[i], i)?)?;
    }
    Ok(needs)
}

// The numbers of the conditions of each `if` of the task of a number.
fn ifs_of(
    alloc: Global,
    accepted: &Accepted,
    layout: &Layout,
    number: usize,
) -> Result<Vec<Vec<u32>>, AllocError>
    requires laid_out { IsPlannedText accepted.now.text.items (program_of accepted.now.checked.source) accepted.now.allow layout.now }
    requires task { number < length (program_of accepted.now.checked.source).tasks }
    ensures { IfOk result (λ ifs. (task : CheckedTask) → slice_get (program_of accepted.now.checked.source).tasks number ≡ Some task
        → lists_of ifs.items ≡ block_ifs 0 task.body) }
{
    let _ = layout;
    let source = accepted.checked().source();
    let task = &source.tasks[number];
    task_ifs(alloc, &task.body)
}

// The `if`s of a task: the lines of all from its first one on, and the numbers of the conditions of each of its own.
#[derive(Clone, Copy)]
struct Ifs<'a> {
    lines: &'a [u32],
    numbers: &'a [Vec<u32>],
}

// What the task of a number needs, whose programs these are, with these `if`s; and what it needs in place.
fn need_by_lines<'a>(
    alloc: Global,
    accepted: &'a Accepted,
    layout: &Layout,
    programs: &TaskPrograms,
    ifs: Ifs<'_>,
    undo: UndoNeed,
    number: usize,
) -> Result<TaskNeed<'a>, AllocError>
    requires laid_out { IsPlannedText accepted.now.text.items (program_of accepted.now.checked.source) accepted.now.allow layout.now }
    requires redo { layout.now.runtime.logging ≡ Redo }
    requires task { number < length (program_of accepted.now.checked.source).tasks }
    requires programs { programs_of programs.now ≡ made_programs (program_of accepted.now.checked.source) layout.now number }
    requires ifs { (task : CheckedTask) → slice_get (program_of accepted.now.checked.source).tasks number ≡ Some task
        → lists_of ifs.numbers.now ≡ block_ifs 0 task.body }
    requires undo { undo ≡ undo_need (program_of accepted.now.checked.source) (logged_map layout.now) number }
    ensures { IfOk result (λ n. (task : CheckedTask) → slice_get (program_of accepted.now.checked.source).tasks number ≡ Some task
        → row_of n ≡ need_row accepted.now.text.items (program_of accepted.now.checked.source) layout.now number
        (ways_gone ifs.entry.lines.now (program_of accepted.now.checked.source) layout.now number task) task) }
{
    let way = way_of(alloc, accepted, layout, programs, number)?;
    let ways = task_ways(alloc, ifs.lines, ifs.numbers, &way.held, &way.failed)?;
    Ok(task_need(accepted, layout, way.cycles, ways, undo, number))
}

// The lines behind so many.
fn lines_behind(lines: &[u32], count: usize) -> &[u32]
    ensures { result.now ≡ drop count lines.now }
{
    if count <= lines.len() {
        &lines[count..]
    } else {
        &[]
    }
}

// What each of the tasks needs, whose programs these are, by the lines of their `if`s; this is what they need in place.
fn tasks_need<'a>(
    alloc: Global,
    accepted: &'a Accepted,
    layout: &Layout,
    programs: &[TaskPrograms],
    lines: &[u32],
    undo: &[UndoNeed],
) -> Result<Vec<TaskNeed<'a>>, AllocError>
    requires laid_out { IsPlannedText accepted.now.text.items (program_of accepted.now.checked.source) accepted.now.allow layout.now }
    requires redo { layout.now.runtime.logging ≡ Redo }
    requires programs { map programs_of programs.now ≡ bare_programs layout.now (program_of accepted.now.checked.source) }
    requires undo { AreUndoNeeds (program_of accepted.now.checked.source) (logged_map layout.now) undo.now }
    ensures { IfOk result (λ needs. map row_of needs.items
        ≡ rows_from accepted.now.text.items (program_of accepted.now.checked.source) layout.now lines.now 0 (program_of accepted.now.checked.source).tasks) }
{
    let mut needs = Vec::new(alloc);
    let mut left = lines;
    for i in 0..programs.len() {
        let numbers = ifs_of(alloc, accepted, layout, i)?;
        let ifs = Ifs {
            lines: left,
            numbers: &numbers,
        };
        needs.push(need_by_lines(alloc, accepted, layout, &programs[i], ifs, undo[i], i)?)?;
        left = lines_behind(left, numbers.len());
    }
    Ok(needs)
}

// The layout of an accepted source.
fn layout_of(alloc: Global, accepted: &Accepted, plan: &Plan) -> Result<Layout, AllocError>
    requires accepted { IsAcceptedText accepted.now.text.items (program_of accepted.now.checked.source) accepted.now.allow }
    requires plan { IsPlan (program_of accepted.now.checked.source) plan.now }
    ensures { IfOk result (λ l. IsLayout (program_of accepted.now.checked.source) accepted.now.allow plan.now l) }
{
    layout(alloc, accepted.checked(), accepted.allow(), plan)
}

// What its tasks need in place.
fn needs_in_place(
    alloc: Global,
    accepted: &Accepted,
    plan: &Plan,
) -> Result<Vec<UndoNeed>, AllocError>
    requires accepted { IsAcceptedText accepted.now.text.items (program_of accepted.now.checked.source) accepted.now.allow }
    requires plan { IsPlan (program_of accepted.now.checked.source) plan.now }
    ensures { IfOk result (λ needs. (l : MemoryMap) → IsLayout (program_of accepted.now.checked.source) accepted.now.allow plan.now l
        → AreUndoNeeds (program_of accepted.now.checked.source) (logged_map l) needs.items) }
{
    one_layout();
    layouts_are_logged();
    let layout = layout_of(alloc, accepted, plan)?.logged();
    let programs = lower(alloc, accepted.checked(), &layout)?;
    undo_needs(alloc, accepted, &layout, programs.as_slice())
}

/// What each task of an accepted source needs, in order of declaration; or no memory is left.
pub fn needs_of<'a>(alloc: Global, accepted: &'a Accepted) -> Result<Vec<TaskNeed<'a>>, AllocError>
    requires accepted { IsAcceptedText accepted.now.text.items (program_of accepted.now.checked.source) accepted.now.allow }
    ensures { IfOk result (λ needs. AreNeedsOf accepted.now.text.items (program_of accepted.now.checked.source) accepted.now.allow
        (map row_of needs.items)) }
{
    one_plan();
    one_layout();
    one_logged_layout();
    layouts_are_logged();
    let plan = analyse(alloc, accepted.checked())?;
    let undo = needs_in_place(alloc, accepted, &plan)?;
    let layout = layout_of(alloc, accepted, &plan)?;
    let programs = lower(alloc, accepted.checked(), &layout)?;
    let lines = if_lines(alloc, accepted.source())?;
    let own = behind_functions(&lines, &accepted.checked().source().functions);
    tasks_need(alloc, accepted, &layout, programs.as_slice(), own, &undo)
}
