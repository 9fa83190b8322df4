//! The word programs of a source.
ghost use Rattle.std.specs.Prelude.{◌≡◌, ◌≤◌, IfOk, length, map};
ghost use Rattle.array_versions.specs.View.{program_of, programs_of};
ghost use Rattle.task_ast.specs.View as tree;
ghost use Rattle.task_ast.specs.View.{block_view, function_of};
ghost use Rattle.lower.specs.View.{places_in};
ghost use Rattle.lower.specs.Seen.{some_path_writes, place_seen, places_seen, task_seen};
ghost use Rattle.lower.specs.Lowered.{bare_programs, bare_routine, bare_task};

use crate::statements::lower_block;
use array_versions::{TaskPrograms, WordProgram};
use memory_map::{Layout, Logging, PrivateScalar, RoutinePlace, TaskLayout, VariablePlace};
use path_sums::{access_summary, call_summaries};
use std::alloc::{AllocError, Global};
use task_ast::{FunctionDeclaration, FunctionName, Stmt, TaskName, Variable, VariableName};
use task_check::Checked;
use variable_places::TaskPlaces;

// A variable's place as a task sees it: an array that the task doesn't write is read where it stands.
fn place_seen(written: bool, place: VariablePlace) -> VariablePlace
    ensures { result ≡ place_seen written place }
{
    match (written, place) {
        (
            false,
            VariablePlace::Array {
                elements,
                length,
                ..
            },
        ) => VariablePlace::Array {
            elements,
            length,
            copies: None,
        },
        (_, seen) => seen,
    }
}

// The places of all variables as a task sees them.
fn places_seen(
    alloc: Global,
    functions: &[FunctionDeclaration<VariableName, TaskName, FunctionName>],
    body: &[Stmt<VariableName, TaskName, FunctionName>],
    variables: &[VariablePlace],
) -> Result<Vec<VariablePlace>, AllocError>
    requires { length variables.now ≤ 256 }
    ensures { IfOk result (λ v. v.items ≡ places_seen (some_path_writes (map function_of functions.now) (block_view body.now)) 0 variables.now) }
{
    let mut seen = Vec::new(alloc);
    for i in 0..variables.len() {
        let variable = Variable::Shared(i as u32);
        let known = call_summaries(alloc, variable, functions)?;
        let summary = access_summary(&known, variable, body);
        seen.push(place_seen(summary.writes, variables[i]))?;
    }
    Ok(seen)
}

// The private scalars of a task as it sees them: under undo it works on its scalars where they stand, so none is private.
fn privates_seen(logging: Logging, task: &TaskLayout) -> &[PrivateScalar]
    ensures { result.now ≡ (task_seen logging task.now).privates }
{
    match logging {
        Logging::Redo => task.privates(),
        Logging::Undo => &[],
    }
}

// The program of a function that a task reaches.
#[tactic(auto, using(array_versions::proofs::Interface::joined_nothing, crate::proofs::Chains::function_found))]
fn lower_routine(
    alloc: Global,
    functions: &[FunctionDeclaration<VariableName, TaskName, FunctionName>],
    routine: RoutinePlace,
    places: &TaskPlaces<'_>,
) -> Result<WordProgram, AllocError>
    ensures { IfOk result (λ p. program_of p ≡ bare_routine (places_in places.now) (map function_of functions.now) routine) }
{
    let mut program = WordProgram::new(alloc);
    match functions.get(routine.function as usize) {
        Some(function) => {
            lower_block(
                alloc,
                &function.body,
                &places.of_routine(routine),
                &mut program,
            )?;
            Ok(program)
        }
        None => Ok(program),
    }
}

// The programs of the functions that a task reaches, in order of declaration.
fn lower_routines(
    alloc: Global,
    functions: &[FunctionDeclaration<VariableName, TaskName, FunctionName>],
    places: &TaskPlaces<'_>,
) -> Result<Vec<WordProgram>, AllocError>
    ensures { IfOk result (λ ps. map program_of ps.items
        ≡ map (bare_routine (places_in places.now) (map function_of functions.now)) (places_in places.now).routines) }
{
    let routines = places.routines;
    let mut programs = Vec::new(alloc);
    for i in 0..routines.len() {
        programs.push(lower_routine(alloc, functions, routines[i], places)?)?;
    }
    Ok(programs)
}

#[tactic(auto, using(crate::proofs::Seen::first_seen, crate::proofs::Seen::routines_seen))]
fn lower_task(
    alloc: Global,
    functions: &[FunctionDeclaration<VariableName, TaskName, FunctionName>],
    body: &[Stmt<VariableName, TaskName, FunctionName>],
    layout: &Layout,
    task: &TaskLayout,
) -> Result<TaskPrograms, AllocError>
    requires { length layout.now.variables ≤ 256 }
    ensures { IfOk result (λ ps. programs_of ps
        ≡ bare_task (map function_of functions.now) layout.now task.now (block_view body.now)) }
{
    let variables = places_seen(alloc, functions, body, layout.variables())?;
    let places = TaskPlaces {
        layout,
        variables: variables.as_slice(),
        privates: privates_seen(layout.runtime().logging, task),
        first: task.first(),
        routines: task.routines(),
    };
    let mut own = WordProgram::new(alloc);
    lower_block(alloc, body, &places, &mut own)?;
    let routines = lower_routines(alloc, functions, &places)?;
    Ok(TaskPrograms { own, routines })
}

/// The word programs of each task, in order of declaration: its own, and one for each function that it reaches; or no memory is left. The
/// layout is that of the source.
pub fn lower(
    alloc: Global,
    checked: &Checked,
    layout: &Layout,
) -> Result<Vec<TaskPrograms>, AllocError>
    requires same_variables { length layout.now.variables ≡ length checked.now.source.shared.items }
    requires same_tasks { length layout.now.tasks ≡ length checked.now.source.tasks.items }
    ensures { IfOk result (λ ps. map programs_of ps.items ≡ bare_programs layout.now (tree.program_of checked.now.source)) }
{
    let functions = checked.source().functions.as_slice();
    let tasks = checked.source().tasks.as_slice();
    let layouts = layout.tasks();
    let mut programs = Vec::new(alloc);
    for i in 0..tasks.len() {
        programs.push(lower_task(alloc, functions, &tasks[i].body, layout, &layouts[i])?)?;
    }
    Ok(programs)
}
