//! The checks, one after another.

ghost use Rattle.std.specs.Prelude.{[], ◌∷◌, ◌≡◌, ◌<◌, ◌^◌, ◌-◌, ◌≤◌, ◌⊎◌, List, length, map, true, MatchResult, MatchOption, nat_lt, IfOk, None, Some, Option};
ghost use Rattle.std.specs.Result.{IfErr};
ghost use Rattle.std.specs.List.{list_all};
ghost use Rattle.task_lex.specs.Faults.{line_of};
ghost use Rattle.path_checks.specs.Firsts.{IsFirst};
ghost use Rattle.path_checks.specs.Loops.{BadLoopAt};
ghost use Rattle.path_checks.specs.Unassigned.{UnassignedAt};
ghost use Rattle.path_checks.specs.Ends.{NoReturnAt, NoTransitionAt};
ghost use Rattle.task_ast.specs.View.{program_of, task_of};
ghost use Rattle.task_check.specs.declared.fault.CheckFault.TheVariants as CheckFault;
ghost use Rattle.task_check.specs.Occurrences as occurrences;
ghost use Rattle.task_check.specs.LookedUp.{program_back};
ghost use Rattle.task_check.specs.Faults as faults;
ghost use Rattle.task_check.specs.Placed.{IsPlaced};
ghost use Rattle.task_check.specs.Placed as spec;
ghost use Rattle.task_check.specs.Walks.{IsWalked};
ghost use Rattle.task_check.specs.Answers.{IsAccepted, IsNamed, IsRefusedOrMemory, IsRefusedOnPaths, IsCleanOnPaths, IsLookedUp, limits_fault};

use crate::build::{Names, Used, named};
use crate::checked::Checked;
use crate::collect::program_names;
use crate::fault::CheckFault;
use crate::occurrence::Occurrence;
use crate::placed::all_stand;
use crate::text::line_from;
use crate::walk::{Walk, globals_of, walk_names};
use path_checks::{first_bad_loop, first_open_function, first_open_task, first_unassigned};
use std::alloc::{AllocError, Global};
use task_ast::{CheckedSource, FunctionName, TaskDeclaration, TaskName, Tree, VariableName};

// The first fault of the checks of loops and of paths.
fn paths_fault(
    alloc: Global,
    source: &[u8],
    checked: &CheckedSource,
) -> Result<Option<CheckFault>, AllocError>
    requires short { length source.now < 2 ^ 32 - 1 }
    requires placed { spec.all_stand (program_of checked.now) ≡ true }
    ensures { IfOk result (λ fault. MatchOption fault (IsCleanOnPaths (program_of checked.now))
        (λ e. IsRefusedOnPaths source.now (program_of checked.now) e)) }
{
    if let Some(name) = first_bad_loop(checked) {
        let line = line_from(source, name.from);
        return Ok(Some(CheckFault::BadLoop { line, name }));
    }
    if let Some(name) = first_unassigned(alloc, checked)? {
        let line = line_from(source, name.from);
        return Ok(Some(CheckFault::Unassigned { line, name }));
    }
    if let Some(name) = first_open_function(checked) {
        let line = line_from(source, name.from);
        return Ok(Some(CheckFault::NoReturn { line, name }));
    }
    if let Some(name) = first_open_task(checked) {
        let line = line_from(source, name.from);
        return Ok(Some(CheckFault::NoTransition { line, name }));
    }
    Ok(None)
}

// The line of each task's name.
fn lines_of(
    alloc: Global,
    source: &[u8],
    tasks: &[TaskDeclaration<VariableName, TaskName, FunctionName>],
) -> Result<Vec<u32>, AllocError>
    requires { length source.now < 2 ^ 32 - 1 }
    ensures { IfOk result (λ lines. lines.items ≡ map (λ t. line_of source.now t.name.from) tasks.now) }
{
    tasks
        .iter()
        .map(|task| line_from(source, task.name.from))
        .collect(alloc)
}

// The checks of loops, of paths and of limits. Where no name is one too many, all numbers are in range.
fn check_paths(
    alloc: Global,
    source: &[u8],
    checked: CheckedSource,
    too_many: Option<CheckFault>,
) -> Result<Checked, CheckFault>
    requires short { length source.now < 2 ^ 32 - 1 }
    requires looked_up { IsLookedUp source.now (program_back (program_of checked)) (program_of checked) }
    requires placed { spec.all_stand (program_of checked) ≡ true }
    requires limits { too_many ≡ limits_fault source.now (program_back (program_of checked)) }
    ensures same { IfOk result (λ c. c.source ≡ checked) }
    ensures fine { IfOk result (λ c. too_many ≡ None) }
    ensures refused { IfErr result (λ e. (e ≡ CheckFault.Memory)
        ⊎ (IsRefusedOnPaths source.now (program_of checked) e ⊎ (IsCleanOnPaths (program_of checked) × (too_many ≡ Some e)))) }
    ensures lines { IfOk result (λ c. c.task_lines.items ≡ map (λ t. line_of source.now t.name.from) c.source.tasks.items) }
{
    if let Some(fault) = paths_fault(alloc, source, &checked)? {
        return Err(fault);
    }
    if let Some(fault) = too_many {
        return Err(fault);
    }
    let task_lines = lines_of(alloc, source, &checked.tasks)?;
    Ok(Checked {
        source: checked,
        task_lines,
    })
}

// The same, of a source with its names looked up. The walk over the names has seen that all of it stands where it may; this is said of the source by
// looking once more.
fn check_placed(
    alloc: Global,
    source: &[u8],
    checked: CheckedSource,
    too_many: Option<CheckFault>,
) -> Result<Checked, CheckFault>
    requires short { length source.now < 2 ^ 32 - 1 }
    requires looked_up { IsLookedUp source.now (program_back (program_of checked)) (program_of checked) }
    requires limits { too_many ≡ limits_fault source.now (program_back (program_of checked)) }
    ensures same { IfOk result (λ c. c.source ≡ checked) }
    ensures fine { IfOk result (λ c. too_many ≡ None) }
    ensures refused { IfErr result (λ e. (e ≡ CheckFault.Memory) ⊎ (IsPlaced (program_of checked)
        × (IsRefusedOnPaths source.now (program_of checked) e ⊎ (IsCleanOnPaths (program_of checked) × (too_many ≡ Some e))))) }
    ensures lines { IfOk result (λ c. c.task_lines.items ≡ map (λ t. line_of source.now t.name.from) c.source.tasks.items) }
{
    if !all_stand(&checked) {
        return Err(CheckFault::Memory);
    }
    check_paths(alloc, source, checked, too_many)
}

// The checks behind those of names, of which the walk tells. The names are let go before the source is built.
fn check_named(
    alloc: Global,
    source: &[u8],
    tree: Tree,
    names: Vec<Occurrence>,
    walk: Walk,
) -> Result<Checked, CheckFault>
    requires short { length source.now < 2 ^ 32 - 1 }
    requires names { names.items ≡ occurrences.program_names source.now (program_of tree) }
    requires walked { IsWalked source.now names.items names.items walk }
    ensures answer { MatchResult result (λ c. IsAccepted source.now (program_of tree) (program_of c.source))
        (λ e. IsRefusedOrMemory source.now (program_of tree) e) }
    ensures lines { IfOk result (λ c. c.task_lines.items ≡ map (λ t. line_of source.now t.name.from) c.source.tasks.items) }
{
    drop(names);
    let (wrong_use, too_many) = (walk.wrong_use, walk.too_many);
    match wrong_use {
        Some(fault) => Err(fault),
        None => {
            let used = Used {
                variables: &walk.variables,
                calls: &walk.calls,
            };
            let found = Names {
                used,
                targets: &walk.targets,
            };
            let checked = named(alloc, tree, found)?;
            check_placed(alloc, source, checked, too_many)
        }
    }
}

fn check_names(
    alloc: Global,
    source: &[u8],
    tree: Tree,
    names: Vec<Occurrence>,
) -> Result<Checked, CheckFault>
    requires short { length source.now < 2 ^ 32 - 1 }
    requires names { names.items ≡ occurrences.program_names source.now (program_of tree) }
    ensures answer { MatchResult result (λ c. IsAccepted source.now (program_of tree) (program_of c.source))
        (λ e. IsRefusedOrMemory source.now (program_of tree) e) }
    ensures lines { IfOk result (λ c. c.task_lines.items ≡ map (λ t. line_of source.now t.name.from) c.source.tasks.items) }
{
    // The names and operators of a parsed text are pieces of it, so there are no more than it has bytes. But any tree may come here, and nothing
    // bounds how many names it has: their numbers, which are `u32`, would not do for as many.
    if names.len() >= u32::MAX as usize {
        return Err(CheckFault::Memory);
    }
    let globals = globals_of(alloc, source, &names)?;
    let walk = walk_names(alloc, source, &names, &globals)?;
    check_named(alloc, source, tree, names, walk)
}

/// The tree of a source with its names looked up; or the first fault of the first check that finds one. A place that goes past the text is cut to it.
pub fn check(alloc: Global, source: &[u8], tree: Tree) -> Result<Checked, CheckFault>
    requires { length source.now < 2 ^ 32 - 1 }
    ensures answer { MatchResult result (λ c. IsAccepted source.now (program_of tree) (program_of c.source))
        (λ e. IsRefusedOrMemory source.now (program_of tree) e) }
    ensures lines { IfOk result (λ c. c.task_lines.items ≡ map (λ t. line_of source.now t.name.from) c.source.tasks.items) }
{
    let names = program_names(alloc, source, &tree)?;
    check_names(alloc, source, tree, names)
}
