//! Whether an image is one of a source, by the lines of its map.
ghost use Rattle.std.specs.Prelude.{◌≡◌, ◌↔◌, [], IsTrue, IsErrOf, IfOk, length, map};
ghost use Rattle.task_ast.specs.View.{task_of, program_of};
ghost use Rattle.source_report.specs.SourceReport.{spelled};
ghost use Rattle.source_maps.specs.source_runs.Naming.{length_of};
ghost use Rattle.source_maps.specs.Maps as maps;
ghost use Rattle.source_maps.specs.Maps.{word_value_type, value_type_of};
ghost use Rattle.war_analysis.specs.Plans.{IsPlan};
ghost use Rattle.cost_bound.specs.Allowance.{uses_events};
ghost use Rattle.fram_state.specs.Suits.{line_of, declared_line, planned_task, planned_tasks, HasLinesOf, Suits};

use cost_bound::uses_events;
use image_map::ValueType;
use image_text::{Image, Map, Name, Task, Variable};
use source_meaning::Accepted;
use source_report::spelled;
use std::alloc::Global;
use task_ast::{
    CheckedSource, Extent, FunctionName, SharedDeclaration, TaskDeclaration, TaskName,
    VariableName, WordType,
};
use thiserror::Error;
use war_analysis::{Plan, TaskPlan, analyse, one_plan};

/// What keeps an image from being one of a source.
#[derive(Clone, Copy, Debug, Error)]
pub enum SuitFault {
    /// The image has no map, or its map has other variables, tasks or private scalars than the source, or just one of both has a ring.
    #[error("the map isn't one of the source")]
    OtherSource,
    #[error("out of memory")]
    Memory,
}

// Whether a map has this type for that of words.
fn is_word_type(value_type: ValueType, word_type: WordType) -> bool
    ensures { IsTrue result ↔ (value_type ≡ word_value_type word_type) }
{
    match word_type {
        WordType::Unsigned | WordType::Long => value_type == ValueType::Unsigned,
        WordType::Int => value_type == ValueType::Int,
    }
}

// Whether a map has this type for that of a declaration.
fn is_type(value_type: ValueType, word_type: WordType, extent: Extent) -> bool
    ensures { IsTrue result ↔ (value_type ≡ value_type_of word_type extent) }
{
    match extent {
        Extent::Scalar(_) | Extent::Array(_) => is_word_type(value_type, word_type),
        Extent::Long(_) => value_type == ValueType::Long,
    }
}

// Whether a map has this length for that of a declaration.
fn is_length(length: Option<u16>, extent: Extent) -> bool
    ensures { IsTrue result ↔ (length ≡ length_of extent) }
{
    match extent {
        Extent::Scalar(_) | Extent::Long(_) => length.is_none(),
        Extent::Array(words) => length == Some(words),
    }
}

// Whether the line of a variable is a declaration's, its address aside.
fn is_declared(text: &[u8], declaration: &SharedDeclaration, v: &Variable) -> bool
    ensures { IsTrue result ↔ (line_of v.now ≡ declared_line text.now declaration.now) }
{
    v.name.as_bytes() == spelled(text, declaration.name)
        && is_type(v.value_type, declaration.word_type, declaration.extent)
        && is_length(v.length, declaration.extent)
}

// Whether the lines of variables are those of declarations, in order.
#[tactic(auto, using(crate::proofs::Declared::line_more, crate::proofs::Declared::same_line))]
fn are_declared(text: &[u8], shared: &[SharedDeclaration], variables: &[Variable]) -> bool
    ensures { IsTrue result ↔ (map line_of variables.now ≡ map (declared_line text.now) shared.now) }
{
    if variables.len() != shared.len() {
        return false;
    }
    for i in 0..shared.len() {
        if !is_declared(text, &shared[i], &variables[i]) {
            return false;
        }
    }
    true
}

// The name of the shared variable of a number.
fn shared_name<'t>(text: &'t [u8], shared: &[SharedDeclaration], number: u32) -> &'t [u8]
    ensures { result.now ≡ maps.shared_name text.now shared.now number }
{
    match shared.get(number as usize) {
        None => &[],
        Some(declaration) => spelled(text, declaration.name),
    }
}

// Whether a name is that of the shared variable of a number.
fn is_name_of(text: &[u8], shared: &[SharedDeclaration], number: u32, name: &Name) -> bool
    ensures { IsTrue result ↔ (name.now ≡ maps.shared_name text.now shared.now number) }
{
    name.as_bytes() == shared_name(text, shared, number)
}

// Whether names are those of the shared variables of these numbers, in order.
#[tactic(auto, using(crate::proofs::Declared::name_more, crate::proofs::Declared::same_name))]
fn are_privates(text: &[u8], shared: &[SharedDeclaration], numbers: &[u32], names: &[Name]) -> bool
    ensures { IsTrue result ↔ (names.now ≡ map (maps.shared_name text.now shared.now) numbers.now) }
{
    if names.len() != numbers.len() {
        return false;
    }
    for i in 0..numbers.len() {
        if !is_name_of(text, shared, numbers[i], &names[i]) {
            return false;
        }
    }
    true
}

// Whether a task of a map is a source's, with the private scalars of its plan.
fn is_planned(
    text: &[u8],
    shared: &[SharedDeclaration],
    declaration: &TaskDeclaration<VariableName, TaskName, FunctionName>,
    plan: &TaskPlan,
    task: &Task,
) -> bool
    ensures { IsTrue result ↔ (task.now ≡ planned_task text.now shared.now (task_of declaration.now) plan.now) }
{
    task.name().as_bytes() == spelled(text, declaration.name)
        && are_privates(text, shared, plan.private_scalars(), task.privates())
}

// Whether the tasks of a map are these, each with the private scalars of its plan.
#[tactic(auto, using(crate::proofs::Declared::tasks_in_order))]
fn are_planned(
    text: &[u8],
    shared: &[SharedDeclaration],
    declared: &[TaskDeclaration<VariableName, TaskName, FunctionName>],
    plans: &[TaskPlan],
    tasks: &[Task],
) -> bool
    requires { length plans.now ≡ length declared.now }
    ensures { IsTrue result ↔ (tasks.now ≡ planned_tasks text.now shared.now (map task_of declared.now) plans.now) }
{
    if tasks.len() != declared.len() {
        return false;
    }
    for i in 0..declared.len() {
        if !is_planned(text, shared, &declared[i], &plans[i], &tasks[i]) {
            return false;
        }
    }
    true
}

// Whether a source has a ring: where it uses events.
fn has_ring(source: &CheckedSource) -> bool
    ensures { result ≡ uses_events (program_of source.now) }
{
    uses_events(source)
}

// Whether a map has the lines that a source with this plan gives.
fn has_lines_of(text: &[u8], source: &CheckedSource, plan: &Plan, map: &Map) -> bool
    requires { length plan.now ≡ length source.now.tasks.items }
    ensures { IsTrue result ↔ HasLinesOf text.now (program_of source.now) plan.now map.now }
{
    are_declared(text, source.shared.as_slice(), map.variables())
        && are_planned(
            text,
            source.shared.as_slice(),
            source.tasks.as_slice(),
            plan.tasks(),
            map.tasks(),
        )
        && map.ring().is_some() == has_ring(source)
}

/// Whether an image is one of a source: it has a map, and the `scalar`, `array`, `task` and `private` lines of this are those that the source
/// gives, addresses aside, and it has a ring exactly where the source has one.
///
/// # Errors
/// `OtherSource` exactly where it isn't; `Memory` where memory was refused.
pub fn suits(alloc: Global, source: &Accepted, image: &Image) -> Result<(), SuitFault>
    ensures suits { IfOk result (λ _. Suits source.now.text.items (program_of source.now.checked.source) image.now) }
    ensures other { IsErrOf result SuitFault.OtherSource → Suits source.now.text.items (program_of source.now.checked.source) image.now → ⊥ }
{
    one_plan();
    let Some(map) = image.map() else {
        return Err(SuitFault::OtherSource);
    };
    let Ok(plan) = analyse(alloc, source.checked()) else {
        return Err(SuitFault::Memory);
    };
    if has_lines_of(source.source(), source.checked().source(), &plan, map) {
        Ok(())
    } else {
        Err(SuitFault::OtherSource)
    }
}
