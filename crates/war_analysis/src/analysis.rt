//! The analysis of the tasks of a source.
ghost use Rattle.std.specs.Prelude.{◌≡◌, ◌≤◌, ◌&&◌, ◌++◌, ◌∷◌, [], IfOk, OnOk, List, All, length, map, not, if◌then◌else◌};
ghost use Rattle.task_ast.specs.View.{block_view, function_of, task_of, program_of};
ghost use Rattle.task_ast.specs.Calls.{BlockCallsBelow, FunctionsCallBelow, CallsAreKnown};
ghost use Rattle.task_ast.specs.Paths.{CheckedFunction};
ghost use Rattle.path_sums.specs.Known.{EachReturns};
ghost use Rattle.war_analysis.specs.Plans.{is_scalar, IsPrivateIn, IsVersionedIn, AreNumbers, IsTaskPlan, ArePlans, IsPlan};
ghost use Rattle.war_analysis.specs.Known.{AreSumsByVariable, ForCalled};

use crate::plan::{Plan, TaskPlan};
use path_sums::{AccessSummary, call_summaries, is_private, is_written};
use std::alloc::{AllocError, Global};
use task_ast::{
    CheckedSource, Extent, FunctionDeclaration, FunctionName, SharedDeclaration, Stmt,
    TaskDeclaration, TaskName, Variable, VariableName,
};
use task_check::Checked;

fn is_scalar(extent: Extent) -> bool
    ensures { result ≡ is_scalar extent }
{
    match extent {
        Extent::Scalar(_) | Extent::Long(_) => true,
        Extent::Array(_) => false,
    }
}

// Whether a variable is a private scalar, by whether the paths of the task make it private.
fn is_private_scalar(private: bool, extent: Extent) -> bool
    ensures { result ≡ (private && is_scalar extent) }
{
    private && is_scalar(extent)
}

// Whether a variable is a versioned array, by whether some path of the task writes it.
fn is_versioned_array(written: bool, extent: Extent) -> bool
    ensures { result ≡ (written && not (is_scalar extent)) }
{
    written && !is_scalar(extent)
}

// Adds a number that was found behind the others.
fn push_if(numbers: &mut Vec<u32>, number: u32, found: bool) -> Result<(), AllocError>
    ensures { OnOk result (numbers.new.items ≡ (if found then numbers.old.items ++ number ∷ [] else numbers.old.items)) }
{
    if !found {
        return Ok(());
    }
    numbers.push(number)?;
    Ok(())
}

// What calls of the functions do with each of so many shared variables, by its number.
fn sums_by_variable(
    alloc: Global,
    variables: usize,
    functions: &[FunctionDeclaration<VariableName, TaskName, FunctionName>],
) -> Result<Vec<Vec<AccessSummary>>, AllocError>
    requires few { variables ≤ 256 }
    requires calls { FunctionsCallBelow 0 (map function_of functions.now) }
    requires returning { EachReturns (map function_of functions.now) }
    ensures { IfOk result (λ sums. AreSumsByVariable (map function_of functions.now) variables sums.items) }
{
    let mut sums = Vec::new(alloc);
    for i in 0..variables {
        sums.push(call_summaries(alloc, Variable::Shared(i as u32), functions)?)?;
    }
    Ok(sums)
}

fn private_scalars(
    alloc: Global,
    shared: &[SharedDeclaration],
    sums: &[Vec<AccessSummary>],
    body: &[Stmt<VariableName, TaskName, FunctionName>],
) -> Result<Vec<u32>, AllocError>
    requires few { length shared.now ≤ 256 }
    requires known { length sums.now ≡ length shared.now }
    ensures { IfOk result (λ v. ForCalled (length shared.now) sums.now (block_view body.now)
        (λ fs. AreNumbers (IsPrivateIn fs shared.now (block_view body.now)) v.items)) }
{
    let mut numbers = Vec::new(alloc);
    for i in 0..shared.len() {
        let private = is_private(&sums[i], Variable::Shared(i as u32), body);
        let found = is_private_scalar(private, shared[i].extent);
        push_if(&mut numbers, i as u32, found)?;
    }
    Ok(numbers)
}

fn versioned_arrays(
    alloc: Global,
    shared: &[SharedDeclaration],
    sums: &[Vec<AccessSummary>],
    body: &[Stmt<VariableName, TaskName, FunctionName>],
) -> Result<Vec<u32>, AllocError>
    requires few { length shared.now ≤ 256 }
    requires known { length sums.now ≡ length shared.now }
    ensures { IfOk result (λ v. ForCalled (length shared.now) sums.now (block_view body.now)
        (λ fs. AreNumbers (IsVersionedIn fs shared.now (block_view body.now)) v.items)) }
{
    let mut numbers = Vec::new(alloc);
    for i in 0..shared.len() {
        let written = is_written(&sums[i], Variable::Shared(i as u32), body);
        let found = is_versioned_array(written, shared[i].extent);
        push_if(&mut numbers, i as u32, found)?;
    }
    Ok(numbers)
}

fn task_plan(
    alloc: Global,
    shared: &[SharedDeclaration],
    sums: &[Vec<AccessSummary>],
    body: &[Stmt<VariableName, TaskName, FunctionName>],
) -> Result<TaskPlan, AllocError>
    requires few { length shared.now ≤ 256 }
    requires known { length sums.now ≡ length shared.now }
    ensures { IfOk result (λ plan. ForCalled (length shared.now) sums.now (block_view body.now)
        (λ fs. IsTaskPlan fs shared.now (block_view body.now) plan)) }
{
    let private_scalars = private_scalars(alloc, shared, sums, body)?;
    let versioned_arrays = versioned_arrays(alloc, shared, sums, body)?;
    Ok(TaskPlan {
        private_scalars,
        versioned_arrays,
    })
}

fn task_plans(
    alloc: Global,
    shared: &[SharedDeclaration],
    sums: &[Vec<AccessSummary>],
    tasks: &[TaskDeclaration<VariableName, TaskName, FunctionName>],
) -> Result<Vec<TaskPlan>, AllocError>
    requires few { length shared.now ≤ 256 }
    requires known { length sums.now ≡ length shared.now }
    ensures { IfOk result (λ v. (fs : List CheckedFunction) → AreSumsByVariable fs (length shared.now) sums.now
        → All (λ task. BlockCallsBelow (length fs) task.body) (map task_of tasks.now) → ArePlans fs shared.now (map task_of tasks.now) v.items) }
{
    let mut plans = Vec::new(alloc);
    for task in tasks {
        plans.push(task_plan(alloc, shared, sums, &task.body)?)?;
    }
    Ok(plans)
}

fn plan_of(alloc: Global, source: &CheckedSource) -> Result<Plan, AllocError>
    requires few { length source.now.shared.items ≤ 256 }
    requires calls { CallsAreKnown (program_of source.now) }
    requires returning { EachReturns (program_of source.now).functions }
    ensures { IfOk result (IsPlan (program_of source.now)) }
{
    let sums = sums_by_variable(alloc, source.shared.len(), &source.functions)?;
    let tasks = task_plans(alloc, &source.shared, &sums, &source.tasks)?;
    Ok(Plan { tasks })
}

/// What each task of a source works on in copies; or no memory is left.
///
/// A task's private scalars are exactly the shared scalars that some path of it writes, and that not every path writes before it
/// reads them and before its transition; its versioned arrays are exactly those that some path writes. Its paths go through the
/// functions that it calls.
pub fn analyse(alloc: Global, checked: &Checked) -> Result<Plan, AllocError>
    ensures { IfOk result (IsPlan (program_of checked.now.source)) }
{
    let plan = plan_of(alloc, checked.source())?;
    Ok(plan)
}
