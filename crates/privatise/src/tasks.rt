//! The layouts of tasks.
ghost use Rattle.std.specs.Prelude.{◌≡◌, ◌+◌, ◌*◌, ◌%◌, ◌≤◌, ℕ, IfOk, All, Some, length, map, slice_get};
ghost use Rattle.task_ast.specs.View.{task_of};
ghost use Rattle.cost_bound.specs.Allowance.{total};
ghost use Rattle.cost_bound.specs.Frames.{stack_of};
ghost use Rattle.cost_bound.specs.Machine.{known_of};
ghost use Rattle.war_analysis.specs.PlanValue.{TaskPlanValue};
ghost use Rattle.memory_map.specs.address_space.Limits.{program_end};
ghost use Rattle.memory_map.specs.Places.{HasItsPlace};
ghost use Rattle.privatise.specs.Sizes.{body_words};
ghost use Rattle.privatise.specs.View.{functions_in};
ghost use Rattle.privatise.specs.Placing.{IsScalarPlaceAt, ArePrivates, IsPlacedTask, ArePlacedTasks};

use crate::routines::{Functions, place_routines};
use crate::sizes::{own_words, task_words};
use crate::variables::address_behind;
use function_locals::base;
use memory_map::{PrivateScalar, Region, TaskLayout, VariablePlace};
use std::alloc::{AllocError, Global};
use task_ast::{FunctionName, SharedDeclaration, TaskDeclaration, TaskName, VariableName};
use war_analysis::TaskPlan;

fn private_scalar(variables: &[VariablePlace], number: u32) -> PrivateScalar
    requires { IsScalarPlaceAt variables.now number }
    ensures place { HasItsPlace variables.now result }
    ensures number { result.number ≡ number }
{
    match variables[number as usize] {
        VariablePlace::Scalar { home, copy, width } => PrivateScalar {
            number,
            home,
            copy,
            width,
        },
        VariablePlace::Array { .. } => unreachable!(),
    }
}

// The scalars of these numbers, each with its place.
fn place_privates(
    alloc: Global,
    variables: &[VariablePlace],
    numbers: &[u32],
) -> Result<Vec<PrivateScalar>, AllocError>
    requires { All (IsScalarPlaceAt variables.now) numbers.now }
    ensures { IfOk result (λ v. ArePrivates variables.now numbers.now v.items) }
{
    let mut privates = Vec::new(alloc);
    for number in numbers {
        privates.push(private_scalar(variables, *number))?;
    }
    Ok(privates)
}

fn task_layout(
    alloc: Global,
    functions: Functions<'_>,
    shared: &[SharedDeclaration],
    variables: &[VariablePlace],
    task: &TaskDeclaration<VariableName, TaskName, FunctionName>,
    plan: &TaskPlan,
    address: u16,
) -> Result<TaskLayout, AllocError>
    requires few { length shared.now ≤ 256 }
    requires few_functions { length functions.summaries.now ≤ 64 }
    requires same { length functions.locals.now ≡ length functions.summaries.now }
    requires stack { stack_of (known_of functions.summaries.now) (task_of task.now).body ≤ 1000 }
    requires small { body_words (known_of functions.summaries.now) shared.now (task_of task.now).body ≤ 22000 }
    requires room { address + 2 * body_words (known_of functions.summaries.now) shared.now (task_of task.now).body ≤ program_end }
    requires scalars { All (IsScalarPlaceAt variables.now) plan.now.private_scalars }
    ensures { IfOk result (IsPlacedTask (functions_in functions.entry) shared.now variables.now (task_of task.now) plan.now address) }
{
    let privates = place_privates(alloc, variables, plan.private_scalars())?;
    let words = own_words(functions.summaries, shared, task);
    let behind = address_behind(address, words);
    let routines = place_routines(alloc, functions, &task.body, behind)?;
    let first = base(functions.locals, &task.body);
    Ok(TaskLayout::new(privates, Region { address, words }, first, routines))
}

/// The layouts of tasks, their code from an address on.
pub fn place_tasks(
    alloc: Global,
    functions: Functions<'_>,
    shared: &[SharedDeclaration],
    variables: &[VariablePlace],
    tasks: &[TaskDeclaration<VariableName, TaskName, FunctionName>],
    plans: &[TaskPlan],
    address: u16,
) -> Result<Vec<TaskLayout>, AllocError>
    requires few { length shared.now ≤ 256 }
    requires few_functions { length functions.summaries.now ≤ 64 }
    requires same { length functions.locals.now ≡ length functions.summaries.now }
    requires stacks { All (λ task. stack_of (known_of functions.summaries.now) task.body ≤ 1000) (map task_of tasks.now) }
    requires small { total (body_words (known_of functions.summaries.now) shared.now) (map task_of tasks.now) ≤ 22000 }
    requires room { address + 2 * total (body_words (known_of functions.summaries.now) shared.now) (map task_of tasks.now) ≤ program_end }
    requires even { address % 2 ≡ 0 }
    requires count { length plans.now ≡ length tasks.now }
    requires scalars { (k : ℕ) (plan : TaskPlanValue) → slice_get plans.now k ≡ Some plan → All (IsScalarPlaceAt variables.now) plan.private_scalars }
    ensures { IfOk result (λ v. ArePlacedTasks (functions_in functions.entry) shared.now variables.now (map task_of tasks.now) plans.now address v.items) }
{
    let mut layouts = Vec::new(alloc);
    let mut at = address;
    for i in 0..tasks.len() {
        let declared = &tasks[i];
        let task = task_layout(alloc, functions, shared, variables, declared, &plans[i], at)?;
        let words = task_words(functions.summaries, shared, declared);
        at = address_behind(at, words);
        layouts.push(task)?;
    }
    Ok(layouts)
}
