//! The words that data and code are given.
ghost use Rattle.std.specs.Prelude.{◌≡◌, ◌+◌, ◌≤◌, ◌<◌, ℕ, length, map, false, slice_index_or};
ghost use Rattle.task_ast.specs.View.{task_of, program_of};
ghost use Rattle.cost_bound.specs.Summaries.{summaries};
ghost use Rattle.cost_bound.specs.Allowance.{own_words, shared_sum, is_written, version_part, total, plain_words_of};
ghost use Rattle.cost_bound.specs.Machine.{known_of, AreSame};
ghost use Rattle.privatise.specs.Sizes.{home_part, home_words, copy_part, body_words, boot_words};
ghost use Rattle.privatise.specs.Placing.{AreSizes};

use cost_bound::{FunctionSummary, SHARED, assigned_scalars, code_words, own_code_words};
use memory_map::ROW_WORDS;
use task_ast::{
    CheckedSource, Extent, FunctionName, SharedDeclaration, TaskDeclaration, TaskName, VariableName,
};

/// The words of a variable.
pub fn home_part(extent: Extent) -> u32
    ensures value { result ≡ home_part extent }
    ensures low { result ≤ 65535 }
{
    match extent {
        Extent::Scalar(_) => 1,
        Extent::Long(_) => 2,
        Extent::Array(length) => length as u32,
    }
}

/// The words of its copy.
pub fn copy_part(written: bool, extent: Extent) -> u32
    ensures value { result ≡ copy_part written extent }
    ensures low { result ≤ 65535 }
{
    match extent {
        Extent::Scalar(_) => 1,
        Extent::Long(_) => 2,
        Extent::Array(length) => if written { length as u32 } else { 0 },
    }
}

/// Its version words.
pub fn version_part(written: bool, extent: Extent) -> u32
    ensures value { result ≡ version_part written extent }
    ensures low { result ≤ 65535 }
{
    match extent {
        Extent::Scalar(_) | Extent::Long(_) => 0,
        Extent::Array(length) => if written { length as u32 } else { 0 },
    }
}

// The words of all shared variables.
fn home_words(shared: &[SharedDeclaration]) -> u32
    requires { length shared.now ≤ 256 }
    ensures { result ≡ home_words shared.now }
{
    let mut n = 0u32;
    for i in (0..shared.len()).rev() {
        n += home_part(shared[i].extent);
    }
    n
}

// The words of their copies, where the written arrays are marked.
fn copy_words(shared: &[SharedDeclaration], written: &[bool; SHARED]) -> u32
    requires { length shared.now ≤ 256 }
    ensures { result ≡ shared_sum (λ i extent. copy_part (slice_index_or written.now i false) extent) shared.now }
{
    let mut n = 0u32;
    for i in (0..shared.len()).rev() {
        n += copy_part(written[i], shared[i].extent);
    }
    n
}

/// The words of the code that commits.
pub const COMMIT: u32 = 200;

// The words of the boot, beside what each task takes there. It shares 599 with the words of the runtime and the commit.
const BOOT: u32 = 599 - ROW_WORDS - COMMIT;

// The words of the boot.
fn boot_words(
    functions: &[FunctionSummary],
    shared: &[SharedDeclaration],
    tasks: &[TaskDeclaration<VariableName, TaskName, FunctionName>],
) -> u32
    requires few { length shared.now ≤ 256 }
    requires few_functions { length functions.now ≤ 64 }
    requires few_tasks { length tasks.now ≤ 64 }
    ensures { result ≡ boot_words (known_of functions.now) shared.now (map task_of tasks.now) }
{
    let mut n = BOOT;
    for i in (0..tasks.len()).rev() {
        n += 200 + 16 * assigned_scalars(functions, shared, &tasks[i].body) as u32;
    }
    n
}

/// The words of the own code of a task, without that of the functions that it reaches.
pub fn own_words(
    functions: &[FunctionSummary],
    shared: &[SharedDeclaration],
    task: &TaskDeclaration<VariableName, TaskName, FunctionName>,
) -> u32
    requires few { length shared.now ≤ 256 }
    requires few_functions { length functions.now ≤ 64 }
    requires small { own_words (known_of functions.now) shared.now (task_of task.now).body ≤ 22000 }
    ensures { result ≡ own_words (known_of functions.now) shared.now (task_of task.now).body }
{
    let scalars = assigned_scalars(functions, shared, &task.body);
    own_code_words(functions, scalars, &task.body) as u32
}

/// The words of a task's code with that of the functions that it reaches.
pub fn task_words(
    functions: &[FunctionSummary],
    shared: &[SharedDeclaration],
    task: &TaskDeclaration<VariableName, TaskName, FunctionName>,
) -> u32
    requires few { length shared.now ≤ 256 }
    requires few_functions { length functions.now ≤ 64 }
    requires small { body_words (known_of functions.now) shared.now (task_of task.now).body ≤ 22000 }
    ensures { result ≡ body_words (known_of functions.now) shared.now (task_of task.now).body }
{
    let scalars = assigned_scalars(functions, shared, &task.body);
    code_words(functions, scalars, &task.body) as u32
}

// The words of all tasks' code.
fn all_task_words(
    functions: &[FunctionSummary],
    shared: &[SharedDeclaration],
    tasks: &[TaskDeclaration<VariableName, TaskName, FunctionName>],
) -> u32
    requires few { length shared.now ≤ 256 }
    requires few_functions { length functions.now ≤ 64 }
    requires small { total (body_words (known_of functions.now) shared.now) (map task_of tasks.now) ≤ 22000 }
    ensures { result ≡ total (body_words (known_of functions.now) shared.now) (map task_of tasks.now) }
{
    let mut n = 0u32;
    for i in (0..tasks.len()).rev() {
        n += task_words(functions, shared, &tasks[i]);
    }
    n
}

/// How many words the variables, their copies, the boot and the tasks' code take.
#[derive(Clone, Copy)]
pub struct Sizes {
    pub homes: u32,
    pub copies: u32,
    pub boot: u32,
    pub code: u32,
}

/// The sizes for a source with these functions, in which the variables that some task writes are marked.
pub fn sizes_of(
    functions: &[FunctionSummary],
    source: &CheckedSource,
    written: &[bool; SHARED],
) -> Sizes
    requires few { length source.now.shared.items ≤ 256 }
    requires few_functions { length functions.now ≤ 64 }
    requires few_tasks { length source.now.tasks.items ≤ 64 }
    requires same { AreSame (known_of functions.now) (summaries (program_of source.now)) }
    requires written { (i : ℕ) → i < 256
        → slice_index_or written.now i false ≡ is_written (summaries (program_of source.now)) (map task_of source.now.tasks.items) i }
    requires small { plain_words_of (program_of source.now) ≤ 22000 }
    ensures { AreSizes (program_of source.now) result }
{
    Sizes {
        homes: home_words(&source.shared),
        copies: copy_words(&source.shared, written),
        boot: boot_words(functions, &source.shared, &source.tasks),
        code: all_task_words(functions, &source.shared, &source.tasks),
    }
}
