//! What a new edition of a program keeps of an old one.
ghost use Rattle.std.specs.Prelude.{◌≡◌, ◌↔◌, ◌<◌, ◌^◌, ℕ, List, [], IfOk, IfSome, IsTrue, length, map};
ghost use Rattle.std.specs.Str.{bytes_eq};
ghost use Rattle.task_ast.specs.View.{function_of, task_of, block_view, program_of};
ghost use Rattle.task_ast.specs.declared.names.Variable.TheVariants.{Shared};
ghost use Rattle.war_analysis.specs.path_sums.Access.{writes, SomePath, IsPrivate};
ghost use Rattle.war_analysis.specs.path_sums.Known.{EachReturns};
ghost use Rattle.source_report.specs.source_values.Runs.{task_body};
ghost use Rattle.task_ast.specs.Calls.{BlockCallsBelow, FunctionsCallBelow};
ghost use Rattle.source_report.specs.SourceReport.{spelled};
ghost use Rattle.fram_state.specs.Kept as spec;
ghost use Rattle.fram_state.specs.Kept.{number_of, shared_names, IsInPlace};
ghost use Rattle.fram_state.specs.Editions.{HasNumbers, CallsReturn};

use path_sums::{call_summaries, is_private, is_written};
use source_report::spelled;
use std::alloc::{AllocError, Global};
use std::collections::BTreeMap;
use task_ast::{
    CheckedSource, Extent, FunctionDeclaration, FunctionName, SharedDeclaration, Stmt,
    TaskDeclaration, TaskName, Variable, VariableName, WordType,
};

/// The numbers of shared variables, by their names.
pub type Numbers<'a> = BTreeMap<&'a [u8], usize>;

/// The numbers of a source's shared variables; of those with one name the first.
pub fn numbers_of<'a>(
    alloc: Global,
    text: &'a [u8],
    shared: &[SharedDeclaration],
) -> Result<Numbers<'a>, AllocError>
    ensures { IfOk result (HasNumbers (shared_names text.now shared.now)) }
{
    let mut numbers = Numbers::new(alloc);
    for i in (0..shared.len()).rev() {
        numbers.insert(spelled(text, shared[i].name), i)?;
    }
    Ok(numbers)
}

fn same_type(one: WordType, other: WordType) -> bool
    ensures { result ≡ spec.same_type one other }
{
    match one {
        WordType::Unsigned => other == WordType::Unsigned,
        WordType::Int => other == WordType::Int,
        WordType::Long => other == WordType::Long,
    }
}

fn same_kind(one: Extent, other: Extent) -> bool
    ensures { result ≡ spec.same_kind one other }
{
    match (one, other) {
        (Extent::Scalar(_), Extent::Scalar(_)) => true,
        (Extent::Long(_), Extent::Long(_)) => true,
        (Extent::Array(n), Extent::Array(m)) => n == m,
        _ => false,
    }
}

// Whether two variables have the same type, kind and length.
fn are_alike(one: &SharedDeclaration, other: &SharedDeclaration) -> bool
    ensures { result ≡ spec.are_alike one.now other.now }
{
    same_type(one.word_type, other.word_type) && same_kind(one.extent, other.extent)
}

// The number, if the variable that has it is like this one.
fn if_alike(
    shared: &[SharedDeclaration],
    declaration: &SharedDeclaration,
    number: usize,
) -> Option<usize>
    ensures value { result ≡ spec.if_alike shared.now declaration.now number }
    ensures inside { IfSome result (λ j. j < length shared.now) }
{
    let old = shared.get(number)?;
    if are_alike(old, declaration) {
        Some(number)
    } else {
        None
    }
}

/// The number of the old variable from which a new one with this name is kept, by the table of the old names.
pub fn kept_from<'a>(
    text: &'a [u8],
    shared: &[SharedDeclaration],
    numbers: &Numbers<'a>,
    name: &'a [u8],
    declaration: &SharedDeclaration,
) -> Option<usize>
    requires { HasNumbers (shared_names text.now shared.now) numbers.now }
    ensures value { result ≡ spec.kept_from text.now shared.now name.now declaration.now }
    ensures inside { IfSome result (λ j. j < length shared.now) }
{
    let number = *numbers.get(&name)?;
    if_alike(shared, declaration, number)
}

// Whether a task has a name.
fn is_named(
    text: &[u8],
    declaration: &TaskDeclaration<VariableName, TaskName, FunctionName>,
    name: &[u8],
) -> bool
    ensures { result ≡ bytes_eq (spelled text.now declaration.now.name) name.now }
{
    spelled(text, declaration.name) == name
}

/// The number of the task of this name; of those with one name the first.
pub fn task_named(
    text: &[u8],
    tasks: &[TaskDeclaration<VariableName, TaskName, FunctionName>],
    name: &[u8],
) -> Option<usize>
    ensures value { result ≡ number_of (map (λ t. spelled text.now t.name) (map task_of tasks.now)) name.now }
    ensures inside { IfSome result (λ k. k < length tasks.now) }
{
    for i in 0..tasks.len() {
        if is_named(text, &tasks[i], name) {
            return Some(i);
        }
    }
    None
}

// What a body that may call these functions does with the shared scalar of a number.
#[derive(Clone, Copy)]
struct Touches {
    written: bool,
    private: bool,
}

// Whether a body writes the shared scalar of this number, and whether this is private in it; or no memory is left.
fn touches_of(
    alloc: Global,
    functions: &[FunctionDeclaration<VariableName, TaskName, FunctionName>],
    number: usize,
    body: &[Stmt<VariableName, TaskName, FunctionName>],
) -> Result<Touches, AllocError>
    requires number { number < 2 ^ 32 }
    requires functions { FunctionsCallBelow 0 (map function_of functions.now) }
    requires returning { EachReturns (map function_of functions.now) }
    requires calls { BlockCallsBelow (length (map function_of functions.now)) (block_view body.now) }
    ensures written { IfOk result (λ t. IsTrue t.written ↔ SomePath (map function_of functions.now) (block_view body.now) (writes (Shared number))) }
    ensures private { IfOk result (λ t. IsTrue t.private ↔ IsPrivate (map function_of functions.now) (block_view body.now) (Shared number)) }
{
    let scalar = Variable::Shared(number as u32);
    let known = call_summaries(alloc, scalar, functions)?;
    Ok(Touches {
        written: is_written(&known, scalar, body),
        private: is_private(&known, scalar, body),
    })
}

/// Whether the task of this number writes the shared scalar of this number in place; or no memory is left.
pub fn is_in_place(
    alloc: Global,
    source: &CheckedSource,
    task: usize,
    number: usize,
) -> Result<bool, AllocError>
    requires task { task < length source.now.tasks.items }
    requires number { number < 2 ^ 32 }
    requires calls { CallsReturn (program_of source.now) }
    ensures { IfOk result (λ in_place. IsTrue in_place ↔ IsInPlace (program_of source.now).functions (task_body (program_of source.now) task) number) }
{
    let touched = touches_of(alloc, &source.functions, number, &source.tasks[task].body)?;
    Ok(touched.written && !touched.private)
}
