//! The allowance of a source.
ghost use Rattle.std.specs.Prelude.{◌≡◌, ◌≤◌, ◌+◌, ◌*◌, ◌<◌, ◌^◌, length, map, max, nat_lt, ℕ, false, if◌then◌else◌, slice_index_or, All, IfSome, IfNone};
ghost use Rattle.std.specs.Prelude.{IfOk, IfErr};
ghost use Rattle.task_ast.specs.View.{block_view, function_of, task_of, program_of};
ghost use Rattle.cost_bound.specs.Table.{capped, words_column, cycles_column, block_price};
ghost use Rattle.cost_bound.specs.Counts.{assigns_of, emits_of, all_called_from, routine_words};
ghost use Rattle.cost_bound.specs.Frames.{stack_of};
ghost use Rattle.cost_bound.specs.Summaries.{summaries, function_summaries};
ghost use Rattle.cost_bound.specs.Machine.{summary_of, known_of, AreSame};
ghost use Rattle.cost_bound.specs.Allowance.{scalars_of, list_of, task_bound, task_words, own_words, greatest, is_written, versions_of, places_of, bound_of};
ghost use Rattle.cost_bound.specs.Allowance.{has_event, use_events, functions_use_events, uses_events, for_events, words_of, stack_words};
ghost use Rattle.cost_bound.specs.Allowance.{FewEmits, AllFewEmits, IsFirstOver, IsAllowed, IsOver};
ghost use Rattle.cost_bound.specs.Needs.{AreNeeds};

use crate::SHARED;
use crate::assigned::assigned_variables;
use crate::calls::reached_functions;
use crate::fault::Over;
use crate::frames::stack;
use crate::function_summaries::{FunctionSummary, summaries};
use crate::marks::add_marks;
use crate::prices::{CYCLES, EMITS, EVENTS, block_price, plus, times, words_column};
use crate::shared::{array_entries, places, scalars, versions};
use crate::stores::store_counts;
use task_ast::{
    CheckedSource, FunctionDeclaration, FunctionName, SharedDeclaration, Stmt, TaskDeclaration,
    TaskName, VariableName,
};

/// The emits that a task may count.
const MAX_EMITS: u64 = 256;
/// The greatest bound, in cycles.
const MAX_CYCLES: u64 = 4_294_967_295;
/// The cycles that a source has more where it uses events: in some task, or in each.
const EVENT_CYCLES: u64 = 60;
/// The words that such a source has more.
const EVENT_WORDS: u64 = 200;
/// The greatest size, in words.
const MAX_WORDS: u64 = 22_000;
/// The greatest stack, in words.
const MAX_STACK: u64 = 1_000;
/// The words of a function's code in a task, beside those of its body.
const ROUTINE: u64 = 40;

/// What a source may cost, and the room that its tasks need.
#[derive(Clone, Copy)]
pub struct Allow {
    /// The bound, in cycles: enough for a boot, the clearing of the versions, one attempt of any task and its commit.
    pub cycles: u32,
    /// The size of the image, in words.
    pub words: u32,
    /// The entries of the commit list.
    pub list: u32,
    /// The words of the emit buffer.
    pub emits: u32,
    /// The version words: one for each element of an array that some task writes.
    pub versions: u32,
}

// How often the task counts an emit.
fn emits(functions: &[FunctionSummary], body: &[Stmt<VariableName, TaskName, FunctionName>]) -> u64
    ensures { result ≡ capped (emits_of (known_of functions.now) (block_view body.now)) }
{
    block_price(functions, &EMITS, body)
}

// Whether `next_event()` stands in the text.
fn has_event(body: &[Stmt<VariableName, TaskName, FunctionName>]) -> bool
    ensures { result ≡ has_event (block_view body.now) }
{
    block_price(&[], &EVENTS, body) > 0
}

fn tasks_use_events(tasks: &[TaskDeclaration<VariableName, TaskName, FunctionName>]) -> bool
    ensures { result ≡ use_events (map task_of tasks.now) }
{
    let mut used = false;
    for i in (0..tasks.len()).rev() {
        used = has_event(&tasks[i].body) || used;
    }
    used
}

fn functions_use_events(
    functions: &[FunctionDeclaration<VariableName, TaskName, FunctionName>],
) -> bool
    ensures { result ≡ functions_use_events (map function_of functions.now) }
{
    let mut used = false;
    for i in (0..functions.len()).rev() {
        used = has_event(&functions[i].body) || used;
    }
    used
}

/// Whether `next_event()` stands in some task or function, be it never reached.
pub fn uses_events(source: &CheckedSource) -> bool
    ensures { result ≡ uses_events (program_of source.now) }
{
    functions_use_events(&source.functions) || tasks_use_events(&source.tasks)
}

// What a source costs more where it uses events.
fn for_events(used: bool, price: u64) -> u64
    ensures value { result ≡ for_events used price }
    ensures low { result ≤ price }
{
    if used { price } else { 0 }
}

/// How many shared scalars stand on the left of an assignment in the task or in a function that it calls, a long as two.
pub fn assigned_scalars(
    functions: &[FunctionSummary],
    shared: &[SharedDeclaration],
    body: &[Stmt<VariableName, TaskName, FunctionName>],
) -> u64
    requires few { length shared.now ≤ 256 }
    requires few_functions { length functions.now ≤ 64 }
    ensures value { result ≡ scalars_of (known_of functions.now) shared.now (block_view body.now) }
    ensures low { result ≤ 512 }
{
    scalars(shared, &assigned_variables(functions, body))
}

// The entries of the task's commit list, of which so many are scalars.
fn list_entries(
    functions: &[FunctionSummary],
    shared: &[SharedDeclaration],
    scalars: u64,
    body: &[Stmt<VariableName, TaskName, FunctionName>],
) -> u64
    requires few { length shared.now ≤ 256 }
    requires scalars { scalars ≡ scalars_of (known_of functions.now) shared.now (block_view body.now) }
    ensures { result ≡ capped (list_of (known_of functions.now) shared.now (block_view body.now)) }
{
    let stores = store_counts(functions, body);
    plus(scalars, array_entries(shared, &stores))
}

// The words of a function's code in a task, where it is marked.
fn words_if(marked: bool, function: &FunctionSummary) -> u64
    ensures { result ≡ capped (if marked then 40 + (summary_of function.now).words else 0) }
{
    if marked {
        plus(ROUTINE, function.words)
    } else {
        0
    }
}

// The words of the code of the marked functions in a task.
fn marked_words(functions: &[FunctionSummary], marks: &[bool; SHARED]) -> u64
    requires few { length functions.now ≤ 64 }
    ensures { result ≡ capped (all_called_from (λ k. slice_index_or marks.now k false) (λ s. 40 + s.words) 0 (known_of functions.now)) }
{
    let mut n = 0;
    for k in (0..functions.len()).rev() {
        n = plus(words_if(marks[k], &functions[k]), n);
    }
    n
}

// The words of the code of the functions that the task reaches.
fn routine_words(
    functions: &[FunctionSummary],
    body: &[Stmt<VariableName, TaskName, FunctionName>],
) -> u64
    requires few { length functions.now ≤ 64 }
    ensures { result ≡ capped (routine_words (known_of functions.now) (block_view body.now)) }
{
    marked_words(functions, &reached_functions(functions, body))
}

/// The words of the task's own code, where it assigns so many shared scalars, without that of the functions that it reaches; 2^64 - 1
/// where they are more.
pub fn own_code_words(
    functions: &[FunctionSummary],
    scalars: u64,
    body: &[Stmt<VariableName, TaskName, FunctionName>],
) -> u64
    requires few { scalars ≤ 512 }
    ensures { result ≡ capped (block_price (known_of functions.now) (words_column scalars) (block_view body.now)) }
{
    block_price(functions, &words_column(scalars), body)
}

/// The words of the task's code, where it assigns so many shared scalars: its own, and that of the functions that it reaches, of which
/// each task has a copy; 2^64 - 1 where they are more.
pub fn code_words(
    functions: &[FunctionSummary],
    scalars: u64,
    body: &[Stmt<VariableName, TaskName, FunctionName>],
) -> u64
    requires few { scalars ≤ 512 }
    requires few_functions { length functions.now ≤ 64 }
    ensures { result ≡ capped (block_price (known_of functions.now) (words_column scalars) (block_view body.now)
        + routine_words (known_of functions.now) (block_view body.now)) }
{
    let own = own_code_words(functions, scalars, body);
    plus(own, routine_words(functions, body))
}

/// What tasks need by the table, 2^64 - 1 where it is more.
#[derive(Clone, Copy)]
pub struct Needs {
    /// The cycles of each task at most, from a power-up to the end of its commit.
    pub bound: u64,
    /// The words of all of them.
    pub words: u64,
    /// The list entries of each at most.
    pub list: u64,
    /// The emits of each at most.
    pub emits: u64,
    /// The words of stack of each at most.
    pub stack: u64,
}

/// What a task needs by the table, in a source that takes events or not, with so many version words.
pub fn task_needs(
    functions: &[FunctionSummary],
    shared: &[SharedDeclaration],
    events: bool,
    versions: u64,
    body: &[Stmt<VariableName, TaskName, FunctionName>],
) -> Needs
    requires few { length shared.now ≤ 256 }
    requires few_functions { length functions.now ≤ 64 }
    requires low { versions < 2 ^ 32 }
    ensures bound { result.bound ≡ capped (task_bound (known_of functions.now) events versions shared.now (block_view body.now)) }
    ensures words { result.words ≡ capped (task_words (known_of functions.now) shared.now (block_view body.now)) }
    ensures list { result.list ≡ capped (list_of (known_of functions.now) shared.now (block_view body.now)) }
    ensures emits { result.emits ≡ capped (emits_of (known_of functions.now) (block_view body.now)) }
    ensures stack { result.stack ≡ capped (stack_of (known_of functions.now) (block_view body.now)) }
{
    let scalars = assigned_scalars(functions, shared, body);
    let list = list_entries(functions, shared, scalars, body);
    let emits = emits(functions, body);
    let cycles = plus(
        for_events(events, EVENT_CYCLES) + 400 + 12 * versions + 72 * scalars,
        block_price(functions, &CYCLES, body),
    );
    Needs {
        bound: plus(cycles, plus(times(40, list), times(40, emits))),
        words: plus(200 + 16 * scalars, code_words(functions, scalars, body)),
        list,
        emits,
        stack: stack(functions, body),
    }
}

// What a task needs together with others.
fn together(a: Needs, b: Needs) -> Needs
    ensures bound { result.bound ≡ max a.bound b.bound }
    ensures words { result.words ≡ capped (a.words + b.words) }
    ensures list { result.list ≡ max a.list b.list }
    ensures emits { result.emits ≡ max a.emits b.emits }
    ensures stack { result.stack ≡ max a.stack b.stack }
{
    Needs {
        bound: a.bound.max(b.bound),
        words: plus(a.words, b.words),
        list: a.list.max(b.list),
        emits: a.emits.max(b.emits),
        stack: a.stack.max(b.stack),
    }
}

fn all_needs(
    functions: &[FunctionSummary],
    shared: &[SharedDeclaration],
    events: bool,
    versions: u64,
    tasks: &[TaskDeclaration<VariableName, TaskName, FunctionName>],
) -> Needs
    requires few { length shared.now ≤ 256 }
    requires few_functions { length functions.now ≤ 64 }
    requires low { versions < 2 ^ 32 }
    ensures { AreNeeds (known_of functions.now) events versions shared.now (map task_of tasks.now) result }
{
    let mut all = Needs {
        bound: 0,
        words: 0,
        list: 0,
        emits: 0,
        stack: 0,
    };
    for i in (0..tasks.len()).rev() {
        let needs = task_needs(functions, shared, events, versions, &tasks[i].body);
        all = together(needs, all);
    }
    all
}

/// The marks of the shared variables that stand on the left of an assignment in some task or in a function that it calls.
pub fn written_variables(
    functions: &[FunctionSummary],
    tasks: &[TaskDeclaration<VariableName, TaskName, FunctionName>],
) -> [bool; SHARED]
    requires few { length functions.now ≤ 64 }
    ensures { (i : ℕ) → i < 256 → slice_index_or result i false ≡ is_written (known_of functions.now) (map task_of tasks.now) i }
{
    let mut marks = [false; SHARED];
    for i in (0..tasks.len()).rev() {
        add_marks(&mut marks, &assigned_variables(functions, &tasks[i].body));
    }
    marks
}

// The first task that counts more than 256 emits.
fn first_over(
    functions: &[FunctionSummary],
    tasks: &[TaskDeclaration<VariableName, TaskName, FunctionName>],
) -> Option<usize>
    ensures none { IfNone result (All (FewEmits (known_of functions.now)) (map task_of tasks.now)) }
    ensures some { IfSome result (IsFirstOver (known_of functions.now) (map task_of tasks.now)) }
{
    for i in 0..tasks.len() {
        if emits(functions, &tasks[i].body) > MAX_EMITS {
            return Some(i);
        }
    }
    None
}

// The words of an image.
fn size(needs: Needs, events: bool, places: u64) -> u64
    requires low { places < 2 ^ 32 }
    ensures { result ≡ capped (600 + needs.words + places + 3 * needs.list + needs.emits + for_events events 200) }
{
    plus(
        plus(600 + places + for_events(events, EVENT_WORDS), needs.words),
        plus(times(3, needs.list), needs.emits),
    )
}

// Why the task of this number is refused.
fn too_many_emits(
    functions: &[FunctionSummary],
    source: &CheckedSource,
    lines: &[u32],
    number: usize,
) -> Over
    requires lines { length lines.now ≡ length source.now.tasks.items }
    requires few_functions { length functions.now ≤ 64 }
    requires same { AreSame (known_of functions.now) (summaries (program_of source.now)) }
    requires first { IsFirstOver (known_of functions.now) (map task_of source.now.tasks.items) number }
    ensures { IsOver (program_of source.now) lines.now result }
{
    let task = &source.tasks[number];
    Over::TooManyEmits {
        line: lines[number],
        name: task.name,
        count: emits(functions, &task.body),
    }
}

fn version_words(
    functions: &[FunctionSummary],
    source: &CheckedSource,
    written: &[bool; SHARED],
) -> u64
    requires few { length source.now.shared.items ≤ 256 }
    requires few_functions { length functions.now ≤ 64 }
    requires same { AreSame (known_of functions.now) (summaries (program_of source.now)) }
    requires written { (i : ℕ) → i < 256
        → slice_index_or written.now i false ≡ is_written (known_of functions.now) (map task_of source.now.tasks.items) i }
    ensures value { result ≡ versions_of (program_of source.now) }
    ensures low { result < 2 ^ 32 }
{
    versions(&source.shared, written)
}

fn place_words(
    functions: &[FunctionSummary],
    source: &CheckedSource,
    written: &[bool; SHARED],
) -> u64
    requires few { length source.now.shared.items ≤ 256 }
    requires few_functions { length functions.now ≤ 64 }
    requires same { AreSame (known_of functions.now) (summaries (program_of source.now)) }
    requires written { (i : ℕ) → i < 256
        → slice_index_or written.now i false ≡ is_written (known_of functions.now) (map task_of source.now.tasks.items) i }
    ensures value { result ≡ places_of (program_of source.now) }
    ensures low { result < 2 ^ 32 }
{
    places(&source.shared, written)
}

fn source_needs(
    functions: &[FunctionSummary],
    source: &CheckedSource,
    events: bool,
    versions: u64,
) -> Needs
    requires few { length source.now.shared.items ≤ 256 }
    requires few_functions { length functions.now ≤ 64 }
    requires same { AreSame (known_of functions.now) (summaries (program_of source.now)) }
    requires low { versions < 2 ^ 32 }
    ensures { AreNeeds (summaries (program_of source.now)) events versions source.now.shared.items (map task_of source.now.tasks.items) result }
{
    all_needs(functions, &source.shared, events, versions, &source.tasks)
}

// What a source comes to; 2^64 - 1 where it is more.
#[derive(Clone, Copy)]
struct Totals {
    cycles: u64,
    words: u64,
    stack: u64,
    list: u64,
    emits: u64,
    versions: u64,
}

fn totals_of(functions: &[FunctionSummary], source: &CheckedSource) -> Totals
    requires few { length source.now.shared.items ≤ 256 }
    requires few_functions { length functions.now ≤ 64 }
    requires same { AreSame (known_of functions.now) (summaries (program_of source.now)) }
    ensures cycles { result.cycles ≡ capped (bound_of (program_of source.now)) }
    ensures words { result.words ≡ capped (words_of (program_of source.now)) }
    ensures stack { result.stack ≡ capped (stack_words (program_of source.now)) }
    ensures list { result.list
        ≡ capped (greatest (list_of (summaries (program_of source.now)) source.now.shared.items) (map task_of source.now.tasks.items)) }
    ensures emits { result.emits
        ≡ capped (greatest (emits_of (summaries (program_of source.now))) (map task_of source.now.tasks.items)) }
    ensures versions { result.versions ≡ versions_of (program_of source.now) }
    ensures low { result.versions < 2 ^ 32 }
{
    let written = written_variables(functions, &source.tasks);
    let versions = version_words(functions, source, &written);
    let events = uses_events(source);
    let needs = source_needs(functions, source, events, versions);
    Totals {
        cycles: needs.bound,
        words: size(needs, events, place_words(functions, source, &written)),
        stack: needs.stack,
        list: needs.list,
        emits: needs.emits,
        versions,
    }
}

// The allowance of a source that comes to this and counts few emits; or why it is too much.
fn allowed(source: &CheckedSource, lines: &[u32], totals: Totals) -> Result<Allow, Over>
    requires few_emits { AllFewEmits (program_of source.now) }
    requires cycles { totals.cycles ≡ capped (bound_of (program_of source.now)) }
    requires words { totals.words ≡ capped (words_of (program_of source.now)) }
    requires stack { totals.stack ≡ capped (stack_words (program_of source.now)) }
    requires list { totals.list
        ≡ capped (greatest (list_of (summaries (program_of source.now)) source.now.shared.items) (map task_of source.now.tasks.items)) }
    requires emits { totals.emits
        ≡ capped (greatest (emits_of (summaries (program_of source.now))) (map task_of source.now.tasks.items)) }
    requires versions { totals.versions ≡ versions_of (program_of source.now) }
    requires low { totals.versions < 2 ^ 32 }
    ensures ok { IfOk result (IsAllowed (program_of source.now)) }
    ensures over { IfErr result (IsOver (program_of source.now) lines.now) }
{
    if totals.cycles > MAX_CYCLES {
        return Err(Over::BoundTooLarge {
            number: totals.cycles,
        });
    }
    if totals.words > MAX_WORDS {
        return Err(Over::TooLarge {
            number: totals.words,
        });
    }
    if totals.stack > MAX_STACK {
        return Err(Over::StackTooLarge {
            number: totals.stack,
        });
    }
    Ok(Allow {
        cycles: totals.cycles as u32,
        words: totals.words as u32,
        list: totals.list as u32,
        emits: totals.emits as u32,
        versions: totals.versions as u32,
    })
}

/// The allowance of a source with its names looked up, each task's name on its line; or why it is too much.
pub fn allowance(source: &CheckedSource, lines: &[u32]) -> Result<Allow, Over>
    requires few { length source.now.shared.items ≤ 256 }
    requires few_functions { length source.now.functions.items ≤ 64 }
    requires lines { length lines.now ≡ length source.now.tasks.items }
    ensures ok { IfOk result (IsAllowed (program_of source.now)) }
    ensures over { IfErr result (IsOver (program_of source.now) lines.now) }
{
    let functions = summaries(&source.functions);
    if let Some(number) = first_over(&functions, &source.tasks) {
        return Err(too_many_emits(&functions, source, lines, number));
    }
    allowed(source, lines, totals_of(&functions, source))
}
