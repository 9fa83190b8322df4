//! The map of a source.
ghost use Rattle.std.specs.Prelude.{◌≡◌, ◌<◌, ◌≤◌, ◌∷◌, [], true, All, IfOk, OnOk, length, map, None, Some, if◌then◌else◌};
ghost use Rattle.task_ast.specs.View as tree;
ghost use Rattle.image_map.specs.Names.{is_name};
ghost use Rattle.image_map.specs.MapValue.{takes_task, with_task};
ghost use Rattle.source_runs.specs.Naming.{length_of};
ghost use Rattle.source_report.specs.SourceReport.{spelled};
ghost use Rattle.memory_map.specs.Places.{home_region};
ghost use Rattle.source_maps.specs.Maps as maps;
ghost use Rattle.source_maps.specs.Maps.{variables_of, private_names, task_value_of, tasks_of};
ghost use Rattle.source_maps.specs.Names.{HasNames};
ghost use Rattle.source_maps.specs.Adding.{bare_map, map_with_variables, with_variables, TakesVariables, with_privates, TakesPrivates, with_whole_task};
ghost use Rattle.source_maps.specs.Adding.{with_tasks, TakesTasks, TakesSource};

use alp_text::Span;
use cost_bound::Allow;
use event_places::{ANSWER, EVENT_COUNT, HEAD, RING, SENT_TAIL, TAIL};
use image_map::{Map, Name, Place, RingPlaces, RuntimeWords, ValueType, Variable};
use memory_map::{Layout, Logging, PrivateScalar, Region, RuntimeWord, TaskLayout, VariablePlace};
use source_report::spelled;
use std::alloc::{AllocError, Global};
use task_ast::{
    CheckedSource, Extent, FunctionName, SharedDeclaration, TaskDeclaration, TaskName,
    VariableName, WordType,
};

// The name that stands at a span of the text.
fn name_at(text: &[u8], span: Span) -> Name
    requires { is_name (spelled text.now span) ≡ true }
    ensures { result ≡ spelled text.now span }
{
    match Name::of(spelled(text, span)) {
        Some(name) => name,
        None => unreachable!(),
    }
}

fn word_value_type(word_type: WordType) -> ValueType
    ensures { result ≡ maps.word_value_type word_type }
{
    match word_type {
        WordType::Unsigned | WordType::Long => ValueType::Unsigned,
        WordType::Int => ValueType::Int,
    }
}

fn value_type_of(word_type: WordType, extent: Extent) -> ValueType
    ensures { result ≡ maps.value_type_of word_type extent }
{
    match extent {
        Extent::Scalar(_) | Extent::Array(_) => word_value_type(word_type),
        Extent::Long(_) => ValueType::Long,
    }
}

fn length_of(extent: Extent) -> Option<u16>
    ensures { result ≡ length_of extent }
{
    match extent {
        Extent::Scalar(_) | Extent::Long(_) => None,
        Extent::Array(length) => Some(length),
    }
}

// The address of a variable's first word.
fn home_of(place: VariablePlace) -> u16
    ensures { result ≡ (home_region place).address }
{
    match place {
        VariablePlace::Scalar { home, .. } => home,
        VariablePlace::Array { elements, .. } => elements,
    }
}

fn variable_of(text: &[u8], declaration: &SharedDeclaration, place: VariablePlace) -> Variable
    requires { is_name (spelled text.now declaration.now.name) ≡ true }
    ensures { result ≡ maps.variable_of text.now declaration.now place }
{
    Variable {
        name: name_at(text, declaration.name),
        value_type: value_type_of(declaration.word_type, declaration.extent),
        address: home_of(place),
        length: length_of(declaration.extent),
    }
}

// Adds the shared variables behind the others.
fn add_variables(
    added: &mut Map,
    text: &[u8],
    shared: &[SharedDeclaration],
    places: &[VariablePlace],
) -> Result<(), AllocError>
    requires count { length shared.now ≡ length places.now }
    requires names { All (λ d. is_name (spelled text.now d.name) ≡ true) shared.now }
    requires takes { TakesVariables added.old (variables_of text.now shared.now places.now) }
    ensures { OnOk result (added.new ≡ with_variables added.old (variables_of text.now shared.now places.now)) }
{
    for i in 0..shared.len() {
        added.add_variable(variable_of(text, &shared[i], places[i]))?;
    }
    Ok(())
}

// The name of a shared variable by its number.
fn shared_name(text: &[u8], shared: &[SharedDeclaration], number: u32) -> Name
    requires declared { number < length shared.now }
    requires names { All (λ d. is_name (spelled text.now d.name) ≡ true) shared.now }
    ensures { result ≡ maps.shared_name text.now shared.now number }
{
    name_at(text, shared[number as usize].name)
}

// Adds private scalars to the last task.
fn add_privates(
    added: &mut Map,
    text: &[u8],
    shared: &[SharedDeclaration],
    privates: &[PrivateScalar],
) -> Result<(), AllocError>
    requires declared { All (λ s. s.number < length shared.now) privates.now }
    requires names { All (λ d. is_name (spelled text.now d.name) ≡ true) shared.now }
    requires takes { TakesPrivates added.old (private_names text.now shared.now privates.now) }
    ensures { OnOk result (added.new ≡ with_privates added.old (private_names text.now shared.now privates.now)) }
{
    for scalar in privates {
        added.add_private(shared_name(text, shared, scalar.number))?;
    }
    Ok(())
}

// Adds a task with its private scalars.
fn add_task(
    alloc: Global,
    added: &mut Map,
    text: &[u8],
    shared: &[SharedDeclaration],
    task: &TaskDeclaration<VariableName, TaskName, FunctionName>,
    layout: &TaskLayout,
) -> Result<(), AllocError>
    requires declared { All (λ s. s.number < length shared.now) layout.now.privates }
    requires variables { All (λ d. is_name (spelled text.now d.name) ≡ true) shared.now }
    requires name { is_name (spelled text.now task.now.name) ≡ true }
    requires takes { takes_task added.old (spelled text.now task.now.name) ≡ true }
    requires takes_privates { TakesPrivates (with_task added.old (spelled text.now task.now.name)) (private_names text.now shared.now layout.now.privates) }
    ensures { OnOk result (added.new ≡ with_whole_task added.old (task_value_of text.now shared.now (tree.task_of task.now) layout.now)) }
{
    added.add_task(alloc, name_at(text, task.name))?;
    add_privates(added, text, shared, layout.privates())
}

// Adds the tasks with their private scalars.
fn add_tasks(
    alloc: Global,
    added: &mut Map,
    text: &[u8],
    shared: &[SharedDeclaration],
    tasks: &[TaskDeclaration<VariableName, TaskName, FunctionName>],
    layouts: &[TaskLayout],
) -> Result<(), AllocError>
    requires count { length tasks.now ≡ length layouts.now }
    requires declared { All (λ t. All (λ s. s.number < length shared.now) t.privates) layouts.now }
    requires variables { All (λ d. is_name (spelled text.now d.name) ≡ true) shared.now }
    requires names { All (λ t. is_name (spelled text.now t.name) ≡ true) tasks.now }
    requires takes { TakesTasks added.old (tasks_of text.now shared.now (map tree.task_of tasks.now) layouts.now) }
    ensures { OnOk result (added.new ≡ with_tasks added.old (tasks_of text.now shared.now (map tree.task_of tasks.now) layouts.now)) }
{
    for k in 0..tasks.len() {
        add_task(alloc, added, text, shared, &tasks[k], &layouts[k])?;
    }
    Ok(())
}

// The words of the runtime, by their names in a map.
fn map_words(layout: &Layout) -> RuntimeWords
    ensures { result ≡ maps.map_words layout.now }
{
    RuntimeWords {
        current_task: layout.word_place(RuntimeWord::CurrentTask),
        next_task: layout.word_place(RuntimeWord::NextTask),
        gate: layout.word_place(RuntimeWord::Gate),
        list_length: layout.word_place(RuntimeWord::ListLength),
        emit_count: layout.word_place(RuntimeWord::EmitCount),
        base: layout.word_place(RuntimeWord::Base),
        sent_base: layout.word_place(RuntimeWord::SentBase),
        version: layout.word_place(RuntimeWord::Version),
    }
}

// The commit list, with the entries that it has room for.
fn map_list(layout: &Layout) -> Place
    ensures { result ≡ maps.map_list layout.now }
{
    Place {
        address: layout.list().address,
        capacity: layout.entries(),
    }
}

// A buffer of single words.
fn map_buffer(region: Region) -> Place
    ensures { result ≡ maps.map_buffer region }
{
    Place {
        address: region.address,
        capacity: region.words,
    }
}

// How many words of copies a map names: where the runtime works in the shared words there are none.
fn copied_words(logging: Logging, words: u32) -> u32
    ensures { result ≡ maps.copied_words logging words }
{
    match logging {
        Logging::Redo => words,
        Logging::Undo => 0,
    }
}

// The place of the private copies.
fn map_copies(layout: &Layout) -> Place
    ensures { result ≡ maps.map_copies layout.now }
{
    let copies = layout.copies();
    Place {
        address: copies.address,
        capacity: copied_words(layout.runtime().logging, copies.words),
    }
}

// The ring, which stands at one place in each image of a source that takes events.
fn event_ring() -> RingPlaces
    ensures { result ≡ maps.event_ring }
{
    RingPlaces {
        head: HEAD,
        tail: TAIL,
        event_count: EVENT_COUNT,
        sent_tail: SENT_TAIL,
        answer: ANSWER,
        slots: RING,
    }
}

// Says where the ring is, where the source takes events.
fn set_ring(added: &mut Map, events: bool)
    requires { added.old.ring ≡ None }
    ensures { added.new ≡ record added.old { ring = if events then Some maps.event_ring else None } }
{
    if events {
        added.set_ring(event_ring());
    }
}

/// The map of a source with its layout and its allowance.
pub fn map_of(
    alloc: Global,
    text: &[u8],
    source: &CheckedSource,
    layout: &Layout,
    allow: &Allow,
) -> Result<Map, AllocError>
    requires variables { length source.now.shared.items ≡ length layout.now.variables }
    requires tasks { length source.now.tasks.items ≡ length layout.now.tasks }
    requires declared { All (λ t. All (λ s. s.number < length source.now.shared.items) t.privates) layout.now.tasks }
    requires names { HasNames text.now (tree.program_of source.now) }
    requires takes { TakesSource text.now (tree.program_of source.now) layout.now allow.now }
    ensures { IfOk result (λ m. m ≡ maps.map_of text.now (tree.program_of source.now) layout.now allow.now) }
{
    layout.rules();
    let words = map_words(layout);
    let list = map_list(layout);
    let emits = map_buffer(layout.emits());
    let versions = map_buffer(layout.versions());
    let copies = map_copies(layout);
    let mut map = Map::new(alloc, allow.cycles, words, list, emits, versions);
    map.set_copies(copies);
    set_ring(&mut map, layout.runtime().events);
    add_variables(&mut map, text, source.shared.as_slice(), layout.variables())?;
    add_tasks(
        alloc,
        &mut map,
        text,
        source.shared.as_slice(),
        source.tasks.as_slice(),
        layout.tasks(),
    )?;
    Ok(map)
}
