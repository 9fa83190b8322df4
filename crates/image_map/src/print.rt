//! Maps written as lines.
ghost use Rattle.std.specs.Prelude.{◌≡◌, ◌<◌, ◌≤◌, ◌++◌, ◌∷◌, [], All, OnOk, codes, decimal, length, map, Some, None, true};
ghost use Rattle.text_parts.specs.Printed.{spaced, printed};
ghost use Rattle.image_map.specs.Names.{is_name};
ghost use Rattle.image_map.specs.Kept.{IsMap};
ghost use Rattle.image_map.specs.Text.{address_text, runtime_fields, place_fields, copies_fields, type_text, sized_fields, variable_fields, private_fields};
ghost use Rattle.image_map.specs.Text.{ring_line, ring_fields, optional_fields};
ghost use Rattle.image_map.specs.Text.{task_fields, tasks_fields, head_fields, map_text, tail_text};
ghost use Rattle.image_map.specs.Named.{AreTaskNames};
ghost use Rattle.image_map.specs.ReadsBack.{ReadsBack};

use crate::map::Map;
use crate::name::Name;
use crate::parts::{Place, RING_WORDS, RingPlaces, RuntimeWords, Task, ValueType, Variable};
use alp_text::print_u64;
use std::alloc::AllocError;
use text_parts::upper_hex;

fn push_field(out: &mut Vec<u8>, field: &[u8]) -> Result<(), AllocError>
    ensures { OnOk result (out.new.items ≡ out.old.items ++ 32 ∷ field.now) }
{
    out.push(b' ')?;
    out.extend_from_slice(field)
}

#[tactic(auto, unfolding(crate::specs::Text::tail_text))]
fn push_tail(out: &mut Vec<u8>, fields: &[&[u8]]) -> Result<(), AllocError>
    ensures { OnOk result (out.new.items ≡ out.old.items ++ tail_text (map (λ f. f.now) fields.now)) }
{
    for field in fields {
        push_field(out, field)?;
    }
    Ok(())
}

// A line of fields with one space between.
fn push_line(out: &mut Vec<u8>, first: &[u8], fields: &[&[u8]]) -> Result<(), AllocError>
    ensures { OnOk result (out.new.items ≡ out.old.items ++ (spaced (first.now ∷ map (λ f. f.now) fields.now) ++ 10 ∷ [])) }
{
    out.extend_from_slice(first)?;
    push_tail(out, fields)?;
    out.extend_from_slice(b"\n")
}

#[tactic(auto, unfolding(crate::specs::Text::address_text, text_parts::specs::Hex::upper_hex))]
fn address_text(address: u16) -> [u8; 4]
    ensures { result ≡ address_text address }
{
    let [a, b] = upper_hex((address / 256) as u8);
    let [c, d] = upper_hex((address % 256) as u8);
    [a, b, c, d]
}

fn push_bound(out: &mut Vec<u8>, bound: u32) -> Result<(), AllocError>
    ensures { OnOk result (out.new.items ≡ out.old.items ++ (spaced (codes "bound" ∷ decimal bound ∷ []) ++ 10 ∷ [])) }
{
    let bound = print_u64(bound as u64);
    push_line(out, b"bound", &[bound.as_bytes()])
}

fn push_words(out: &mut Vec<u8>, words: RuntimeWords) -> Result<(), AllocError>
    ensures { OnOk result (out.new.items ≡ out.old.items ++ (spaced (runtime_fields words) ++ 10 ∷ [])) }
{
    let current_task = address_text(words.current_task);
    let next_task = address_text(words.next_task);
    let gate = address_text(words.gate);
    let list_length = address_text(words.list_length);
    let emit_count = address_text(words.emit_count);
    let base = address_text(words.base);
    let sent_base = address_text(words.sent_base);
    let version = address_text(words.version);
    push_line(
        out,
        b"words",
        &[
            &current_task,
            &next_task,
            &gate,
            &list_length,
            &emit_count,
            &base,
            &sent_base,
            &version,
        ],
    )
}

fn push_place(out: &mut Vec<u8>, word: &[u8], place: Place) -> Result<(), AllocError>
    ensures { OnOk result (out.new.items ≡ out.old.items ++ (spaced (place_fields word.now place) ++ 10 ∷ [])) }
{
    let address = address_text(place.address);
    let capacity = print_u64(place.capacity as u64);
    push_line(out, word, &[&address, capacity.as_bytes()])
}

#[tactic(auto, unfolding(text_parts::specs::Printed::printed))]
fn push_copies(out: &mut Vec<u8>, copies: Option<Place>) -> Result<(), AllocError>
    ensures { OnOk result (out.new.items ≡ out.old.items ++ printed (copies_fields copies)) }
{
    match copies {
        None => Ok(()),
        Some(place) => push_place(out, b"copies", place),
    }
}

fn push_ring_line(out: &mut Vec<u8>, ring: RingPlaces) -> Result<(), AllocError>
    ensures { OnOk result (out.new.items ≡ out.old.items ++ (spaced (ring_line ring) ++ 10 ∷ [])) }
{
    let head = address_text(ring.head);
    let tail = address_text(ring.tail);
    let event_count = address_text(ring.event_count);
    let sent_tail = address_text(ring.sent_tail);
    let answer = address_text(ring.answer);
    let slots = address_text(ring.slots);
    let words = print_u64(RING_WORDS as u64);
    push_line(
        out,
        b"ring",
        &[
            &head,
            &tail,
            &event_count,
            &sent_tail,
            &answer,
            &slots,
            words.as_bytes(),
        ],
    )
}

#[tactic(auto, unfolding(text_parts::specs::Printed::printed))]
fn push_ring(out: &mut Vec<u8>, ring: Option<RingPlaces>) -> Result<(), AllocError>
    ensures { OnOk result (out.new.items ≡ out.old.items ++ printed (ring_fields ring)) }
{
    match ring {
        None => Ok(()),
        Some(ring) => push_ring_line(out, ring),
    }
}

// The lines that may be left out: of the copies, then of the ring.
fn push_optional(out: &mut Vec<u8>, map: &Map) -> Result<(), AllocError>
    ensures { OnOk result (out.new.items ≡ out.old.items ++ printed (optional_fields map.now)) }
{
    push_copies(out, map.copies())?;
    push_ring(out, map.ring())
}

#[tactic(auto, unfolding(text_parts::specs::Printed::printed))]
fn push_head(out: &mut Vec<u8>, map: &Map) -> Result<(), AllocError>
    ensures { OnOk result (out.new.items ≡ out.old.items ++ printed (head_fields map.now)) }
{
    push_line(out, b"map", &[])?;
    push_bound(out, map.bound())?;
    push_words(out, map.words())?;
    push_place(out, b"list", map.list())?;
    push_place(out, b"emits", map.emits())?;
    push_place(out, b"versions", map.versions())
}

fn type_text<'a>(value_type: ValueType) -> &'a [u8]
    ensures { result.now ≡ type_text value_type }
{
    match value_type {
        ValueType::Unsigned => b"unsigned",
        ValueType::Int => b"int",
        ValueType::Long => b"long",
    }
}

fn push_scalar(out: &mut Vec<u8>, v: &Variable) -> Result<(), AllocError>
    ensures { OnOk result (out.new.items ≡ out.old.items ++ (spaced (sized_fields None v.now.name v.now.value_type v.now.address) ++ 10 ∷ [])) }
{
    let address = address_text(v.address);
    push_line(
        out,
        b"scalar",
        &[v.name.as_bytes(), type_text(v.value_type), &address],
    )
}

fn push_array(out: &mut Vec<u8>, v: &Variable, length: u16) -> Result<(), AllocError>
    ensures { OnOk result (out.new.items ≡ out.old.items ++ (spaced (sized_fields (Some length) v.now.name v.now.value_type v.now.address) ++ 10 ∷ [])) }
{
    let address = address_text(v.address);
    let length = print_u64(length as u64);
    push_line(
        out,
        b"array",
        &[
            v.name.as_bytes(),
            type_text(v.value_type),
            &address,
            length.as_bytes(),
        ],
    )
}

fn is_named(v: &Variable)
    ensures { is_name v.now.name ≡ true }
{
    let _ = v.name.as_bytes();
}

fn push_variable(out: &mut Vec<u8>, v: &Variable) -> Result<(), AllocError>
    ensures text { OnOk result (out.new.items ≡ out.old.items ++ (spaced (variable_fields v.now) ++ 10 ∷ [])) }
    ensures name { OnOk result (is_name v.now.name ≡ true) }
{
    is_named(v);
    match v.length {
        None => push_scalar(out, v),
        Some(length) => push_array(out, v, length),
    }
}

#[tactic(auto, unfolding(text_parts::specs::Printed::printed))]
fn push_variables(out: &mut Vec<u8>, variables: &[Variable]) -> Result<(), AllocError>
    ensures text { OnOk result (out.new.items ≡ out.old.items ++ printed (map variable_fields variables.now)) }
    ensures names { OnOk result (All (λ v. is_name v.name ≡ true) variables.now) }
{
    for v in variables {
        push_variable(out, v)?;
    }
    Ok(())
}

fn push_private(out: &mut Vec<u8>, name: &Name) -> Result<(), AllocError>
    ensures text { OnOk result (out.new.items ≡ out.old.items ++ (spaced (private_fields name.now) ++ 10 ∷ [])) }
    ensures name { OnOk result (is_name name.now ≡ true) }
{
    push_line(out, b"private", &[name.as_bytes()])
}

#[tactic(auto, unfolding(text_parts::specs::Printed::printed))]
fn push_privates(out: &mut Vec<u8>, names: &[Name]) -> Result<(), AllocError>
    ensures text { OnOk result (out.new.items ≡ out.old.items ++ printed (map private_fields names.now)) }
    ensures names { OnOk result (All (λ n. is_name n ≡ true) names.now) }
{
    for name in names {
        push_private(out, name)?;
    }
    Ok(())
}

#[tactic(auto, unfolding(text_parts::specs::Printed::printed))]
fn push_task(out: &mut Vec<u8>, task: &Task) -> Result<(), AllocError>
    ensures text { OnOk result (out.new.items ≡ out.old.items ++ printed (task_fields task.now)) }
    ensures names { OnOk result (AreTaskNames task.now) }
{
    push_line(out, b"task", &[task.name().as_bytes()])?;
    push_privates(out, task.privates())
}

fn push_tasks(out: &mut Vec<u8>, tasks: &[Task]) -> Result<(), AllocError>
    ensures text { OnOk result (out.new.items ≡ out.old.items ++ printed (tasks_fields tasks.now)) }
    ensures names { OnOk result (All AreTaskNames tasks.now) }
{
    for task in tasks {
        push_task(out, task)?;
    }
    Ok(())
}

/// Writes the lines of a map behind a text. They read back as the map, if it has a task.
pub fn push_map(out: &mut Vec<u8>, map: &Map) -> Result<(), AllocError>
    ensures text { OnOk result (out.new.items ≡ out.old.items ++ map_text map.now) }
    ensures reads_back { 0 < length map.now.tasks → OnOk result (ReadsBack map.now) }
{
    map.rules();
    push_head(out, map)?;
    push_optional(out, map)?;
    push_variables(out, map.variables())?;
    push_tasks(out, map.tasks())?;
    push_line(out, b"end", &[])
}
