//! The lines that tell what tasks need of a charge.

ghost use Rattle.std.specs.Prelude.{◌≡◌, ◌++◌, ◌∷◌, [], OnOk, decimal, codes, map};
ghost use Rattle.text_parts.specs.Printed.{spaced, printed};
ghost use Rattle.need_lines.specs.Rows.{row_of};
ghost use Rattle.need_lines.specs.Lines.{task_fields, parts_fields, way_fields, undo_fields, rows_fields};
ghost use Rattle.need_lines.specs.Lines.{last_undo_fields, last_fields, needs_text, tail_text};

use crate::needs::{IfWay, TaskNeed, UndoNeed, greatest, greatest_undo};
use alp_text::print_u64;
use std::alloc::AllocError;

fn push_field(out: &mut Vec<u8>, field: &[u8]) -> Result<(), AllocError>
    ensures { OnOk result (out.new.items ≡ out.old.items ++ 32 ∷ field.now) }
{
    out.push(b' ')?;
    out.extend_from_slice(field)
}

#[tactic(auto, unfolding(crate::specs::Lines::tail_text))]
fn push_tail(out: &mut Vec<u8>, fields: &[&[u8]]) -> Result<(), AllocError>
    ensures { OnOk result (out.new.items ≡ out.old.items ++ tail_text (map (λ f. f.now) fields.now)) }
{
    for field in fields {
        push_field(out, field)?;
    }
    Ok(())
}

// A line of fields with one blank between.
fn push_line(out: &mut Vec<u8>, first: &[u8], fields: &[&[u8]]) -> Result<(), AllocError>
    ensures { OnOk result (out.new.items ≡ out.old.items ++ (spaced (first.now ∷ map (λ f. f.now) fields.now) ++ 10 ∷ [])) }
{
    out.extend_from_slice(first)?;
    push_tail(out, fields)?;
    out.extend_from_slice(b"\n")
}

fn push_task(out: &mut Vec<u8>, task: &TaskNeed<'_>) -> Result<(), AllocError>
    ensures { OnOk result (out.new.items ≡ out.old.items ++ (spaced (task_fields (row_of task.now)) ++ 10 ∷ [])) }
{
    let need = print_u64(task.need());
    let table = print_u64(task.table as u64);
    let words = print_u64(task.words as u64);
    push_line(
        out,
        b"task",
        &[
            task.name,
            need.as_bytes(),
            table.as_bytes(),
            words.as_bytes(),
        ],
    )
}

fn push_parts(out: &mut Vec<u8>, task: &TaskNeed<'_>) -> Result<(), AllocError>
    ensures { OnOk result (out.new.items ≡ out.old.items ++ (spaced (parts_fields (row_of task.now)) ++ 10 ∷ [])) }
{
    let boot = print_u64(task.boot as u64);
    let start = print_u64(task.start as u64);
    let path = print_u64(task.path as u64);
    let commit = print_u64(task.commit as u64);
    push_line(
        out,
        b"parts",
        &[
            boot.as_bytes(),
            start.as_bytes(),
            path.as_bytes(),
            commit.as_bytes(),
        ],
    )
}

fn push_way(out: &mut Vec<u8>, way: &IfWay) -> Result<(), AllocError>
    ensures { OnOk result (out.new.items ≡ out.old.items ++ (spaced (way_fields way.now) ++ 10 ∷ [])) }
{
    let line = print_u64(way.line as u64);
    let number = print_u64(way.way);
    let times = print_u64(way.times);
    push_line(
        out,
        b"way",
        &[line.as_bytes(), number.as_bytes(), times.as_bytes()],
    )
}

// A line for each way.
fn push_ways(out: &mut Vec<u8>, ways: &[IfWay]) -> Result<(), AllocError>
    ensures { OnOk result (out.new.items ≡ out.old.items ++ printed (map way_fields ways.now)) }
{
    for way in ways {
        push_way(out, way)?;
    }
    Ok(())
}

fn push_undo(out: &mut Vec<u8>, undo: UndoNeed) -> Result<(), AllocError>
    ensures { OnOk result (out.new.items ≡ out.old.items ++ (spaced (undo_fields undo) ++ 10 ∷ [])) }
{
    let need = print_u64(undo.need());
    let boot = print_u64(undo.boot as u64);
    let start = print_u64(undo.start as u64);
    let path = print_u64(undo.path as u64);
    let commit = print_u64(undo.commit as u64);
    push_line(
        out,
        b"undo",
        &[
            need.as_bytes(),
            boot.as_bytes(),
            start.as_bytes(),
            path.as_bytes(),
            commit.as_bytes(),
        ],
    )
}

// The lines of each task.
fn push_tasks(out: &mut Vec<u8>, tasks: &[TaskNeed<'_>]) -> Result<(), AllocError>
    ensures { OnOk result (out.new.items ≡ out.old.items ++ printed (rows_fields (map row_of tasks.now))) }
{
    for task in tasks {
        push_task(out, task)?;
        push_parts(out, task)?;
        push_ways(out, &task.ways)?;
        push_undo(out, task.undo)?;
    }
    Ok(())
}

fn push_last(out: &mut Vec<u8>, most: u64, bound: u32) -> Result<(), AllocError>
    ensures { OnOk result (out.new.items ≡ out.old.items ++ (spaced (last_fields most bound) ++ 10 ∷ [])) }
{
    let most = print_u64(most);
    let bound = print_u64(bound as u64);
    push_line(out, b"need", &[most.as_bytes(), b"of", bound.as_bytes()])
}

fn push_last_undo(out: &mut Vec<u8>, most: u64, bound: u32) -> Result<(), AllocError>
    ensures { OnOk result (out.new.items ≡ out.old.items ++ (spaced (last_undo_fields most bound) ++ 10 ∷ [])) }
{
    let most = print_u64(most);
    let bound = print_u64(bound as u64);
    push_line(out, b"undo", &[most.as_bytes(), b"of", bound.as_bytes()])
}

/// Writes behind a text the lines of each task, its need, its parts, its ways and its need in place, and the greatest needs of them with the bound.
pub fn push_needs(out: &mut Vec<u8>, tasks: &[TaskNeed<'_>], bound: u32) -> Result<(), AllocError>
    ensures { OnOk result (out.new.items ≡ out.old.items ++ needs_text (map row_of tasks.now) bound) }
{
    push_tasks(out, tasks)?;
    push_last_undo(out, greatest_undo(tasks), bound)?;
    push_last(out, greatest(tasks), bound)
}
