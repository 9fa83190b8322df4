//! Which ways a task goes at its `if`s.

ghost use Rattle.std.specs.Prelude.{◌≡◌, ◌++◌, IfOk, OnOk, slice_index};
ghost use Rattle.condition_lines.specs.Conditions.{lists_of};
ghost use Rattle.condition_lines.specs.Ways.{failed_way, held_ways, task_ways, way_if};

use need_lines::IfWay;
use std::alloc::{AllocError, Global};

// How often a condition of a number is counted.
fn count(counts: &[u64], number: u32) -> u64
    ensures { result ≡ slice_index counts.now number }
{
    let number = number as usize;
    if number < counts.len() {
        counts[number]
    } else {
        0
    }
}

// A way that is gone so often, if it ever is.
fn push_way(ways: &mut Vec<IfWay>, line: u32, way: u64, times: u64) -> Result<(), AllocError>
    ensures { OnOk result (ways.new.items ≡ ways.old.items ++ way_if line way times) }
{
    if times != 0 {
        ways.push(IfWay { line, way, times })?;
    }
    Ok(())
}

// The ways by an `if`'s conditions.
fn push_held(
    ways: &mut Vec<IfWay>,
    line: u32,
    numbers: &[u32],
    held: &[u64],
) -> Result<(), AllocError>
    ensures { OnOk result (ways.new.items ≡ ways.old.items ++ held_ways line held.now 1 numbers.now) }
{
    for i in 0..numbers.len() {
        push_way(ways, line, i as u64 + 1, count(held, numbers[i]))?;
    }
    Ok(())
}

// The way where none holds.
#[tactic(auto, using(crate::proofs::Last::none_fails, crate::proofs::Last::last_fails))]
fn push_failed(
    ways: &mut Vec<IfWay>,
    line: u32,
    numbers: &[u32],
    failed: &[u64],
) -> Result<(), AllocError>
    ensures { OnOk result (ways.new.items ≡ ways.old.items ++ failed_way line failed.now numbers.now) }
{
    if numbers.is_empty() {
        Ok(())
    } else {
        push_way(ways, line, 0, count(failed, numbers[numbers.len() - 1]))
    }
}

// Both at one `if`.
fn push_if(
    ways: &mut Vec<IfWay>,
    line: u32,
    numbers: &[u32],
    held: &[u64],
    failed: &[u64],
) -> Result<(), AllocError>
    ensures { OnOk result (ways.new.items ≡ ways.old.items ++ (held_ways line held.now 1 numbers.now ++ failed_way line failed.now numbers.now)) }
{
    push_held(ways, line, numbers, held)?;
    push_failed(ways, line, numbers, failed)
}

/// The ways that a task goes, in the order of the text, by the lines of its `if`s, the numbers of their conditions, and how often the condition of each
/// number holds and fails.
///
/// # Errors
/// `AllocError` where memory was refused.
pub fn task_ways(
    alloc: Global,
    lines: &[u32],
    ifs: &[Vec<u32>],
    held: &[u64],
    failed: &[u64],
) -> Result<Vec<IfWay>, AllocError>
    ensures { IfOk result (λ ways. ways.items ≡ task_ways held.now failed.now lines.now (lists_of ifs.now)) }
{
    let mut ways = Vec::new(alloc);
    for i in 0..ifs.len() {
        if i < lines.len() {
            push_if(&mut ways, lines[i], &ifs[i], held, failed)?;
        }
    }
    Ok(ways)
}
