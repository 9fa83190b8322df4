//! How often a way takes each of its choices.

ghost use Rattle.std.specs.Prelude.{◌≡◌, ◌==◌, ◌*◌, ◌<◌, ◌^◌, ℕ, IfOk, if◌then◌else◌, length, slice_index};
ghost use Rattle.code_ways.specs.Choices.{HaveGrown, choices_of, counts_from, taken_of, times_of};

use crate::choices::Choices;
use code_paths::plus;
use std::alloc::{AllocError, Global};
use std::rc::Rc;

// One choice more, so often.
fn add_one(number: u32, times: u64, counts: &mut [u64])
    ensures length { length counts.new ≡ length counts.old }
    ensures grown { HaveGrown counts.old counts.new (λ i. if number == i then times else 0) }
{
    let number = number as usize;
    if number < counts.len() {
        counts[number] = plus(counts[number], times);
    }
}

// The choices that are taken so, so often each.
fn add(choices: &Choices, holds: bool, times: u64, counts: &mut [u64])
    ensures length { length counts.new ≡ length counts.old }
    ensures grown { HaveGrown counts.old counts.new (λ i. times * times_of holds i (choices_of choices.now)) }
{
    match choices {
        Choices::One { number, holds: so } => {
            if *so == holds {
                add_one(*number, times, counts);
            }
        }
        Choices::Behind(first, second) => {
            add(first, holds, times, counts);
            add(second, holds, times, counts);
        }
        Choices::Turns(turns, turn) => add(
            turn,
            holds,
            times.saturating_mul(*turns as u64),
            counts,
        ),
    }
}

// Those of a way, if it takes any.
fn add_taken(taken: &Option<Rc<Choices>>, holds: bool, counts: &mut [u64])
    ensures length { length counts.new ≡ length counts.old }
    ensures grown { HaveGrown counts.old counts.new (λ i. times_of holds i (taken_of taken.now)) }
    ensures low { (i : ℕ) → slice_index counts.new i < 2 ^ 64 }
{
    match taken {
        None => {}
        Some(choices) => add(choices, holds, 1, counts),
    }
}

/// How often each of so many choices is taken so, in the order of their numbers; 2^64 - 1 where it is more.
pub fn counts_of(
    alloc: Global,
    taken: &Option<Rc<Choices>>,
    holds: bool,
    choices: u32,
) -> Result<Vec<u64>, AllocError>
    ensures { IfOk result (λ counts. counts.items ≡ counts_from holds 0 choices (taken_of taken.now)) }
{
    let mut counts = vec![in alloc; 0u64; choices as usize]?;
    add_taken(taken, holds, &mut counts);
    Ok(counts)
}
