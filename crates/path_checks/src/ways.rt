//! Where the ways through a choice lead.

ghost use Rattle.std.specs.Prelude.{◌≡◌, ◌||◌, ◌&&◌, ℕ, not, drop, map, IfOk, length, is_some};
ghost use Rattle.std.specs.List.{filter};
ghost use Rattle.path_checks.specs.Walks.{is_assigned, is_left, at_mark, IsBehind};
ghost use Rattle.path_checks.specs.Ways.{ended, ended_at, ended_unassigned, is_kept, ends_left, HasEnds, IsWayEnd, IsJoined};

use crate::walk::{Walk, is_assigned, since, turn, turn_back};
use std::alloc::{AllocError, Global};

/// What a local is behind the ways through a choice that fall through so far. In a list of these the first entry of a local counts; a local with none is
/// as it was at the start.
#[derive(Clone, Copy)]
pub struct Ended {
    pub local: u32,
    pub assigned: bool,
}

/// Where a choice starts.
#[derive(Clone, Copy)]
pub struct Start {
    /// How many locals were turned up to here.
    pub mark: usize,
    /// Some path comes here.
    pub comes: bool,
}

/// A choice starts here.
pub fn start_of(walk: &Walk) -> Start
    ensures mark { result.mark ≡ length walk.now.turned.items }
    ensures comes { result.comes ≡ walk.now.falls_through }
{
    Start {
        mark: walk.turned.len(),
        comes: walk.falls_through,
    }
}

// The end of the first way that falls through.
fn first_end(walk: &Walk, mark: usize) -> Result<Vec<Ended>, AllocError>
    ensures { IfOk result (λ ends. ends.items ≡ map (ended_at (is_assigned walk.now)) (drop mark walk.now.turned.items)) }
{
    since(&walk.turned, mark)
        .iter()
        .map(|x| Ended {
            local: *x,
            assigned: is_assigned(walk, *x),
        })
        .collect(walk.alloc)
}

// What stays of the ends so far: a local that is assigned behind them, but not here, isn't behind all.
fn kept(ends: &[Ended], walk: &Walk) -> Result<Vec<Ended>, AllocError>
    ensures { IfOk result (λ kept. kept.items ≡ filter (is_kept (is_assigned walk.now)) ends.now) }
{
    ends.iter()
        .copied()
        .filter(|end| !end.assigned || is_assigned(walk, end.local))
        .collect(walk.alloc)
}

// The locals that this way turned and that are unassigned here.
fn lost(walk: &Walk, mark: usize) -> Result<Vec<Ended>, AllocError>
    ensures { IfOk result (λ lost. lost.items ≡ map ended_unassigned (filter (λ x. not (is_assigned walk.now x)) (drop mark walk.now.turned.items))) }
{
    since(&walk.turned, mark)
        .iter()
        .filter(|x| !is_assigned(walk, **x))
        .map(|x| Ended {
            local: *x,
            assigned: false,
        })
        .collect(walk.alloc)
}

// The ends so far and this one: a local is assigned behind all where it is behind both.
fn meet(ends: &[Ended], walk: &Walk, mark: usize) -> Result<Vec<Ended>, AllocError>
    ensures { IfOk result (λ both. (x : ℕ) → ended both.items x (at_mark walk.now mark x)
        ≡ (ended ends.now x (at_mark walk.now mark x) && is_assigned walk.now x)) }
{
    let mut both = kept(ends, walk)?;
    let lost = lost(walk, mark)?;
    both.extend_from_slice(&lost)?;
    Ok(both)
}

// The ends so far and this one, if it falls through.
fn with_end(ends: Vec<Ended>, walk: &Walk, mark: usize) -> Result<Vec<Ended>, AllocError>
    ensures { IfOk result (λ both. (x : ℕ) → not (ended both.items x (at_mark walk.now mark x))
        ≡ (not (ended ends.items x (at_mark walk.now mark x)) || is_left walk.now x)) }
{
    if walk.falls_through {
        meet(&ends, walk, mark)
    } else {
        Ok(ends)
    }
}

fn with_way(
    ends: Option<Vec<Ended>>,
    walk: &Walk,
    mark: usize,
) -> Result<Option<Vec<Ended>>, AllocError>
    ensures { IfOk result (λ both. HasEnds both (is_some ends || walk.now.falls_through)
        (λ x. ends_left ends x (at_mark walk.now mark x) || is_left walk.now x) (at_mark walk.now mark)) }
{
    match ends {
        Some(ends) => Ok(Some(with_end(ends, walk, mark)?)),
        None => {
            if walk.falls_through {
                Ok(Some(first_end(walk, mark)?))
            } else {
                Ok(None)
            }
        }
    }
}

/// One way ends here: its end goes with those so far, and the walk goes back to the start of the choice. What was read stays.
pub fn end_way(
    start: Start,
    ends: Option<Vec<Ended>>,
    walk: &mut Walk,
) -> Result<Option<Vec<Ended>>, AllocError>
    ensures { IfOk result (λ both. IsWayEnd start.mark start.comes ends both walk.old walk.new) }
{
    let both = with_way(ends, walk, start.mark)?;
    turn_back(walk, start.mark, start.comes)?;
    Ok(both)
}

fn put_ends(walk: &mut Walk, ends: &[Ended]) -> Result<(), AllocError>
    ensures assigned { IfOk result (λ _. (x : ℕ) → is_assigned walk.new x ≡ ended ends.now x (is_assigned walk.old x)) }
    ensures behind { IfOk result (λ _. IsBehind walk.old walk.new) }
    ensures falls_through { walk.new.falls_through ≡ walk.old.falls_through }
    ensures fault { walk.new.fault ≡ walk.old.fault }
{
    for i in (0..ends.len()).rev() {
        turn(walk, ends[i].local, ends[i].assigned)?;
    }
    Ok(())
}

/// The last way ends here, and the walk goes on behind the choice.
pub fn join_ways(start: Start, ends: Option<Vec<Ended>>, walk: &mut Walk) -> Result<(), AllocError>
    ensures { IfOk result (λ _. IsJoined start.mark ends walk.old walk.new) }
{
    match ends {
        None => Ok(()),
        Some(ends) => {
            let both = with_end(ends, walk, start.mark)?;
            turn_back(walk, start.mark, true)?;
            put_ends(walk, &both)
        }
    }
}
