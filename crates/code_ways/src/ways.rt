//! The dearest ways through a stretch of code.

ghost use Rattle.std.specs.Prelude.{◌≡◌, ◌*◌, ◌<◌, ◌≤◌, suc, IfOk, Some};
ghost use Rattle.std.specs.Option.{option_map};
ghost use Rattle.code_ways.specs.Ways.{way_of, ways_of, forks_of, both_ways, dearer_of, straight_ways, choice_ways, leaving_ways, ways_behind, either_ways};
ghost use Rattle.code_ways.specs.Ways.{way_behind, way_turned, turned_ways, all_turns, forked_ways, both_forks, one_of_forks, turned_forks, chosen_ways};
ghost use Rattle.code_ways.specs.Ways.{dearer_way, most_of};

use crate::choices;
use crate::choices::Choices;
use code_paths::plus;
use std::alloc::{AllocError, Global};
use std::rc::Rc;

/// A way: its cycles, 2^64 - 1 where they are more, and the choices that it takes; `None` where it takes none.
#[derive(Drop)]
pub struct Way {
    pub cycles: u64,
    pub taken: Option<Rc<Choices>>,
}

/// The dearest ways of a stretch of code.
#[derive(Drop)]
pub struct Ways {
    /// The one that goes on behind it; `None` where none does.
    pub goes: Option<Way>,
    /// The one that leaves by a jump.
    pub leaves: Option<Way>,
}

/// The dearest ways of a test's code.
#[derive(Drop)]
pub struct Forks {
    /// The one that goes on where the test holds; `None` where none does.
    pub held: Option<Way>,
    /// The one that goes on where it fails.
    pub failed: Option<Way>,
    /// The one that leaves by a jump.
    pub leaves: Option<Way>,
}

// One way behind another.
fn way_behind(alloc: Global, first: &Way, second: &Way) -> Result<Way, AllocError>
    ensures { IfOk result (λ w. way_of w ≡ way_behind (way_of first.now) (way_of second.now)) }
{
    Ok(Way {
        cycles: plus(first.cycles, second.cycles),
        taken: choices::behind(alloc, &first.taken, &second.taken)?,
    })
}

// The same where there are both.
fn both_ways(
    alloc: Global,
    first: &Option<Way>,
    second: &Option<Way>,
) -> Result<Option<Way>, AllocError>
    ensures { IfOk result (λ w. option_map way_of w ≡ both_ways (option_map way_of first.now) (option_map way_of second.now)) }
{
    match first {
        None => Ok(None),
        Some(one) => match second {
            None => Ok(None),
            Some(other) => Ok(Some(way_behind(alloc, one, other)?)),
        },
    }
}

// The dearer of two ways; of two that cost the same, the first.
fn dearer_way(one: Way, other: Way) -> Way
    ensures { way_of result ≡ dearer_way (way_of one) (way_of other) }
{
    if one.cycles < other.cycles {
        other
    } else {
        one
    }
}

// The same of those that there are.
fn dearer(one: Option<Way>, other: Option<Way>) -> Option<Way>
    ensures { option_map way_of result ≡ dearer_of (option_map way_of one) (option_map way_of other) }
{
    match one {
        None => other,
        Some(one) => match other {
            None => Some(one),
            Some(other) => Some(dearer_way(one, other)),
        },
    }
}

// The same way.
fn same(way: &Option<Way>) -> Result<Option<Way>, AllocError>
    ensures { IfOk result (λ w. option_map way_of w ≡ option_map way_of way.now) }
{
    match way {
        None => Ok(None),
        Some(way) => Ok(Some(Way {
            cycles: way.cycles,
            taken: choices::shared(&way.taken)?,
        })),
    }
}

/// Code all of whose ways go on, without a choice, in at most so many cycles.
pub fn straight(cycles: u64) -> Ways
    ensures { ways_of result ≡ straight_ways cycles }
{
    Ways {
        goes: Some(Way {
            cycles,
            taken: None,
        }),
        leaves: None,
    }
}

/// A choice by its number, taken so, in no time.
pub fn choice(alloc: Global, number: u32, holds: bool) -> Result<Ways, AllocError>
    ensures { IfOk result (λ w. ways_of w ≡ choice_ways number holds) }
{
    Ok(Ways {
        goes: Some(Way {
            cycles: 0,
            taken: choices::one(alloc, number, holds)?,
        }),
        leaves: None,
    })
}

/// A jump out of the code, in so many cycles.
pub fn leaving(cycles: u64) -> Ways
    ensures { ways_of result ≡ leaving_ways cycles }
{
    Ways {
        goes: None,
        leaves: Some(Way {
            cycles,
            taken: None,
        }),
    }
}

/// One stretch behind another.
pub fn behind(alloc: Global, first: Ways, second: Ways) -> Result<Ways, AllocError>
    ensures { IfOk result (λ w. ways_of w ≡ ways_behind (ways_of first) (ways_of second)) }
{
    let goes = both_ways(alloc, &first.goes, &second.goes)?;
    let leaves = both_ways(alloc, &first.goes, &second.leaves)?;
    Ok(Ways {
        goes,
        leaves: dearer(first.leaves, leaves),
    })
}

// One of two stretches.
fn either(one: Ways, other: Ways) -> Ways
    ensures { ways_of result ≡ either_ways (ways_of one) (ways_of other) }
{
    Ways {
        goes: dearer(one.goes, other.goes),
        leaves: dearer(one.leaves, other.leaves),
    }
}

// So many turns of one way.
fn way_turned(alloc: Global, turns: u32, way: &Way) -> Result<Way, AllocError>
    ensures { IfOk result (λ w. way_of w ≡ way_turned turns (way_of way.now)) }
{
    Ok(Way {
        cycles: (turns as u64).saturating_mul(way.cycles),
        taken: choices::turns(alloc, turns, &way.taken)?,
    })
}

// So many turns and one more, of which each goes on.
fn more_turns(
    alloc: Global,
    turns: u32,
    turn: &Way,
    leaves: &Option<Way>,
) -> Result<Ways, AllocError>
    requires { turns < 0x10000 }
    ensures { IfOk result (λ w. ways_of w ≡ record {
      goes = Some (way_turned (suc turns) (way_of turn.now));
      leaves = both_ways (Some (way_turned turns (way_of turn.now))) (option_map way_of leaves.now);
    }) }
{
    let before = Some(way_turned(alloc, turns, turn)?);
    Ok(Ways {
        goes: Some(way_turned(alloc, turns + 1, turn)?),
        leaves: both_ways(alloc, &before, leaves)?,
    })
}

/// So many turns, one behind the other.
pub fn all_turns(alloc: Global, turns: u16, turn: Ways) -> Result<Ways, AllocError>
    ensures { IfOk result (λ w. ways_of w ≡ all_turns turns (ways_of turn)) }
{
    if turns == 0 {
        return Ok(straight(0));
    }
    match &turn.goes {
        None => Ok(turn),
        Some(goes) => more_turns(alloc, turns as u32 - 1, goes, &turn.leaves),
    }
}

/// A test behind this stretch, which goes on where it holds and where it fails.
pub fn forked(ways: Ways) -> Result<Forks, AllocError>
    ensures { IfOk result (λ t. forks_of t ≡ forked_ways (ways_of ways)) }
{
    Ok(Forks {
        held: same(&ways.goes)?,
        failed: ways.goes,
        leaves: ways.leaves,
    })
}

/// Two tests of which both have to hold: the second is asked where the first holds.
pub fn both(alloc: Global, first: Forks, second: Forks) -> Result<Forks, AllocError>
    ensures { IfOk result (λ t. forks_of t ≡ both_forks (forks_of first) (forks_of second)) }
{
    let held = both_ways(alloc, &first.held, &second.held)?;
    let failed = both_ways(alloc, &first.held, &second.failed)?;
    let leaves = both_ways(alloc, &first.held, &second.leaves)?;
    Ok(Forks {
        held,
        failed: dearer(first.failed, failed),
        leaves: dearer(first.leaves, leaves),
    })
}

/// Two tests of which one has to hold: the second is asked where the first fails.
pub fn one_of(alloc: Global, first: Forks, second: Forks) -> Result<Forks, AllocError>
    ensures { IfOk result (λ t. forks_of t ≡ one_of_forks (forks_of first) (forks_of second)) }
{
    let held = both_ways(alloc, &first.failed, &second.held)?;
    let failed = both_ways(alloc, &first.failed, &second.failed)?;
    let leaves = both_ways(alloc, &first.failed, &second.leaves)?;
    Ok(Forks {
        held: dearer(first.held, held),
        failed,
        leaves: dearer(first.leaves, leaves),
    })
}

/// A test that holds where another fails.
pub fn turned(forks: Forks) -> Forks
    ensures { forks_of result ≡ turned_forks (forks_of forks) }
{
    Forks {
        held: forks.failed,
        failed: forks.held,
        leaves: forks.leaves,
    }
}

/// What is done where a test holds, and where it fails.
pub fn chosen(alloc: Global, forks: Forks, held: Ways, failed: Ways) -> Result<Ways, AllocError>
    ensures { IfOk result (λ w. ways_of w ≡ chosen_ways (forks_of forks) (ways_of held) (ways_of failed)) }
{
    let holds = Ways {
        goes: forks.held,
        leaves: forks.leaves,
    };
    let fails = Ways {
        goes: forks.failed,
        leaves: None,
    };
    Ok(either(behind(alloc, holds, held)?, behind(alloc, fails, failed)?))
}

/// The dearest of all ways; without cycles where there is none.
pub fn most_of(ways: Ways) -> Way
    ensures { way_of result ≡ most_of (ways_of ways) }
{
    match dearer(ways.goes, ways.leaves) {
        Some(way) => way,
        None => Way {
            cycles: 0,
            taken: None,
        },
    }
}
