//! What the functions of a task cost.

ghost use Rattle.std.specs.Prelude.{◌≡◌, IfOk, List, All, length, map};
ghost use Rattle.array_versions.specs.Program.{Program};
ghost use Rattle.array_versions.specs.View.{program_of};
ghost use Rattle.source_needs.specs.Bodies.{AreBodies, IsShort, routine_costs};

use array_versions::WordProgram;
use dearest_ways::{CallCost, body_cycles};
use memory_map::RoutinePlace;
use std::alloc::{AllocError, Global};

/// The cycles of functions at these places on the dearest ways through their bodies, each by those of the functions in front of it.
///
/// # Errors
/// `AllocError` where memory was refused.
pub fn call_costs(
    alloc: Global,
    routines: &[RoutinePlace],
    bodies: &[WordProgram],
) -> Result<Vec<CallCost>, AllocError>
    requires count { length bodies.now ≡ length routines.now }
    requires short { All IsShort (map program_of bodies.now) }
    ensures { IfOk result (λ costs. (whole : List Program) → AreBodies routines.now (map program_of bodies.now) whole
        → costs.items ≡ routine_costs routines.now whole) }
{
    let mut costs = Vec::new(alloc);
    for i in 0..routines.len() {
        let cycles = body_cycles(alloc, &costs, &bodies[i])?;
        costs.push(CallCost {
            entry: routines[i].code.address,
            cycles,
        })?;
    }
    Ok(costs)
}
