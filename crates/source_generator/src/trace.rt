//! The trace that is generated from a number and a bound.
ghost use Rattle.std.specs.Prelude.{◌≡◌, ◌++◌, IfOk, OnOk};
ghost use Rattle.source_generator.specs.Draws.{draws, behind};
ghost use Rattle.source_generator.specs.Trace.{behind_source, charge_of, charges, generated_trace};

use crate::generator::Generator;
use energy_trace::{Charge, ChargeKind, Trace};
use std::alloc::{AllocError, Global};

// 512 readings, each a draw.
fn readings_of(alloc: Global, generator: &mut Generator) -> Result<Vec<u16>, AllocError>
    ensures readings { IfOk result (λ v. v.items ≡ draws 512 generator.old.state) }
    ensures state { OnOk result (generator.new.state ≡ behind 512 generator.old.state) }
{
    let mut readings = Vec::new(alloc);
    for _reading in 0..512u16 {
        readings.push(generator.draw())?;
    }
    Ok(readings)
}

// A charge of half a bound and a draw more; its fill word is the next draw.
fn charge_of(bound: u32, generator: &mut Generator) -> Charge
    ensures charge { result ≡ charge_of bound generator.old.state }
    ensures state { generator.new.state ≡ behind 2 generator.old.state }
{
    let more = generator.draw();
    let fill = generator.draw();
    Charge {
        kind: ChargeKind::Cycles,
        n: bound / 2 + more as u32,
        fill,
        times: 1,
    }
}

// 256 charges.
fn charges_of(
    alloc: Global,
    bound: u32,
    generator: &mut Generator,
) -> Result<Vec<Charge>, AllocError>
    ensures { IfOk result (λ v. v.items ≡ charges 256 bound generator.old.state) }
{
    let mut charges = Vec::new(alloc);
    for _charge in 0..256u16 {
        charges.push(charge_of(bound, generator))?;
    }
    Ok(charges)
}

/// The trace that is generated from a number, for its source with this bound, without events. Fails where memory is refused.
#[tactic(auto, unfolding(crate::specs::Trace::generated_trace))]
pub fn generated_trace(alloc: Global, number: u32, bound: u32) -> Result<Trace, AllocError>
    ensures trace { IfOk result (λ trace. trace ≡ generated_trace number bound) }
{
    let mut generator = Generator::new(number);
    generator.skip(8 + 16 * 7);
    let readings = readings_of(alloc, &mut generator)?;
    let charges = charges_of(alloc, bound, &mut generator)?;
    Ok(Trace::of(charges, readings, Vec::new(alloc)))
}
