//! A trace that is built line by line.
ghost use Rattle.std.specs.Prelude.{◌≡◌, ◌<◌, ◌≤◌, ◌++◌, ◌∷◌, []};
ghost use Rattle.std.specs.List.Sorted.{IsNonDecreasingBy};
ghost use Rattle.energy_trace.specs.TraceValue.{charge_count};

use crate::charge::Charge;
use crate::fault::TraceFault;
use crate::trace::Trace;
use std::alloc::Global;

/// The charges, readings and events of the lines that were read.
#[derive(Drop)]
pub struct TraceBuilder {
    pub charges: Vec<Charge>,
    pub readings: Vec<u16>,
    pub events: Vec<(u32, u16)>,
    /// How many charges, each counted as often as it comes.
    pub total: u64,
    ghost counted: { total ≡ charge_count charges.items },
}

impl TraceBuilder {
    ghost use Rattle.std.specs.Prelude.{◌≡◌, ◌++◌, ◌∷◌, ◌<◌, ◌≤◌, All, Some, OnOk};
    ghost use Rattle.energy_trace.specs.TraceValue.{IsTrace, last_step};
    ghost use Rattle.energy_trace.specs.Line.{charge, event};
    ghost use Rattle.energy_trace.specs.Reading.{Gives, checked, step, no_trace};
    ghost use Rattle.energy_trace.specs.Builder.{built};

    /// No charge, no reading and no event.
    pub fn new(alloc: Global) -> TraceBuilder
        ensures value { built result ≡ no_trace }
        ensures limits { IsTrace (built result) }
    {
        TraceBuilder {
            charges: Vec::new(alloc),
            readings: Vec::new(alloc),
            events: Vec::new(alloc),
            total: 0,
        }
    }

    /// Adds the charge of line `n`.
    pub fn add(&mut self, more: Charge, n: u32) -> Result<(), TraceFault>
        requires limits { IsTrace (built self.old) }
        requires repeats { 0 < more.times }
        ensures value { Gives (λ _. built self.new) result (step n (built self.old) (Some (charge more))) }
        ensures limits { OnOk result (IsTrace (built self.new)) }
    {
        self.charges.push(more)?;
        self.total += more.times as u64;
        self.check(n)
    }

    // Behind how many steps the last event arises; 0 where there is none.
    fn last_step(&self) -> u32
        ensures { result ≡ last_step self.now.events.items }
    {
        self.events.as_slice().last().copied().unwrap_or((0, 0)).0
    }

    /// Adds the event of line `n`.
    pub fn add_event(&mut self, more: (u32, u16), n: u32) -> Result<(), TraceFault>
        requires limits { IsTrace (built self.old) }
        requires word { 0 < more.1 }
        ensures value { Gives (λ _. built self.new) result (step n (built self.old) (Some (event more))) }
        ensures limits { OnOk result (IsTrace (built self.new)) }
    {
        if more.0 < self.last_step() {
            return Err(TraceFault::BadLine { line: n });
        }
        self.events.push(more)?;
        self.check(n)
    }

    /// Whether what line `n` made is within the limits.
    pub fn check(&self, n: u32) -> Result<(), TraceFault>
        requires repeats { All (λ c. 0 < c.times) self.now.charges.items }
        requires words { All (λ e. 0 < e.1) self.now.events.items }
        requires order { IsNonDecreasingBy (λ e. e.0) self.now.events.items }
        ensures value { Gives (λ _. built self.now) result (checked n (built self.now)) }
        ensures limits { OnOk result (IsTrace (built self.now)) }
    {
        if self.total <= 1_000_000
            && self.readings.len() <= 262_144
            && self.events.len() <= 65_536
        {
            Ok(())
        } else {
            Err(TraceFault::TooMany { line: n })
        }
    }

    /// The trace that was built.
    pub fn finish(self) -> Trace
        requires { IsTrace (built self) }
        ensures { result ≡ built self }
    {
        let TraceBuilder {
            charges,
            readings,
            events,
            ..
        } = self;
        Trace::of(charges, readings, events)
    }
}
