//! The meaning of an accepted source: its run, task by task.

ghost use Rattle.std.specs.Prelude.{◌≡◌, ◌≤◌, ◌<◌, ◌^◌, [], length, map, drop, IfOk, OnOk, OnErr, Some, false, slice_index_or};
ghost use Rattle.task_ast.specs.View.{program_of};
ghost use Rattle.source_values.specs.Statements.{short};
ghost use Rattle.source_values.specs.Values.{shown};
ghost use Rattle.source_values.specs.Runs.{is_long_extent, without_answers, attempt_of, completion_of};
ghost use Rattle.source_values.specs.Running.{fresh_run};

use crate::passes::Accepted;
use source_values::{Done, Short, SourceRun, two_words};
use std::alloc::{AllocError, Global};
use task_ast::{Extent, SharedDeclaration};

/// The run of an accepted source at its last completed transition. `new` takes all memory that it needs.
#[derive(Drop)]
pub struct Meaning {
    /// The run.
    pub run: SourceRun,
    /// Which shared variables are long, by number.
    pub longs: Vec<bool>,
}

fn is_long_extent(extent: Extent) -> bool
    ensures { result ≡ is_long_extent extent }
{
    match extent {
        Extent::Long(_) => true,
        Extent::Scalar(_) | Extent::Array(_) => false,
    }
}

fn longs_of(alloc: Global, shared: &[SharedDeclaration]) -> Result<Vec<bool>, AllocError>
    ensures { IfOk result (λ longs. longs.items ≡ map (λ d. is_long_extent d.extent) shared.now) }
{
    shared
        .iter()
        .map(|d| is_long_extent(d.extent))
        .collect(alloc)
}

impl Meaning {
    /// The first state of a source: the initial words, the entry task, nothing emitted.
    pub fn new(alloc: Global, source: &Accepted) -> Result<Meaning, AllocError>
        ensures run { IfOk result (λ m. m.run ≡ fresh_run (program_of source.now.checked.source)) }
        ensures task { IfOk result (λ m. m.run.task < length (program_of source.now.checked.source).tasks) }
        ensures longs { IfOk result (λ m. m.longs.items ≡ map (λ d. is_long_extent d.extent) (program_of source.now.checked.source).shared) }
    {
        let source = source.checked().source();
        Ok(Meaning {
            run: SourceRun::new(alloc, source)?,
            longs: longs_of(alloc, &source.shared)?,
        })
    }

    /// Runs the current task once, from the shared words as they are, on the front of the readings, each `next_event()` being 0. The meaning is one
    /// of this source. Takes no memory. `Short` where the readings run out before its transition; the meaning is then as before.
    pub fn task_step(&mut self, source: &Accepted, readings: &[u16]) -> Result<Done, Short>
        requires task { self.old.run.task < length (program_of source.now.checked.source).tasks }
        requires few_readings { length readings.now < 2 ^ 32 }
        ensures done { IfOk result (λ d. completion_of
            (attempt_of (program_of source.now.checked.source) self.old.run.task self.old.run.shared (without_answers readings.now))
            ≡ Some (record { next = d.next; shared = self.new.run.shared; emitted = self.new.run.emitted; left = drop d.used readings.now; answers = [] })) }
        ensures from { IfOk result (λ d. d.from ≡ self.old.run.task) }
        ensures next { IfOk result (λ d. (d.next ≡ self.new.run.task) × (d.next < length (program_of source.now.checked.source).tasks)) }
        ensures used { IfOk result (λ d. d.used ≤ length readings.now) }
        ensures before { OnOk result (self.new.run.before ≡ self.old.run.shared) }
        ensures same_lengths { map length self.new.run.shared ≡ map length self.old.run.shared }
        ensures few_emitted { OnOk result (length self.new.run.emitted ≤ 256) }
        ensures short { OnErr result
            (attempt_of (program_of source.now.checked.source) self.old.run.task self.old.run.shared (without_answers readings.now) ≡ short) }
        ensures as_before { OnErr result (self.new.run ≡ self.old.run) }
        ensures same_longs { self.new.longs ≡ self.old.longs }
    {
        self.run.task_step(source.checked().source(), readings)
    }

    /// Element `i` of shared variable `v`, both counted from 0, at the last completed transition, at first the initial one; the
    /// number of a long at 0; 0 where the variable has no such element.
    pub fn word(&self, v: u16, i: u16) -> u32
        ensures { result ≡ shown (slice_index_or self.now.longs.items v false) (slice_index_or self.now.run.shared v []) i }
    {
        if !self.is_long(v) {
            return u32::from(self.run.word(v, i));
        }
        if i > 0 {
            return 0;
        }
        two_words(self.run.word(v, 0), self.run.word(v, 1))
    }

    /// The same at the transition before the last, at first the initial one.
    pub fn before(&self, v: u16, i: u16) -> u32
        ensures { result ≡ shown (slice_index_or self.now.longs.items v false) (slice_index_or self.now.run.before v []) i }
    {
        if !self.is_long(v) {
            return u32::from(self.run.before(v, i));
        }
        if i > 0 {
            return 0;
        }
        two_words(self.run.before(v, 0), self.run.before(v, 1))
    }

    fn is_long(&self, v: u16) -> bool
        ensures { result ≡ slice_index_or self.now.longs.items v false }
    {
        let v = v as usize;
        v < self.longs.len() && self.longs[v]
    }

    /// The words that the last transition emitted, at first none.
    pub fn emitted(&self) -> &[u16]
        ensures { result.now ≡ self.now.run.emitted }
    {
        self.run.emitted()
    }
}
