//! The run of a source: whole tasks, one after another.

ghost use Rattle.std.specs.Prelude.{◌≡◌, ◌+◌, ◌≤◌, ◌<◌, ◌^◌, ℕ, [], map, length, drop, All, IfOk, OnOk, OnErr, IfSome, IfNone, OnSome, IsSome, None, Some};
ghost use Rattle.std.specs.Prelude.{slice_index, slice_index_or};
ghost use Rattle.task_ast.specs.View.{program_of};
ghost use Rattle.task_ast.specs.declared.Extent.TheVariants.{Long};
ghost use Rattle.source_values.specs.Statements.{meanings, run_block, short, to_task};
ghost use Rattle.source_values.specs.Runs.{initial_words, initial_rows, new_locals, without_answers, task_body, attempt_of, completion_of};
ghost use Rattle.source_values.specs.Marks.{IsMarked};
ghost use Rattle.source_values.specs.Running.{IsRunnable, fresh_run};
ghost use Rattle.source_values.specs.View.{rows_of, attempt_in};

use crate::frame::Frame;
use crate::marks::Marks;
use crate::scratch::Scratch;
use crate::statements::run_block;
use crate::tracked::{Tracked, row_word};
use arrayvec::ArrayVec;
use std::alloc::{AllocError, Global};
use std::marker::Model;
use std::mem;
use task_ast::{CheckedSource, Extent, SharedDeclaration};
use thiserror::Error;

/// The readings ran out before the task's transition.
#[derive(Clone, Copy, Debug, PartialEq, Eq, Error)]
#[error("the readings ran out before the transition")]
pub struct Short;

/// A completed transition: the number of the task that ran, that of the next one, and how many readings it took.
#[derive(Clone, Copy, Debug, PartialEq, Eq)]
pub struct Done {
    pub from: u16,
    pub next: u16,
    pub used: u32,
}

/// A source run at its last completed transition: the shared words now and at the transition before, the current task, and
/// the words that the last transition emitted. `new` takes all memory that the run needs.
#[derive(Drop)]
pub struct SourceRun {
    before: Vec<Vec<u16>>,
    written: Marks,
    emitted: ArrayVec<u16, 256>,
    task: u16,
    scratch: Scratch,
    frames: Vec<Frame>,
}

impl Model for SourceRun {
    ghost use Rattle.std.specs.Prelude.{◌≡◌, map, length};
    ghost use Rattle.source_values.specs.Running.{RunState};
    ghost use Rattle.source_values.specs.View.{rows_of};
    ghost use Rattle.source_values.specs.Marks.{Covers};

    ghost Value = { RunState };

    ghost view = { λ r. record {
      before = rows_of r.before.items;
      shared = r.scratch.shared.base;
      written = r.written;
      emitted = r.emitted.items;
      task = r.task;
    } };

    ghost invariant = { λ r. (map length (rows_of r.before.items) ≡ map length r.scratch.shared.base)
        × (r.scratch.shared.rows ≡ r.scratch.shared.base)
        × Covers r.written (rows_of r.before.items) r.scratch.shared.base
        × (length r.frames.items ≡ 64) };
}

// The two words of a long, the low one first.
fn long_words(alloc: Global, n: u32) -> Result<Vec<u16>, AllocError>
    ensures { IfOk result (λ row. row.items ≡ initial_words (Long n)) }
{
    let mut words = Vec::new(alloc);
    words.push((n % 65536) as u16)?;
    words.push((n / 65536) as u16)?;
    Ok(words)
}

/// The words that a shared variable begins with.
pub fn initial_words(alloc: Global, extent: Extent) -> Result<Vec<u16>, AllocError>
    ensures { IfOk result (λ row. row.items ≡ initial_words extent) }
{
    match extent {
        Extent::Scalar(word) => vec![in alloc; word; 1],
        Extent::Long(n) => long_words(alloc, n),
        Extent::Array(n) => vec![in alloc; 0; n as usize],
    }
}

// The words that each shared variable starts with.
fn initial_rows(alloc: Global, shared: &[SharedDeclaration]) -> Result<Vec<Vec<u16>>, AllocError>
    ensures { IfOk result (λ rows. rows_of rows.items ≡ map (λ d. initial_words d.extent) shared.now) }
{
    let mut rows = Vec::with_capacity(alloc, shared.len())?;
    for d in shared {
        rows.push(initial_words(alloc, d.extent)?)?;
    }
    Ok(rows)
}

// The most functions that a source has, so the longest chain of calls.
const MOST_FUNCTIONS: usize = 64;

// The locals of each function of a chain of calls.
fn all_frames(alloc: Global) -> Result<Vec<Frame>, AllocError>
    ensures { IfOk result (λ frames. length frames.items ≡ 64) }
{
    let mut frames = Vec::with_capacity(alloc, MOST_FUNCTIONS)?;
    for _ in 0..MOST_FUNCTIONS {
        frames.push(Frame::new(alloc)?)?;
    }
    Ok(frames)
}

// Makes ready for an attempt.
fn restart(scratch: &mut Scratch)
    ensures shared { scratch.new.shared ≡ scratch.old.shared }
    ensures locals { scratch.new.locals ≡ new_locals }
    ensures emitted { scratch.new.emitted.items ≡ [] }
{
    scratch.locals.clear();
    scratch.emitted.clear();
}

// Runs a task of a source from its start. None where the readings run out before its transition.
fn run_task<'r>(
    source: &CheckedSource,
    task: usize,
    scratch: &mut Scratch,
    frames: &mut [Frame],
    readings: &'r [u16],
) -> Option<(u16, &'r [u16])>
    requires runnable { IsRunnable (program_of source.now) }
    requires task { task < length (program_of source.now).tasks }
    requires frames { length frames.old ≡ 64 }
    requires fresh { scratch.old.emitted.items ≡ [] }
    ensures done { IfSome result (λ x. run_block (meanings (program_of source.now)) (task_body (program_of source.now) task)
        (attempt_in scratch.old readings.now) ≡ to_task x.0 (attempt_in scratch.new x.1.now)) }
    ensures next { IfSome result (λ x. x.0 < length (program_of source.now).tasks) }
    ensures left { IfSome result (λ x. length x.1.now ≤ length readings.now) }
    ensures few_emitted { OnSome result (length scratch.new.emitted.items ≤ 256) }
    ensures short { IfNone result (run_block (meanings (program_of source.now)) (task_body (program_of source.now) task)
        (attempt_in scratch.old readings.now) ≡ short) }
    ensures same_base { scratch.new.shared.base ≡ scratch.old.shared.base }
{
    let ran = run_block(
        &source.functions,
        &source.tasks[task].body,
        scratch,
        frames,
        readings,
    )?;
    let next = ran.end.task()?;
    Some((next as u16, ran.left))
}

impl SourceRun {
    /// A run at the first state of a source: the initial words, the entry task, nothing emitted.
    pub fn new(alloc: Global, source: &CheckedSource) -> Result<SourceRun, AllocError>
        requires { IsRunnable (program_of source.now) }
        ensures { IfOk result (λ r. r ≡ fresh_run (program_of source.now)) }
    {
        let base = initial_rows(alloc, &source.shared)?;
        let rows = initial_rows(alloc, &source.shared)?;
        Ok(SourceRun {
            before: initial_rows(alloc, &source.shared)?,
            written: Marks::new(alloc)?,
            emitted: ArrayVec::new(),
            task: source.entry.task as u16,
            scratch: Scratch {
                shared: Tracked::new(base, rows, Marks::new(alloc)?),
                locals: Frame::new(alloc)?,
                emitted: ArrayVec::new(),
            },
            frames: all_frames(alloc)?,
        })
    }

    /// Runs the current task once, from the shared words as they are, on the front of the readings, each `next_event()` being 0. Takes no memory.
    /// `Short` where the readings run out before its transition; the run is then as before.
    pub fn task_step(&mut self, source: &CheckedSource, readings: &[u16]) -> Result<Done, Short>
        requires runnable { IsRunnable (program_of source.now) }
        requires task { self.old.task < length (program_of source.now).tasks }
        requires few_readings { length readings.now < 2 ^ 32 }
        ensures done { IfOk result (λ d. completion_of (attempt_of (program_of source.now) self.old.task self.old.shared (without_answers readings.now))
            ≡ Some (record { next = d.next; shared = self.new.shared; emitted = self.new.emitted; left = drop d.used readings.now; answers = [] })) }
        ensures from { IfOk result (λ d. d.from ≡ self.old.task) }
        ensures next { IfOk result (λ d. (d.next ≡ self.new.task) × (d.next < length (program_of source.now).tasks)) }
        ensures used { IfOk result (λ d. d.used ≤ length readings.now) }
        ensures before { OnOk result (self.new.before ≡ self.old.shared) }
        ensures same_lengths { map length self.new.shared ≡ map length self.old.shared }
        ensures few_emitted { OnOk result (length self.new.emitted ≤ 256) }
        ensures short { OnErr result (attempt_of (program_of source.now) self.old.task self.old.shared (without_answers readings.now) ≡ short) }
        ensures as_before { OnErr result (self.new ≡ self.old) }
    {
        restart(&mut self.scratch);
        let from = self.task;
        match run_task(
            source,
            from as usize,
            &mut self.scratch,
            &mut self.frames,
            readings,
        ) {
            None => {
                self.scratch.shared.undo();
                Err(Short)
            }
            Some((next, left)) => {
                self.scratch
                    .shared
                    .settle(&mut self.before, &mut self.written);
                mem::swap(&mut self.emitted, &mut self.scratch.emitted);
                self.task = next;
                let used = (readings.len() - left.len()) as u32;
                Ok(Done { from, next, used })
            }
        }
    }

    /// Word `i` of shared variable `v`, both counted from 0, at the last completed transition, at first the initial one; 0
    /// where the variable has no such word.
    pub fn word(&self, v: u16, i: u16) -> u16
        ensures { result ≡ slice_index (slice_index_or self.now.shared v []) i }
    {
        self.scratch.shared.base_word(v as usize, i as usize)
    }

    /// The same at the transition before the last, at first the initial word.
    pub fn before(&self, v: u16, i: u16) -> u16
        ensures { result ≡ slice_index (slice_index_or self.now.before v []) i }
    {
        row_word(&self.before, v as usize, i as usize)
    }

    /// The first index from one on at which the word of shared variable `v` is marked as written by the last transition, if it comes
    /// before the end; else the end. No other word changed. A mark may be that of another word of the same 64.
    pub fn next_written(&self, v: u16, from: u16, end: u16) -> u16
        requires { from ≤ end }
        ensures later { from ≤ result }
        ensures inside { result ≤ end }
        ensures here { result < end → IsMarked self.now.written v result }
        ensures same { (i : ℕ) → from ≤ i → i < result
            → slice_index (slice_index_or self.now.before v []) i ≡ slice_index (slice_index_or self.now.shared v []) i }
    {
        let end = end as usize;
        self.written.next(v as usize, from as usize, end).min(end) as u16
    }

    /// The words that the last transition emitted, at first none.
    pub fn emitted(&self) -> &[u16]
        ensures { result.now ≡ self.now.emitted }
    {
        self.emitted.as_slice()
    }

    /// The number of the current task.
    pub fn task(&self) -> u16
        ensures { result ≡ self.now.task }
    {
        self.task
    }
}
