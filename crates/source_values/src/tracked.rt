//! The words of shared variables beside those at the last transition.
ghost use Rattle.std.specs.Prelude.{◌≡◌, ◌<◌, ◌≤◌, ◌^◌, ℕ, [], length, map, slice_index, slice_index_or, slice_set};
ghost use Rattle.source_values.specs.Marks.{Covers, IsMarked};
ghost use Rattle.source_values.specs.Rows.{rows_of};

use crate::marks::Marks;
use std::marker::Model;
use std::mem;

/// The words of shared variables, and those that they were at the last transition. What was written since is marked, so that only
/// that is looked at.
#[derive(Drop)]
pub struct Tracked {
    base: Vec<Vec<u16>>,
    rows: Vec<Vec<u16>>,
    marks: Marks,
}

impl Model for Tracked {
    ghost use Rattle.std.specs.Prelude.{◌≡◌, map, length};
    ghost use Rattle.source_values.specs.Marks.{Covers};
    ghost use Rattle.source_values.specs.Rows.{rows_of, TrackedValue};

    ghost Value = { TrackedValue };

    ghost view = { λ t. record { base = rows_of t.base.items; rows = rows_of t.rows.items } };

    ghost invariant = { λ t. (map length (rows_of t.rows.items) ≡ map length (rows_of t.base.items))
        × Covers t.marks (rows_of t.base.items) (rows_of t.rows.items) };
}

/// Word `i` of these; 0 where there is none.
pub fn word_of(words: &[u16], i: usize) -> u16
    ensures { result ≡ slice_index words.now i }
{
    words.get(i).copied().unwrap_or(0)
}

/// Sets word `i` of these; nothing happens where there is none.
pub fn set_word(words: &mut [u16], i: usize, w: u16)
    ensures { words.new ≡ slice_set words.old i w }
{
    if i < words.len() {
        words[i] = w;
    }
}

/// Word `i` of row `v`; 0 where there is none.
pub fn row_word(rows: &[Vec<u16>], v: usize, i: usize) -> u16
    ensures { result ≡ slice_index (slice_index_or (rows_of rows.now) v []) i }
{
    if v < rows.len() {
        word_of(&rows[v], i)
    } else {
        0
    }
}

fn set_row_word(rows: &mut [Vec<u16>], v: usize, i: usize, w: u16)
    ensures set { rows_of rows.new ≡ slice_set (rows_of rows.old) v (slice_set (slice_index_or (rows_of rows.old) v []) i w) }
    ensures same_lengths { map length (rows_of rows.new) ≡ map length (rows_of rows.old) }
{
    if v < rows.len() {
        set_word(&mut rows[v], i, w);
    }
}

// The words of a variable become others, which are the same where they aren't marked.
fn follow_row(to: &mut [u16], from: &[u16], marks: &Marks, v: usize)
    requires same_length { length to.old ≡ length from.now }
    requires covers { (i : ℕ) → (IsMarked marks.now v i → ⊥) → slice_index to.old i ≡ slice_index from.now i }
    ensures { to.new ≡ from.now }
{
    let end = from.len();
    let mut i = marks.next(v, 0, end);
    while i < end {
        to[i] = from[i];
        i = marks.next(v, i + 1, end);
    }
}

// Rows become others of the same lengths, which are the same where they aren't marked.
fn follow(to: &mut [Vec<u16>], from: &[Vec<u16>], marks: &Marks)
    requires same_lengths { map length (rows_of to.old) ≡ map length (rows_of from.now) }
    requires covers { Covers marks.now (rows_of to.old) (rows_of from.now) }
    ensures { rows_of to.new ≡ rows_of from.now }
{
    for (v, row) in from.iter().enumerate() {
        follow_row(&mut to[v], row, marks, v);
    }
}

impl Tracked {
    /// Rows that are as they were.
    pub fn new(base: Vec<Vec<u16>>, rows: Vec<Vec<u16>>, marks: Marks) -> Tracked
        requires { rows_of rows.items ≡ rows_of base.items }
        ensures { result ≡ record { base = rows_of base.items; rows = rows_of base.items } }
    {
        Tracked { base, rows, marks }
    }

    /// Word `i` of variable `v`; 0 where it has no such word.
    pub fn word(&self, v: usize, i: usize) -> u16
        ensures { result ≡ slice_index (slice_index_or self.now.rows v []) i }
    {
        row_word(&self.rows, v, i)
    }

    /// The same at the last transition.
    pub fn base_word(&self, v: usize, i: usize) -> u16
        ensures { result ≡ slice_index (slice_index_or self.now.base v []) i }
    {
        row_word(&self.base, v, i)
    }

    /// Sets word `i` of variable `v`; nothing happens where it has no such word.
    pub fn set(&mut self, v: usize, i: usize, w: u16)
        ensures base { self.new.base ≡ self.old.base }
        ensures rows { self.new.rows ≡ slice_set self.old.rows v (slice_set (slice_index_or self.old.rows v []) i w) }
    {
        self.marks.mark(v, i);
        set_row_word(&mut self.rows, v, i, w);
    }

    /// The words become again those at the last transition.
    pub fn undo(&mut self)
        ensures { self.new ≡ record { base = self.old.base; rows = self.old.base } }
    {
        follow(&mut self.rows, &self.base, &self.marks);
        self.marks.clear();
    }

    /// The words become those of the last transition, and `before` those of the one before it, with the marks between the two.
    pub fn settle(&mut self, before: &mut Vec<Vec<u16>>, written: &mut Marks)
        requires same_lengths { map length (rows_of before.old.items) ≡ map length self.old.base }
        requires covers { Covers written.old (rows_of before.old.items) self.old.base }
        ensures value { self.new ≡ record { base = self.old.rows; rows = self.old.rows } }
        ensures before { rows_of before.new.items ≡ self.old.base }
        ensures written { Covers written.new self.old.base self.old.rows }
        ensures same_lengths { map length self.old.rows ≡ map length self.old.base }
    {
        follow(before, &self.base, written);
        follow(&mut self.base, &self.rows, &self.marks);
        mem::swap(written, &mut self.marks);
        self.marks.clear();
    }
}
