//! Marks on the words of shared variables that may have been written.
ghost use Rattle.std.specs.Prelude.{◌≡◌, ℕ, ◌<◌, ◌≤◌, ◌^◌, IfOk, length};
ghost use Rattle.source_values.specs.Marks.{IsMarked, mark_of, no_marks};

use std::alloc::{AllocError, Global};
use std::marker::Model;

// The words of a block; how many variables and blocks have a mark of their own.
const BLOCK: usize = 64;

const VARIABLES: usize = 256;

const BLOCKS: usize = 1024;

/// A mark on each variable and on each block of its words that may have been written. Blocks may share a mark.
#[derive(Drop)]
pub struct Marks {
    variables: Vec<bool>,
    blocks: Vec<bool>,
}

impl Model for Marks {
    ghost use Rattle.std.specs.Prelude.{◌≡◌, length};
    ghost use Rattle.source_values.specs.Marks.{MarksValue};

    ghost Value = { MarksValue };

    ghost view = { λ m. record { variables = m.variables.items; blocks = m.blocks.items } };

    ghost invariant = { λ m. (length m.variables.items ≡ 256) × (length m.blocks.items ≡ 1024) };
}

// The number of the mark of a word's block.
#[inline(always)]
fn mark_of(v: usize, i: usize) -> usize
    ensures value { result ≡ mark_of v i }
    ensures few { result < 1024 }
{
    (v % VARIABLES * 4 + i / BLOCK) % BLOCKS
}

impl Marks {
    /// None is set.
    pub fn new(alloc: Global) -> Result<Marks, AllocError>
        ensures { IfOk result (λ m. m ≡ no_marks) }
    {
        Ok(Marks {
            variables: vec![in alloc; false; VARIABLES]?,
            blocks: vec![in alloc; false; BLOCKS]?,
        })
    }

    /// Marks word `i` of variable `v`.
    #[inline(always)]
    pub fn mark(&mut self, v: usize, i: usize)
        ensures marked { IsMarked self.new v i }
        ensures others { (u j : ℕ) → IsMarked self.old u j → IsMarked self.new u j }
    {
        self.variables[v % VARIABLES] = true;
        self.blocks[mark_of(v, i)] = true;
    }

    /// Clears all.
    pub fn clear(&mut self)
        ensures { self.new ≡ no_marks }
    {
        self.variables.fill(false);
        self.blocks.fill(false);
    }

    // An index behind this one before which no word of a variable is marked; this one exactly where its block is marked.
    #[inline(always)]
    fn behind(&self, v: usize, i: usize, end: usize) -> usize
        requires inside { i < end }
        requires few { end < 2 ^ 63 }
        ensures later { i ≤ result }
        ensures here { result ≡ i → IsMarked self.now v i }
        ensures none { (j : ℕ) → i ≤ j → j < result → IsMarked self.now v j → ⊥ }
    {
        if !self.variables[v % VARIABLES] {
            end
        } else if !self.blocks[mark_of(v, i)] {
            (i / BLOCK + 1) * BLOCK
        } else {
            i
        }
    }

    /// The first index from one on at which a word of a variable is marked, if it comes before the end; else one from the end on.
    pub fn next(&self, v: usize, from: usize, end: usize) -> usize
        requires few { end < 2 ^ 63 }
        ensures later { from ≤ result }
        ensures here { result < end → IsMarked self.now v result }
        ensures none { (j : ℕ) → from ≤ j → j < result → IsMarked self.now v j → ⊥ }
    {
        let mut i = from;
        while i < end {
            let behind = self.behind(v, i, end);
            if behind == i {
                return i;
            }
            i = behind;
        }
        i
    }
}
