//! The locals of what runs.

ghost use Rattle.std.specs.Prelude.{◌≡◌, IfOk, slice_index, slice_set};
ghost use Rattle.source_values.specs.Values.{new_locals};

use crate::tracked::{set_word, word_of};
use std::alloc::{AllocError, Global};
use std::marker::Model;

/// The locals of a task or a function that runs: 256 words.
#[derive(Drop)]
pub struct Frame {
    words: Vec<u16>,
}

impl Model for Frame {
    ghost use Rattle.std.specs.Prelude.{◌≡◌, ℕ, List, length};

    ghost Value = { List ℕ };

    ghost view = { λ f. f.words.items };

    ghost invariant = { λ f. length f.words.items ≡ 256 };
}

impl Frame {
    /// All are 0.
    pub fn new(alloc: Global) -> Result<Frame, AllocError>
        ensures { IfOk result (λ f. f ≡ new_locals) }
    {
        Ok(Frame {
            words: vec![in alloc; 0; 256]?,
        })
    }

    /// Local `n`; 0 where there is none.
    pub fn word(&self, n: usize) -> u16
        ensures { result ≡ slice_index self.now n }
    {
        word_of(&self.words, n)
    }

    /// Sets local `n`; nothing happens where there is none.
    pub fn set(&mut self, n: usize, w: u16)
        ensures { self.new ≡ slice_set self.old n w }
    {
        set_word(&mut self.words, n, w);
    }

    /// All become 0.
    pub fn clear(&mut self)
        ensures { self.new ≡ new_locals }
    {
        self.words.fill(0);
    }
}
