//! The words that an attempt works on.

ghost use Rattle.std.specs.Prelude.{◌≡◌, ℕ, List};
ghost use Rattle.source_values.specs.Values.{word_at, with_word, scalar_value, converted};
ghost use Rattle.source_values.specs.Numbers.{number_type, number_value};
ghost use Rattle.source_values.specs.Statements.{assigned_to};
ghost use Rattle.source_values.specs.View.{variables_of, attempt_in};

use crate::frame::Frame;
use crate::numbers::{Number, number_of, two_words};
use crate::tracked::Tracked;
use arrayvec::ArrayVec;
use task_ast::{Variable, VariableName, WordType};

/// The most words that a task may emit.
pub const MOST_EMITS: usize = 256;

/// The words of an attempt: of each shared variable its words, the locals of what runs, and the words emitted so far.
#[derive(Drop)]
pub struct Scratch {
    pub shared: Tracked,
    pub locals: Frame,
    pub emitted: ArrayVec<u16, 256>,
}

impl Scratch {
    /// Word `i` of a variable; 0 where it has no such word.
    pub fn word(&self, variable: Variable, i: u32) -> u16
        ensures { result ≡ word_at (variables_of self.now) variable i }
    {
        match variable {
            Variable::Shared(v) => self.shared.word(v as usize, i as usize),
            Variable::Local(n) => self.locals.word(n as usize),
        }
    }

    /// The value of a scalar.
    pub fn scalar(&self, x: &VariableName) -> Number
        ensures word_type { number_type result ≡ x.now.word_type }
        ensures value { number_value result ≡ scalar_value (variables_of self.now) x.now }
    {
        let low = self.word(x.variable, 0);
        match x.word_type {
            WordType::Long => Number::Long(two_words(low, self.word(x.variable, 1))),
            WordType::Int | WordType::Unsigned => number_of(x.word_type, low),
        }
    }

    /// Sets word `i` of a variable; nothing happens where it has no such word.
    pub fn set(&mut self, variable: Variable, i: u32, w: u16)
        ensures variables { variables_of self.new ≡ with_word (variables_of self.old) variable i w }
        ensures emitted { self.new.emitted ≡ self.old.emitted }
        ensures same_base { self.new.shared.base ≡ self.old.shared.base }
    {
        match variable {
            Variable::Shared(v) => self.shared.set(v as usize, i as usize, w),
            Variable::Local(n) => self.locals.set(n as usize, w),
        }
    }

    /// Sets a scalar to a number, as one of its type.
    pub fn assign(&mut self, x: &VariableName, n: Number)
        ensures attempt { (left : List ℕ) → attempt_in self.new left
            ≡ assigned_to (attempt_in self.old left) x.now (converted (number_type n) x.now.word_type (number_value n)) }
        ensures emitted { self.new.emitted ≡ self.old.emitted }
        ensures same_base { self.new.shared.base ≡ self.old.shared.base }
    {
        match x.word_type {
            WordType::Long => {
                let long = n.long();
                self.set(x.variable, 0, (long % 65536) as u16);
                self.set(x.variable, 1, (long / 65536) as u16);
            }
            WordType::Int | WordType::Unsigned => self.set(x.variable, 0, n.word()),
        }
    }
}
