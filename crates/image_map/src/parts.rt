//! What a map names.
ghost use Rattle.std.specs.Prelude.{◌≡◌};
ghost use Rattle.image_map.specs.MapValue.{scalar_words};

use crate::name::Name;
use std::alloc::{AllocError, Global};
use std::marker::Model;

/// The addresses of the words of the runtime.
#[derive(Clone, Copy, PartialEq, Eq)]
pub struct RuntimeWords {
    /// CUR: the number of the task that runs.
    pub current_task: u16,
    /// NEXT: the number of the task that the transition chose.
    pub next_task: u16,
    /// GATE: 1 from the transition to the end of its commit.
    pub gate: u16,
    /// CLN: the entries in the commit list.
    pub list_length: u16,
    /// EN: the words that the attempt emitted.
    pub emit_count: u16,
    /// BASE: the number of the next word to send.
    pub base: u16,
    /// SB: BASE as the transition found it.
    pub sent_base: u16,
    /// VER: the number of the attempt.
    pub version: u16,
}

/// Where a list stands, and how many items it has room for.
#[derive(Clone, Copy, PartialEq, Eq)]
pub struct Place {
    pub address: u16,
    pub capacity: u32,
}

/// How many words a ring has room for.
pub const RING_WORDS: u16 = 64;

/// Where the words of a ring of events stand. HEAD and TAIL are indexes that count on modulo 65536: the word with index i stands in slot i modulo 64.
#[derive(Clone, Copy, PartialEq, Eq)]
pub struct RingPlaces {
    /// HEAD: the index behind the newest word of the ring.
    pub head: u16,
    /// TAIL: the index of its oldest word.
    pub tail: u16,
    /// EC: how many words the attempt has taken.
    pub event_count: u16,
    /// SE: TAIL as the transition leaves it.
    pub sent_tail: u16,
    /// ANS: the last answer.
    pub answer: u16,
    /// The first of the 64 slots.
    pub slots: u16,
}

/// How a variable's words are read as numbers.
#[derive(Clone, Copy)]
pub enum ValueType {
    Unsigned,
    Int,
    /// Two words, the low one first, as one number without a sign.
    Long,
}

impl ValueType {
    ghost use Rattle.std.specs.Prelude.{◌≡◌};
    ghost use Rattle.image_map.specs.MapValue.{is_long};

    /// Whether its numbers have two words.
    pub fn is_long(self) -> bool
        ensures { result ≡ is_long self }
    {
        match self {
            ValueType::Unsigned | ValueType::Int => false,
            ValueType::Long => true,
        }
    }
}

// The words of a scalar of this type.
fn scalar_words(value_type: ValueType) -> u16
    ensures { result ≡ scalar_words value_type }
{
    match value_type {
        ValueType::Unsigned | ValueType::Int => 1,
        ValueType::Long => 2,
    }
}

/// A shared variable.
#[derive(Drop)]
pub struct Variable {
    pub name: Name,
    pub value_type: ValueType,
    /// Where its first word stands.
    pub address: u16,
    /// The words of an array; nothing for a scalar.
    pub length: Option<u16>,
}

impl Variable {
    ghost use Rattle.std.specs.Prelude.{◌≡◌};
    ghost use Rattle.image_map.specs.MapValue.{word_count};

    /// How many words it has: a long has two.
    pub fn words(&self) -> u16
        ensures { result ≡ word_count self.now.value_type self.now.length }
    {
        match self.length {
            None => scalar_words(self.value_type),
            Some(n) => n,
        }
    }
}

/// A task, with the shared scalars that it works on in copies.
#[derive(Drop)]
pub struct Task {
    name: Name,
    privates: Vec<Name>,
}

impl Model for Task {
    ghost use Rattle.image_map.specs.MapValue.{TaskValue};

    ghost Value = { TaskValue };

    ghost view = { λ t. record { name = t.name; privates = t.privates.items } };
}

impl Task {
    ghost use Rattle.std.specs.Prelude.{◌≡◌, ◌++◌, ◌∷◌, [], OnOk, OnErr};

    /// A task without private scalars.
    pub fn new(alloc: Global, name: Name) -> Task
        ensures { result ≡ record { name = name; privates = [] } }
    {
        Task {
            name,
            privates: Vec::new(alloc),
        }
    }

    /// The task's name.
    pub fn name(&self) -> &Name
        ensures { result.now ≡ self.now.name }
    {
        &self.name
    }

    /// The names of the scalars that are private in the task, in order of declaration.
    pub fn privates(&self) -> &[Name]
        ensures { result.now ≡ self.now.privates }
    {
        self.privates.as_slice()
    }

    /// Adds a private scalar behind the others; where memory is refused the task is as before.
    pub fn add_private(&mut self, name: Name) -> Result<(), AllocError>
        ensures ok { OnOk result (self.new ≡ record self.old { privates = self.old.privates ++ name ∷ [] }) }
        ensures err { OnErr result (self.new ≡ self.old) }
    {
        self.privates.push(name)?;
        Ok(())
    }
}
