//! The type of maps.
ghost use Rattle.std.specs.Prelude.{◌≡◌, ◌<◌, ◌≤◌, ◌&&◌, ◌++◌, ◌∷◌, [], Some, None, IfOk, OnOk, OnErr, length, map};
ghost use Rattle.image_map.specs.declared.parts.Variable.{Variable};
ghost use Rattle.image_map.specs.MapValue.{is_fram_word, fits, is_kind, is_among, is_scalar_of, names_behind, are_scalars};

use crate::name::Name;
use crate::parts::{Place, RingPlaces, RuntimeWords, Task, ValueType, Variable};
use address_space::{FRAM_END, FRAM_FIRST};
use std::alloc::{AllocError, Global};
use std::marker::Model;

/// What an image says of its program: the bound of a transition in cycles, where the runtime's words, the lists and the
/// shared variables stand, and the tasks.
///
/// A map keeps these rules: each address is even and in the FRAM; the 64 words of a ring fit; an array has a word at least and fits, and its
/// elements are words; both words of a long are in the FRAM; there are at most 256 variables and 64 tasks, each with a name of its own; the private
/// names of a task are scalars in order of declaration.
#[derive(Drop)]
pub struct Map {
    bound: u32,
    words: RuntimeWords,
    list: Place,
    emits: Place,
    versions: Place,
    copies: Option<Place>,
    ring: Option<RingPlaces>,
    variables: Vec<Variable>,
    tasks: Vec<Task>,
}

impl Model for Map {
    ghost use Rattle.image_map.specs.MapValue.{MapValue};
    ghost use Rattle.image_map.specs.Kept.{IsMap};

    ghost Value = { MapValue };

    ghost use Rattle.image_map.specs.MapView.{map_of};

    ghost view = { map_of };

    ghost invariant = { λ m. IsMap (map_of m) };
}

/// Whether a word of the FRAM stands at an address: 0x4400 to 0xFFFE, even.
pub fn is_fram_word(address: u16) -> bool
    ensures { result ≡ is_fram_word address }
{
    address >= FRAM_FIRST && address % 2 == 0
}

/// Whether so many words from an address on are all there, and there is one at least.
pub fn fits(address: u16, words: u16) -> bool
    ensures { result ≡ fits address words }
{
    words > 0 && address as u32 + 2 * words as u32 <= FRAM_END
}

fn is_kind(value_type: ValueType, length: Option<u16>) -> bool
    ensures { result ≡ is_kind value_type length }
{
    match length {
        None => true,
        Some(_) => !value_type.is_long(),
    }
}

fn has_variable(variables: &[Variable], name: &[u8]) -> bool
    ensures { result ≡ is_among name.now (map (λ v. v.name) variables.now) }
{
    for v in variables {
        if v.name.as_bytes() == name {
            return true;
        }
    }
    false
}

fn has_task(tasks: &[Task], name: &[u8]) -> bool
    ensures { result ≡ is_among name.now (map (λ t. t.name) tasks.now) }
{
    for t in tasks {
        if t.name().as_bytes() == name {
            return true;
        }
    }
    false
}

fn is_scalar(v: &Variable, name: &[u8]) -> bool
    ensures { result ≡ is_scalar_of name.now v.now }
{
    v.length.is_none() && v.name.as_bytes() == name
}

// The names that are left behind a variable: all but the first, where that is the variable's.
fn names_behind<'a>(names: &'a [Name], v: &Variable) -> &'a [Name]
    ensures { result.now ≡ names_behind names.now v.now }
{
    match names {
        [first, rest @ ..] if is_scalar(v, first.as_bytes()) => rest,
        _ => names,
    }
}

// Whether names, and one more behind them, are names of scalars in order of declaration.
fn are_scalars(names: &[Name], last: &[u8], variables: &[Variable]) -> bool
    ensures { result ≡ are_scalars (names.now ++ last.now ∷ []) variables.now }
{
    let mut left = names;
    for v in variables {
        if left.is_empty() && is_scalar(v, last) {
            return true;
        }
        left = names_behind(left, v);
    }
    false
}

impl Map {
    ghost use Rattle.std.specs.Prelude.{◌≡◌, ◌<◌, ◌≤◌, [], OnOk, OnErr, Some, None, true};
    ghost use Rattle.image_map.specs.declared.parts.RuntimeWords.{RuntimeWords};
    ghost use Rattle.image_map.specs.declared.parts.Place.{Place};
    ghost use Rattle.image_map.specs.MapValue.{AreFramWords, IsFramWord, takes_variable, with_variable, takes_task, with_task, takes_private, with_private};
    ghost use Rattle.image_map.specs.MapValue.{is_used, IsRing};
    ghost use Rattle.image_map.specs.Kept.{IsMap};

    /// A map without copies, ring, variables and tasks, from its first lines.
    pub fn new(
        alloc: Global,
        bound: u32,
        words: RuntimeWords,
        list: Place,
        emits: Place,
        versions: Place,
    ) -> Map
        requires words { AreFramWords words }
        requires list { IsFramWord list.address }
        requires emits { IsFramWord emits.address }
        requires versions { IsFramWord versions.address }
        ensures { result ≡ record {
          bound = bound;
          words = words;
          list = list;
          emits = emits;
          versions = versions;
          copies = None;
          ring = None;
          variables = [];
          tasks = [];
        } }
    {
        Map {
            bound,
            words,
            list,
            emits,
            versions,
            copies: None,
            ring: None,
            variables: Vec::new(alloc),
            tasks: Vec::new(alloc),
        }
    }

    /// The rules that each map keeps.
    pub fn rules(&self)
        ensures { IsMap self.now }
    {
        let _ = &self.variables;
    }

    /// The bound of a transition, in cycles.
    pub fn bound(&self) -> u32
        ensures { result ≡ self.now.bound }
    {
        self.bound
    }

    /// The addresses of the runtime's words.
    pub fn words(&self) -> RuntimeWords
        ensures { result ≡ self.now.words }
    {
        self.words
    }

    /// The commit list; its items are entries of three words: a home, a copy and how many words.
    pub fn list(&self) -> Place
        ensures { result ≡ self.now.list }
    {
        self.list
    }

    /// The words that an attempt emits.
    pub fn emits(&self) -> Place
        ensures { result ≡ self.now.emits }
    {
        self.emits
    }

    /// The version words.
    pub fn versions(&self) -> Place
        ensures { result ≡ self.now.versions }
    {
        self.versions
    }

    /// The private copies of the shared variables; nothing where the map doesn't say where they are.
    pub fn copies(&self) -> Option<Place>
        ensures { result ≡ self.now.copies }
    {
        self.copies
    }

    /// Says where the private copies are.
    pub fn set_copies(&mut self, copies: Place)
        requires { IsFramWord copies.address }
        ensures { self.new ≡ record self.old { copies = Some copies } }
    {
        self.copies = Some(copies);
    }

    /// The ring of events; nothing where the program has none.
    pub fn ring(&self) -> Option<RingPlaces>
        ensures { result ≡ self.now.ring }
    {
        self.ring
    }

    /// Says where the ring is.
    pub fn set_ring(&mut self, ring: RingPlaces)
        requires { IsRing ring }
        ensures { self.new ≡ record self.old { ring = Some ring } }
    {
        self.ring = Some(ring);
    }

    /// The shared variables, in order of declaration.
    pub fn variables(&self) -> &[Variable]
        ensures { result.now ≡ self.now.variables }
    {
        self.variables.as_slice()
    }

    /// The tasks, in order of declaration.
    pub fn tasks(&self) -> &[Task]
        ensures { result.now ≡ self.now.tasks }
    {
        self.tasks.as_slice()
    }

    fn is_used(&self, name: &[u8]) -> bool
        ensures { result ≡ is_used self.now name.now }
    {
        has_variable(self.variables.as_slice(), name) || has_task(self.tasks.as_slice(), name)
    }

    /// Whether a variable may be the next one.
    #[tactic(auto, unfolding(crate::specs::MapValue::takes_variable))]
    pub fn takes_variable(&self, v: &Variable) -> bool
        ensures { result ≡ takes_variable self.now v.now }
    {
        self.tasks.is_empty()
            && self.variables.len() < 256
            && is_fram_word(v.address)
            && fits(v.address, v.words())
            && is_kind(v.value_type, v.length)
            && !self.is_used(v.name.as_bytes())
    }

    /// Adds a variable behind the others; where memory is refused the map is as before.
    #[tactic(auto, unfolding(crate::specs::MapValue::takes_variable))]
    pub fn add_variable(&mut self, v: Variable) -> Result<(), AllocError>
        requires { takes_variable self.old v ≡ true }
        ensures ok { OnOk result (self.new ≡ with_variable self.old v) }
        ensures err { OnErr result (self.new ≡ self.old) }
    {
        self.variables.push(v)?;
        Ok(())
    }

    /// Whether a name may be the next task's.
    #[tactic(auto, unfolding(crate::specs::MapValue::takes_task))]
    pub fn takes_task(&self, name: &Name) -> bool
        ensures { result ≡ takes_task self.now name.now }
    {
        self.tasks.len() < 64 && !self.is_used(name.as_bytes())
    }

    /// Adds a task behind the others; where memory is refused the map is as before.
    pub fn add_task(&mut self, alloc: Global, name: Name) -> Result<(), AllocError>
        requires { takes_task self.old name ≡ true }
        ensures ok { OnOk result (self.new ≡ with_task self.old name) }
        ensures err { OnErr result (self.new ≡ self.old) }
    {
        self.tasks.push(Task::new(alloc, name))?;
        Ok(())
    }

    /// Whether a name may be the next private scalar of the last task.
    #[tactic(auto, unfolding(crate::specs::MapValue::takes_private))]
    pub fn takes_private(&self, name: &Name) -> bool
        ensures { result ≡ takes_private self.now name.now }
    {
        match self.tasks.as_slice() {
            [] => false,
            [.., last] => are_scalars(last.privates(), name.as_bytes(), self.variables.as_slice()),
        }
    }

    /// Adds a private scalar to the last task; where memory is refused the map is as before.
    pub fn add_private(&mut self, name: Name) -> Result<(), AllocError>
        requires { takes_private self.old name ≡ true }
        ensures ok { OnOk result (self.new ≡ with_private self.old name) }
        ensures err { OnErr result (self.new ≡ self.old) }
    {
        let last = self.tasks.len() - 1;
        let task = &mut self.tasks[last];
        task.add_private(name)?;
        Ok(())
    }
}
