//! Layouts: memory maps of compiled sources, as they are kept in memory.

use crate::place::{PrivateScalar, Region, RoutinePlace, VariablePlace};
use crate::runtime::{Logging, Runtime};
use crate::words::RuntimeWord;
use std::marker::Model;

/// Where the runtime's words stand, and the regions behind them.
#[derive(Clone, Copy)]
pub struct Regions {
    /// The address of the first of the runtime's words.
    pub row: u16,
    /// The commit list.
    pub list: Region,
    /// The entries for which the commit list has room.
    pub entries: u32,
    /// The words that an attempt emits.
    pub emits: Region,
    /// The version words of all written arrays.
    pub versions: Region,
    /// The words of all shared variables.
    pub homes: Region,
    /// The copies of all scalars and written arrays.
    pub copies: Region,
    /// The code that runs at each power-up and at the start of an attempt.
    pub boot: Region,
    /// The code of the commit.
    pub commit: Region,
    /// The code of all tasks.
    pub code: Region,
}

/// A task's private scalars, the room for its own code, the number of its first local, and the functions that it reaches.
#[derive(Drop)]
pub struct TaskLayout {
    privates: Vec<PrivateScalar>,
    code: Region,
    first: u16,
    routines: Vec<RoutinePlace>,
}

impl Model for TaskLayout {
    ghost use Rattle.memory_map.specs.MemoryMap.{TaskPlace};

    ghost Value = { TaskPlace };

    ghost view = { λ t. record { privates = t.privates.items; code = t.code; first = t.first; routines = t.routines.items } };
}

impl TaskLayout {
    ghost use Rattle.std.specs.Prelude.{◌≡◌};

    /// A task with these private scalars, in order of declaration, this room for its own code, this number of its first local, and
    /// the functions that it reaches, in order of declaration.
    pub fn new(
        privates: Vec<PrivateScalar>,
        code: Region,
        first: u16,
        routines: Vec<RoutinePlace>,
    ) -> TaskLayout
        ensures { result ≡ record { privates = privates.items; code = code; first = first; routines = routines.items } }
    {
        TaskLayout {
            privates,
            code,
            first,
            routines,
        }
    }

    /// The private scalars, in order of declaration.
    pub fn privates(&self) -> &[PrivateScalar]
        ensures { result.now ≡ self.now.privates }
    {
        self.privates.as_slice()
    }

    /// Where the task's own code stands, and the words that are kept for it.
    pub fn code(&self) -> Region
        ensures { result ≡ self.now.code }
    {
        self.code
    }

    /// The number of its first local; the others have the numbers behind it.
    pub fn first(&self) -> u16
        ensures { result ≡ self.now.first }
    {
        self.first
    }

    /// The functions that the task reaches, in order of declaration.
    pub fn routines(&self) -> &[RoutinePlace]
        ensures { result.now ≡ self.now.routines }
    {
        self.routines.as_slice()
    }
}

/// Where all that a compiled source keeps in the FRAM stands.
///
/// From 0x4400 up, each at an even address and apart from the others: the words of the runtime; the commit list, with three words kept
/// for an entry; the emit buffer; the version words of all written arrays; the words of all shared variables; the copies of scalars
/// and of written arrays; and then code: the boot, the commit, each task with the functions that it reaches. All of it ends below
/// 0xFF18.
#[derive(Drop)]
pub struct Layout {
    runtime: Runtime,
    regions: Regions,
    variables: Vec<VariablePlace>,
    tasks: Vec<TaskLayout>,
}

impl Model for Layout {
    ghost use Rattle.memory_map.specs.MemoryMap.{MemoryMap};

    ghost Value = { MemoryMap };

    ghost use Rattle.memory_map.specs.View.{map_of};
    ghost use Rattle.memory_map.specs.Places.{IsLaidOut};

    ghost view = { map_of };

    ghost invariant = { λ l. IsLaidOut (map_of l) };
}

impl Layout {
    ghost use Rattle.std.specs.Prelude.{◌≡◌};
    ghost use Rattle.memory_map.specs.MemoryMap.{word_place, logged_map};
    ghost use Rattle.memory_map.specs.Places.{IsLaidOut};
    ghost use Rattle.memory_map.specs.View.{map_with};

    /// The layout for a runtime of these places, which keep the rules of a memory map.
    pub fn new(
        runtime: Runtime,
        regions: Regions,
        variables: Vec<VariablePlace>,
        tasks: Vec<TaskLayout>,
    ) -> Layout
        requires { IsLaidOut (map_with runtime regions variables.items tasks.items) }
        ensures { result ≡ map_with runtime regions variables.items tasks.items }
    {
        Layout {
            runtime,
            regions,
            variables,
            tasks,
        }
    }

    /// The rules that each layout keeps: its places are even, in the FRAM and apart.
    pub fn rules(&self)
        ensures { IsLaidOut self.now }
    {
        let _ = &self.regions;
    }

    /// The runtime that the source is compiled for.
    pub fn runtime(&self) -> Runtime
        ensures { result ≡ self.now.runtime }
    {
        self.runtime
    }

    /// The same places for the undo runtime. Where copies were kept nothing is.
    pub fn logged(self) -> Layout
        ensures { result ≡ logged_map self }
    {
        Layout {
            runtime: Runtime {
                logging: Logging::Undo,
                ..self.runtime
            },
            ..self
        }
    }

    /// The address of a word of the runtime.
    pub fn word_place(&self, word: RuntimeWord) -> u16
        ensures { result ≡ word_place self.now word }
    {
        self.regions.row + 2 * word.index()
    }

    /// The commit list. Three words are kept for each entry.
    pub fn list(&self) -> Region
        ensures { result ≡ self.now.list }
    {
        self.regions.list
    }

    /// The entries for which the commit list has room.
    pub fn entries(&self) -> u32
        ensures { result ≡ self.now.entries }
    {
        self.regions.entries
    }

    /// The words that an attempt emits.
    pub fn emits(&self) -> Region
        ensures { result ≡ self.now.emits }
    {
        self.regions.emits
    }

    /// The version words of all written arrays.
    pub fn versions(&self) -> Region
        ensures { result ≡ self.now.versions }
    {
        self.regions.versions
    }

    /// The words of all shared variables.
    pub fn homes(&self) -> Region
        ensures { result ≡ self.now.homes }
    {
        self.regions.homes
    }

    /// The copies of all scalars and written arrays.
    pub fn copies(&self) -> Region
        ensures { result ≡ self.now.copies }
    {
        self.regions.copies
    }

    /// The shared variables, in order of declaration.
    pub fn variables(&self) -> &[VariablePlace]
        ensures { result.now ≡ self.now.variables }
    {
        self.variables.as_slice()
    }

    /// The room for the code that runs at each power-up and at the start of an attempt.
    pub fn boot(&self) -> Region
        ensures { result ≡ self.now.boot }
    {
        self.regions.boot
    }

    /// The room for the code of the commit.
    pub fn commit(&self) -> Region
        ensures { result ≡ self.now.commit }
    {
        self.regions.commit
    }

    /// The room for the code of all tasks.
    pub fn code(&self) -> Region
        ensures { result ≡ self.now.code }
    {
        self.regions.code
    }

    /// The tasks, in order of declaration.
    pub fn tasks(&self) -> &[TaskLayout]
        ensures { result.now ≡ self.now.tasks }
    {
        self.tasks.as_slice()
    }
}
