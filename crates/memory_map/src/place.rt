//! Places of words in the FRAM.

/// Words one behind another: the address of the first, and how many they are.
#[derive(Clone, Copy, PartialEq, Eq)]
pub struct Region {
    pub address: u16,
    pub words: u32,
}

/// Where the copies of an array's elements and their version words stand: of each as many as there are elements.
#[derive(Clone, Copy, PartialEq, Eq)]
pub struct ArrayCopies {
    pub copies: u16,
    pub versions: u16,
}

/// How wide a scalar is: a long has two words, each other scalar one.
#[derive(Clone, Copy, PartialEq, Eq)]
pub enum ScalarWidth {
    OneWord,
    TwoWords,
}

impl ScalarWidth {
    ghost use Rattle.std.specs.Prelude.{◌≡◌};
    ghost use Rattle.memory_map.specs.Places.{scalar_words};

    /// How many words that is.
    pub fn words(self) -> u16
        ensures { result ≡ scalar_words self }
    {
        match self {
            ScalarWidth::OneWord => 1,
            ScalarWidth::TwoWords => 2,
        }
    }
}

/// Where a shared variable stands.
#[derive(Clone, Copy, PartialEq, Eq)]
pub enum VariablePlace {
    /// A scalar: its first word, the first of the words that a task works on in which the scalar is private, and how wide it is.
    /// The second word of a long stands right behind its first, and so in its copy.
    Scalar {
        home: u16,
        copy: u16,
        width: ScalarWidth,
    },
    /// An array: its first element, its length, and copies and versions where some task writes it.
    Array {
        elements: u16,
        length: u16,
        copies: Option<ArrayCopies>,
    },
}

/// A private scalar of a task: the number of the shared variable in order of declaration, its first word, that of its copy, and how
/// wide it is.
#[derive(Clone, Copy, PartialEq, Eq)]
pub struct PrivateScalar {
    pub number: u32,
    pub home: u16,
    pub copy: u16,
    pub width: ScalarWidth,
}

/// A function in a task that reaches it: its number in the source, and the room for its code, which begins at its first instruction.
/// Its locals have the numbers from `first` on, its parameters the first of them: all below 8, in registers, or all from 8 on, in RAM.
/// There its stack begins at `frame`, right below them.
#[derive(Clone, Copy, PartialEq, Eq)]
pub struct RoutinePlace {
    pub function: u32,
    pub code: Region,
    pub frame: Option<u16>,
    pub first: u16,
}
