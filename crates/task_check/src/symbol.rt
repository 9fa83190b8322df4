//! What names stand for.

use task_ast::{Variable, WordType};

/// What a name stands for: a shared variable, a function or a task, by its number in the source, or a local, by its number in its
/// function or task.
#[derive(Clone, Copy)]
pub enum Symbol {
    Scalar {
        number: u32,
        word_type: WordType,
    },
    Array {
        number: u32,
        word_type: WordType,
    },
    /// A function that gives words of a type, with so many parameters.
    Function {
        number: u32,
        word_type: WordType,
        parameters: usize,
    },
    Task {
        number: u32,
    },
    Local {
        number: u32,
        word_type: WordType,
    },
}

/// A shared variable, a function or a task, and how many names stand in front of its declaration.
#[derive(Clone, Copy)]
pub struct Global {
    pub front: usize,
    pub symbol: Symbol,
}

/// A local: how many functions and tasks are declared up to its own one, its number there, its type, and where it is known.
#[derive(Clone, Copy)]
pub struct Local {
    pub functions: u32,
    pub tasks: u32,
    pub number: u32,
    pub word_type: WordType,
    pub begin: usize,
    pub end: usize,
}

/// A variable, and the type of its words.
#[derive(Clone, Copy)]
pub struct TypedVariable {
    pub variable: Variable,
    pub word_type: WordType,
}

/// A function, and the type of what it gives.
#[derive(Clone, Copy)]
pub struct TypedFunction {
    pub function: u32,
    pub word_type: WordType,
}

/// How many shared variables, functions and tasks are declared in front of a place, and how many locals of the function or the task that
/// it is in.
#[derive(Clone, Copy)]
pub struct Counts {
    pub shared: u32,
    pub functions: u32,
    pub tasks: u32,
    pub locals: u32,
}
