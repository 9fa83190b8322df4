//! The names of a source, each where it stands.

use crate::fault::Kept;
use alp_text::Span;
use task_ast::{Extent, WordType};

/// What a name does where it stands. Declarations come first, then uses; among them stands what else can be used wrongly.
#[derive(Clone, Copy)]
pub enum Role {
    /// It is declared as a shared variable.
    Shared(WordType, Extent),
    /// It is declared as a function that gives words of a type, with so many parameters.
    Function(WordType, usize),
    /// It is declared as a task.
    Task,
    /// It is declared as a local, and is known where at least `end` and fewer than `begin` names stand behind: from behind the declaration to the end of its
    /// block. An extra one is a parameter behind as many as a function may have.
    Local {
        word_type: WordType,
        begin: usize,
        end: usize,
        extra: bool,
    },
    /// It is read or assigned as one word.
    Scalar,
    /// It is the array of an element that is read or assigned.
    Element,
    /// It is one of the three names of a `for`.
    Counter,
    /// It is called with so many values.
    Call(usize),
    /// It is the task of a transition or of the entry.
    Target,
    /// No name, but a part of an expression that the types of its operands may forbid, as the count of a shift, or a keyword that
    /// doesn't stand everywhere: whether it is forbidden here, and what the fault keeps.
    Operand {
        refused: bool,
        kept: Kept,
    },
}

/// A name, or what else can be used wrongly: its place in the text, and what it does there.
#[derive(Clone, Copy)]
pub struct Occurrence {
    pub span: Span,
    pub role: Role,
}
