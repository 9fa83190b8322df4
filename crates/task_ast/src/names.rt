//! Names that the checks have looked up.

use crate::{Source, WordType};
use alp_text::Span;

/// A variable by its number, counted from 0: a shared one in the order of its declaration in the source, a local one in the
/// order of its declaration in its task or function, of which the parameters are the first.
#[derive(Clone, Copy, Debug, PartialEq, Eq)]
pub enum Variable {
    Shared(u32),
    Local(u32),
}

/// A name that stands for a variable: where it stands in the text, which variable it is, and its type, of an array that of its elements.
#[derive(Clone, Copy, Debug, PartialEq, Eq)]
pub struct VariableName {
    pub span: Span,
    pub variable: Variable,
    pub word_type: WordType,
}

/// A name that stands for a task: where it stands in the text, and the task's number in the order of declaration, from 0.
#[derive(Clone, Copy, Debug, PartialEq, Eq)]
pub struct TaskName {
    pub span: Span,
    pub task: u32,
}

/// A name that stands for a function: where it stands in the text, the function's number in the order of declaration, from 0, and the
/// type of what it gives.
#[derive(Clone, Copy, Debug, PartialEq, Eq)]
pub struct FunctionName {
    pub span: Span,
    pub function: u32,
    pub word_type: WordType,
}

/// A source whose names have been looked up.
pub type CheckedSource = Source<VariableName, TaskName, FunctionName>;
