//! Why the checks refuse a source.

use alp_text::Span;
use std::alloc::{AllocError, AllocFailed};
use thiserror::Error;

/// What a wrong use keeps: the name; the count of a shift where that is at fault; of an operator that takes no long, and of a keyword that may
/// not stand there, nothing.
#[derive(Clone, Copy, Debug)]
pub enum Kept {
    Name(Span),
    Number(u16),
    Nothing,
}

/// The first fault of the first check that finds one, with its line from 1, in the order of the checks; or want of memory.
#[derive(Clone, Copy, Debug, Error)]
pub enum CheckFault {
    /// A name that is declared twice where it must be declared once, at the later of the two declarations.
    #[error("line {line}: a name that is declared already")]
    RepeatedName { line: u32, name: Span },
    /// A name that is not known where it is used.
    #[error("line {line}: a name that is not known here")]
    UnknownName { line: u32, name: Span },
    /// A task or a function as a variable, an array without an index, a scalar with one, something else than a task behind a transition, something else than
    /// a function of as many parameters where values are given, a long index, a long side of `*`, `/` or `%`, a shift count above 31 where the left side is
    /// long, else above 15, `return` in a task, or `transition_to` in a function.
    #[error("line {line}: a name that is not used as what it was declared")]
    WrongUse { line: u32, kept: Kept },
    /// An array of no words.
    #[error("line {line}: an array of no words")]
    BadLength { line: u32, name: Span },
    /// A loop whose three names are not one local, or whose body assigns that local or uses it in another loop. It keeps the first of the three names.
    #[error("line {line}: a loop that does not count with a local of its own")]
    BadLoop { line: u32, name: Span },
    /// A local that some path reads here while it is unassigned.
    #[error("line {line}: a local that may be read before it is assigned")]
    Unassigned { line: u32, name: Span },
    /// The name of a function some path of which reaches the end of its body.
    #[error("line {line}: a function that may end without a return")]
    NoReturn { line: u32, name: Span },
    /// The name of a task some path of which reaches the end of its body.
    #[error("line {line}: a task that may end without a transition")]
    NoTransition { line: u32, name: Span },
    /// The 65th function or task, the 257th shared variable, the ninth parameter of a function, or the 257th local of a function, parameters among them, or of
    /// a task, at its name.
    #[error("line {line}: more names than a program may have")]
    TooMany { line: u32 },
    #[error("out of memory")]
    Memory,
}

impl From<AllocError> for CheckFault {
    ghost use Rattle.std.specs.Prelude.{◌≡◌};
    ghost use Rattle.task_check.specs.declared.fault.CheckFault.TheVariants.{Memory};

    ghost from_gives = { λ _ e. e ≡ Memory };

    fn from(_: AllocError) -> Self {
        CheckFault::Memory
    }
}

impl<T: Drop> From<AllocFailed<T>> for CheckFault {
    ghost use Rattle.std.specs.Prelude.{◌≡◌};
    ghost use Rattle.task_check.specs.declared.fault.CheckFault.TheVariants.{Memory};

    ghost from_gives = { λ _ e. e ≡ Memory };

    fn from(_: AllocFailed<T>) -> Self {
        CheckFault::Memory
    }
}
