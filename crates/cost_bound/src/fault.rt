//! Why a source costs too much.

use alp_text::Span;
use thiserror::Error;

/// What of a source is too much, in the order in which it is looked at. A count that passes 2^64 - 1 stands there.
#[derive(Clone, Copy, Debug, Error)]
pub enum Over {
    /// The first task that counts more than 256 emits: the line of its name in its declaration from 1, the name, and the count.
    #[error("line {line}: a task that counts {count} emits, more than 256")]
    TooManyEmits { line: u32, name: Span, count: u64 },
    /// A bound of 2^32 cycles or more.
    #[error("a bound of {number} cycles, more than 4294967295")]
    BoundTooLarge { number: u64 },
    /// A size of more than 22,000 words.
    #[error("{number} words, more than 22000")]
    TooLarge { number: u64 },
    /// A stack of more than 1,000 words: that of the task that needs most.
    #[error("a stack of {number} words, more than 1000")]
    StackTooLarge { number: u64 },
}
