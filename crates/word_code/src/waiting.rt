//! Words that wait to be pushed: what an instruction names in place of the words on top of the stack.

/// A word that waits to be pushed.
#[derive(Clone, Copy, Debug, PartialEq, Eq)]
pub enum Waiting {
    Number(u16),
    /// The word of FRAM at an address.
    Fram(u16),
    /// One of the first eight locals, which stand in registers.
    Local(u16),
    /// A result in R4.
    R4,
    /// A result in R6.
    R6,
}
