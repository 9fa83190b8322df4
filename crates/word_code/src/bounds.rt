//! What is known of a local in the body of its loop.

/// A local is below a number in the body of its loop.
#[derive(Clone, Copy, Debug, PartialEq, Eq)]
pub struct Bound {
    /// The local's number.
    pub local: u16,
    /// What its word is below.
    pub below: u16,
}
