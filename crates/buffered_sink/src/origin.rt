//! The sink that a buffer stands before, and what it had when the buffer was made.
ghost use Rattle.std.specs.Prelude.{ℕ, List, Option, None};

use std::marker::Brand;

/// Which sink it is, and what it told then. Each call that makes a buffer picks them.
pub trait Origin {
    /// The name of the borrow.
    ghost place: { ℕ };

    /// The bytes that it had, where it could tell.
    ghost contents: { Option (List ℕ) };
}

impl Origin for Brand {
    ghost place = { 0 };

    ghost contents = { None };
}
