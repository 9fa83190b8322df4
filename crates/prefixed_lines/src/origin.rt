//! The sink that lines stand before, what it had when the first was begun, and their letter.
ghost use Rattle.std.specs.Prelude.{ℕ, List, Option, None};

use std::marker::Brand;

/// Which sink it is, what it told then, and which letter stands in front of each line. Each call that makes such lines picks them.
pub trait LineOrigin {
    /// The name of the borrow.
    ghost place: { ℕ };

    /// The bytes that it had, where it could tell.
    ghost contents: { Option (List ℕ) };

    /// The letter.
    ghost letter: { ℕ };
}

impl LineOrigin for Brand {
    ghost place = { 0 };

    ghost contents = { None };

    ghost letter = { 0 };
}
