//! A piece of a text.
ghost use Rattle.std.specs.Prelude.{◌<◌, ◌+◌, ◌^◌, length};

/// A piece of a text.
#[derive(Clone, Copy)]
pub struct Piece<'a> {
    pub text: &'a [u8],
    /// The place of its first byte in the whole text.
    pub at: usize,
    ghost fits: { at + length text.now < 2 ^ 64 },
}
