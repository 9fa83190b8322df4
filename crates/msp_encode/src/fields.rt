//! The fields of an operand.

ghost use Rattle.std.specs.Prelude.{◌<◌};

/// What an operand puts into the words of its instruction.
#[derive(Clone, Copy)]
pub struct Fields {
    /// As, two bits; of a destination Ad, one bit.
    pub mode: u16,
    /// The register's number.
    pub register: u16,
    /// The extension word, if the mode takes one.
    pub extension: Option<u16>,
    ghost mode_fits: { mode < 4 },
    ghost register_fits: { register < 16 },
}
