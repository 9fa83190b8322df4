//! Charges: how long the board runs before power fails.

/// What the length of a charge counts.
#[derive(Clone, Copy, Debug, PartialEq, Eq)]
pub enum ChargeKind {
    /// Cycles of the CPU.
    Cycles,
    /// Instructions.
    Steps,
}

/// Equal charges in a row: `times` of them, each of `n` cycles or instructions.
#[derive(Clone, Copy, Debug, PartialEq, Eq)]
pub struct Charge {
    pub kind: ChargeKind,
    pub n: u32,
    /// The word that volatile memory and registers hold when power comes up.
    pub fill: u16,
    /// How many charges, from 1 on.
    pub times: u32,
}
