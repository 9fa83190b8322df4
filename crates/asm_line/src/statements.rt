//! What one line says.
ghost use Rattle.asm_line.specs.Views.{located};
ghost use Rattle.asm_line.specs.Lines.{values_of};
ghost use Rattle.asm_line.specs.Pieces.{parts};
ghost use Rattle.std.specs.Prelude.{◌≡◌, length};

use crate::piece::Piece;
use crate::values::Value;
use msp_isa::{Condition, Instr};

/// An instruction in which the values of its operands are still 0, and these values.
#[derive(Clone, Copy)]
pub struct Template<'a> {
    pub instr: Instr,
    /// The value of the source operand, or of the only one.
    pub source: Option<Value<'a>>,
    pub destination: Option<Value<'a>>,
}

/// The values behind `.word`, as they are written.
#[derive(Clone, Copy)]
pub struct WordList<'a> {
    pub list: Piece<'a>,
    /// How many values there are.
    pub count: usize,
    ghost counted: { count ≡ length (values_of (parts 44 (located list))) },
}

/// What a line does beside its label.
#[derive(Clone, Copy)]
pub enum Statement<'a> {
    Nothing,
    /// `.org`: the address of what follows.
    Org(Value<'a>),
    /// `.word`: the words of these values.
    Words(WordList<'a>),
    /// A jump to the address that the value is.
    Jump(Condition, Value<'a>),
    Instruction(Template<'a>),
}

/// A line of an assembler text.
#[derive(Clone, Copy)]
pub struct Line<'a> {
    pub label: Option<Piece<'a>>,
    pub statement: Statement<'a>,
}
