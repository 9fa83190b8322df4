//! The operands of an instruction.
ghost use Rattle.std.specs.Prelude.{◌≡◌, ◌≤◌, length, option_map};
ghost use Rattle.asm_line.specs.Operands.{without_last, pointed, in_memory, operand_of, source_register, index_register, indirect_register, constant_of};
ghost use Rattle.asm_line.specs.Operands.{immediate_source, source, destination, source_of, destination_of};
ghost use Rattle.asm_line.specs.Pieces.{behind_mark};
ghost use Rattle.asm_line.specs.Views.{located};
ghost use Rattle.asm_line.specs.ValueViews.{meaning_of};
ghost use Rattle.asm_line.specs.OperandViews.{operand_meaning, open_of};

use crate::cuts::{behind, cut_at};
use crate::piece::Piece;
use crate::registers::register_named;
use crate::values::{Value, value_of};
use msp_isa::{Dst, IndexRegister, IndirectRegister, Konst, Operand, Reg, SourceRegister, Src};

/// An operand as it is written.
#[derive(Clone, Copy)]
pub enum Written<'a> {
    /// `rN`
    Register(Reg),
    /// `#v`
    Immediate(Value<'a>),
    /// `v(rN)`
    Indexed(Value<'a>, Reg),
    /// `v`
    Symbolic(Value<'a>),
    /// `&v`
    Absolute(Value<'a>),
    /// `@rN`
    Indirect(Reg),
    /// `@rN+`
    Increment(Reg),
}

#[tactic(auto, unfolding(crate::specs::Operands::without_last))]
fn without_last(b: u8, text: &[u8]) -> Option<&[u8]>
    ensures { option_map (λ p. p.now) result ≡ without_last b text.now }
{
    let len = text.len();
    if len > 0 && text[len - 1] == b {
        Some(&text[..len - 1])
    } else {
        None
    }
}

fn pointed<'a>(text: &[u8]) -> Option<Written<'a>>
    ensures { option_map operand_meaning result ≡ pointed text.now (without_last 43 text.now) }
{
    match without_last(b'+', text) {
        Some(name) => Some(Written::Increment(register_named(name)?)),
        None => Some(Written::Indirect(register_named(text)?)),
    }
}

fn in_memory(piece: Piece<'_>) -> Option<Written<'_>>
    ensures { option_map operand_meaning result ≡ in_memory (located piece.entry) (behind_mark 40 (located piece.entry)) }
{
    match cut_at(b'(', piece) {
        (_, None) => Some(Written::Symbolic(value_of(piece)?)),
        (value, Some(rest)) => {
            let name = without_last(b')', rest.text)?;
            let value = value_of(value)?;
            Some(Written::Indexed(value, register_named(name)?))
        }
    }
}

#[tactic(auto, unfolding(crate::specs::Operands::operand_of))]
fn operand_of(piece: Piece<'_>) -> Option<Written<'_>>
    ensures { option_map operand_meaning result ≡ operand_of (located piece.entry) }
{
    match piece.text {
        [] => None,
        [b'#', ..] => Some(Written::Immediate(value_of(behind(piece, 1))?)),
        [b'&', ..] => Some(Written::Absolute(value_of(behind(piece, 1))?)),
        [b'@', rest @ ..] => pointed(rest),
        _ => match register_named(piece.text) {
            Some(r) => Some(Written::Register(r)),
            None => in_memory(piece),
        },
    }
}

fn source_register(r: Reg) -> Option<SourceRegister>
    ensures { result ≡ source_register r }
{
    match r {
        Reg::Pc => Some(SourceRegister::Pc),
        Reg::Sr => Some(SourceRegister::Sr),
        Reg::R3 => None,
        Reg::Index(r) => Some(SourceRegister::Index(r)),
    }
}

fn index_register(r: Reg) -> Option<IndexRegister>
    ensures { result ≡ index_register r }
{
    match r {
        Reg::Index(r) => Some(r),
        _ => None,
    }
}

fn indirect_register(r: Reg) -> Option<IndirectRegister>
    ensures { result ≡ indirect_register r }
{
    match r {
        Reg::Pc => Some(IndirectRegister::Pc),
        Reg::Index(r) => Some(IndirectRegister::Index(r)),
        _ => None,
    }
}

fn constant_of(n: u16) -> Option<Konst>
    ensures { result ≡ constant_of n }
{
    match n {
        0 => Some(Konst::Zero),
        1 => Some(Konst::One),
        2 => Some(Konst::Two),
        4 => Some(Konst::Four),
        8 => Some(Konst::Eight),
        0xFFFF => Some(Konst::MinusOne),
        _ => None,
    }
}

fn immediate_source(value: Value<'_>) -> Src
    ensures { result ≡ immediate_source (meaning_of value.entry) }
{
    match value {
        Value::Number(n) | Value::OutOfRange(n) => match constant_of(n) {
            Some(constant) => Src::Constant(constant),
            None => Src::Immediate(0),
        },
        Value::Label(_) | Value::Here => Src::Immediate(0),
    }
}

fn source(written: Written<'_>) -> Option<(Src, Option<Value<'_>>)>
    ensures { option_map open_of result ≡ source (operand_meaning written.entry) }
{
    match written {
        Written::Register(r) => Some((Src::Operand(Operand::Reg(source_register(r)?)), None)),
        Written::Immediate(v) => Some((immediate_source(v), Some(v))),
        Written::Indexed(v, r) => {
            Some((
                Src::Operand(Operand::Indexed(index_register(r)?, 0)),
                Some(v),
            ))
        }
        Written::Symbolic(v) => Some((Src::Operand(Operand::Symbolic(0)), Some(v))),
        Written::Absolute(v) => Some((Src::Operand(Operand::Absolute(0)), Some(v))),
        Written::Indirect(r) => Some((
            Src::Operand(Operand::Indirect(indirect_register(r)?)),
            None,
        )),
        Written::Increment(r) => Some((Src::Operand(Operand::Increment(index_register(r)?)), None)),
    }
}

fn destination(written: Written<'_>) -> Option<(Dst, Option<Value<'_>>)>
    ensures { option_map open_of result ≡ destination (operand_meaning written.entry) }
{
    match written {
        Written::Register(r) => Some((Dst::Reg(r), None)),
        Written::Indexed(v, r) => Some((Dst::Indexed(index_register(r)?, 0), Some(v))),
        Written::Symbolic(v) => Some((Dst::Symbolic(0), Some(v))),
        Written::Absolute(v) => Some((Dst::Absolute(0), Some(v))),
        Written::Immediate(_) | Written::Indirect(_) | Written::Increment(_) => None,
    }
}

/// What a piece writes as a source operand: the operand, in which its value is still 0, and the value.
#[tactic(auto, unfolding(crate::specs::Operands::source_of))]
pub fn source_of(piece: Piece<'_>) -> Option<(Src, Option<Value<'_>>)>
    ensures { option_map open_of result ≡ source_of (located piece.entry) }
{
    source(operand_of(piece)?)
}

/// The same for a destination operand.
#[tactic(auto, unfolding(crate::specs::Operands::destination_of))]
pub fn destination_of(piece: Piece<'_>) -> Option<(Dst, Option<Value<'_>>)>
    ensures { option_map open_of result ≡ destination_of (located piece.entry) }
{
    destination(operand_of(piece)?)
}
