//! A line read as a label, an operation and its operands.
ghost use Rattle.std.specs.Prelude.{◌≡◌, ◌≤◌, length, option_map};
ghost use Rattle.text_parts.specs.Fields.{fields, no_fields};
ghost use Rattle.asm_line.specs.Pieces.{before_mark, behind_mark};
ghost use Rattle.asm_line.specs.Tables.{OperandText};
ghost use Rattle.asm_line.specs.Lines.{suffix_width, suffix_of, base_name, width_of, is_word_form, two_of, in_place, if_word_form, one_op_of, one_of};
ghost use Rattle.asm_line.specs.Lines.{two_words, place, is_written, takes_suffix, emulated_of, emulated, plain_of, if_no_suffix, operation_of, statement_of};
ghost use Rattle.asm_line.specs.Lines.{with_label, labelled, line_of};
ghost use Rattle.asm_line.specs.Views.{located};
ghost use Rattle.asm_line.specs.TableViews.{operand_text, core_text_of};
ghost use Rattle.asm_line.specs.LineViews.{statement_meaning, line_meaning};

use crate::cuts::{cut_at, cut_word, only_word, without_blanks};
use crate::lists::{word_list, word_value};
use crate::operands::{destination_of, source_of};
use crate::piece::Piece;
use crate::statements::{Line, Statement, Template};
use crate::tables::{
    CoreText, OneName, OperandText, condition_named, emulated_named, one_named, two_named,
};
use crate::values::{Value, is_label};
use msp_isa::{Instr, OneOp, Operand, Src, TwoOp, Width};
use text_parts::is_blank_line;

fn suffix_width(b: u8) -> Option<Width>
    ensures { result ≡ suffix_width b }
{
    match b {
        b'b' | b'B' => Some(Width::Byte),
        b'w' | b'W' => Some(Width::Word),
        _ => None,
    }
}

#[tactic(auto, unfolding(crate::specs::Lines::suffix_of))]
fn suffix_of(name: &[u8]) -> Option<Width>
    ensures { result ≡ suffix_of name.now }
{
    let len = name.len();
    if len >= 2 && name[len - 2] == b'.' {
        suffix_width(name[len - 1])
    } else {
        None
    }
}

#[tactic(auto, unfolding(crate::specs::Lines::base_name))]
fn base_name(name: &[u8]) -> &[u8]
    ensures { result.now ≡ base_name name.now }
{
    match suffix_of(name) {
        None => name,
        Some(_) => &name[..name.len().saturating_sub(2)],
    }
}

fn width_of(suffix: Option<Width>) -> Width
    ensures { result ≡ width_of suffix }
{
    suffix.unwrap_or(Width::Word)
}

fn is_word_form(suffix: Option<Width>) -> bool
    ensures { result ≡ is_word_form suffix }
{
    match suffix {
        None | Some(Width::Word) => true,
        Some(Width::Byte) => false,
    }
}

#[tactic(auto, unfolding(crate::specs::Lines::two_of))]
fn two_of<'a>(
    op: TwoOp,
    suffix: Option<Width>,
    source: Piece<'a>,
    destination: Piece<'a>,
) -> Option<Statement<'a>>
    ensures { option_map statement_meaning result ≡ two_of op suffix (located source.entry) (located destination.entry) }
{
    let (src, source) = source_of(source)?;
    let (dst, destination) = destination_of(destination)?;
    Some(Statement::Instruction(Template {
        instr: Instr::Two {
            op,
            width: width_of(suffix),
            src,
            dst,
        },
        source,
        destination,
    }))
}

fn in_place(src: Src) -> Option<Operand>
    ensures { result ≡ in_place src }
{
    match src {
        Src::Operand(o) => Some(o),
        Src::Immediate(_) | Src::Constant(_) => None,
    }
}

fn if_word_form(suffix: Option<Width>, op: OneOp) -> Option<OneOp>
    ensures { result ≡ if_word_form suffix op }
{
    if is_word_form(suffix) { Some(op) } else { None }
}

fn one_op_of(name: OneName, suffix: Option<Width>, src: Src) -> Option<OneOp>
    ensures { result ≡ one_op_of name suffix src }
{
    match name {
        OneName::Rrc => Some(OneOp::Rrc(width_of(suffix), in_place(src)?)),
        OneName::Rra => Some(OneOp::Rra(width_of(suffix), in_place(src)?)),
        OneName::Swpb => if_word_form(suffix, OneOp::Swpb(in_place(src)?)),
        OneName::Sxt => if_word_form(suffix, OneOp::Sxt(in_place(src)?)),
        OneName::Push => Some(OneOp::Push(width_of(suffix), src)),
        OneName::Call => if_word_form(suffix, OneOp::Call(src)),
    }
}

#[tactic(auto, unfolding(crate::specs::Lines::one_of))]
fn one_of(name: OneName, suffix: Option<Width>, operand: Piece<'_>) -> Option<Statement<'_>>
    ensures { option_map statement_meaning result ≡ one_of name suffix (located operand.entry) }
{
    let (src, source) = source_of(operand)?;
    Some(Statement::Instruction(Template {
        instr: Instr::One(one_op_of(name, suffix, src)?),
        source,
        destination: None,
    }))
}

fn two_words<'a>(op: TwoOp, suffix: Option<Width>, rest: Piece<'a>) -> Option<Statement<'a>>
    ensures { option_map statement_meaning result
        ≡ two_words op suffix (before_mark 44 (located rest.entry)) (behind_mark 44 (located rest.entry)) }
{
    let (first, second) = cut_at(b',', rest);
    let source = only_word(first)?;
    let destination = only_word(second?)?;
    two_of(op, suffix, source, destination)
}

fn place<'a>(text: OperandText, written: Piece<'a>) -> Piece<'a>
    ensures { located result ≡ place (operand_text text) (located written.entry) }
{
    match text {
        OperandText::Written => written,
        OperandText::Fixed(text) => Piece { text, at: 0 },
    }
}

fn is_written(text: OperandText) -> bool
    ensures { result ≡ is_written (operand_text text) }
{
    matches!(text, OperandText::Written)
}

fn emulated_of<'a>(
    core: CoreText,
    suffix: Option<Width>,
    operand: Piece<'a>,
) -> Option<Statement<'a>>
    ensures { option_map statement_meaning result ≡ emulated_of (core_text_of core) suffix (located operand.entry) }
{
    if suffix.is_some() && !is_written(core.destination) {
        return None;
    }
    two_of(
        core.op,
        suffix,
        place(core.source, operand),
        place(core.destination, operand),
    )
}

#[tactic(auto, unfolding(crate::specs::Lines::emulated))]
fn emulated<'a>(core: CoreText, suffix: Option<Width>, rest: Piece<'a>) -> Option<Statement<'a>>
    ensures { option_map statement_meaning result ≡ emulated (core_text_of core) suffix (located rest.entry) }
{
    if is_written(core.source) || is_written(core.destination) {
        emulated_of(core, suffix, only_word(rest)?)
    } else if is_blank_line(rest.text) {
        emulated_of(core, suffix, rest)
    } else {
        None
    }
}

fn org_of(value: Value<'_>) -> Option<Statement<'_>>
    ensures { option_map statement_meaning result ≡ org_of (meaning_of value.entry) }
{
    match value {
        Value::Number(_) | Value::OutOfRange(_) => Some(Statement::Org(value)),
        Value::Label(_) | Value::Here => None,
    }
}

ghost use Rattle.asm_line.specs.Lines.{org_of};
ghost use Rattle.asm_line.specs.ValueViews.{meaning_of};

#[tactic(auto, unfolding(crate::specs::Lines::plain_of))]
fn plain_of<'a>(name: &[u8], rest: Piece<'a>) -> Option<Statement<'a>>
    ensures { option_map statement_meaning result ≡ plain_of name.now (located rest.entry) }
{
    if name.eq_ignore_ascii_case(b"reti") {
        if !is_blank_line(rest.text) {
            return None;
        }
        Some(Statement::Instruction(Template {
            instr: Instr::Reti,
            source: None,
            destination: None,
        }))
    } else if name.eq_ignore_ascii_case(b".org") {
        org_of(word_value(rest)?)
    } else if name.eq_ignore_ascii_case(b".word") {
        Some(Statement::Words(word_list(rest)?))
    } else {
        None
    }
}

fn if_no_suffix<'a>(name: &[u8], suffix: Option<Width>, rest: Piece<'a>) -> Option<Statement<'a>>
    ensures { option_map statement_meaning result ≡ if_no_suffix name.now suffix (located rest.entry) }
{
    if suffix.is_some() {
        return None;
    }
    match condition_named(name) {
        Some(condition) => Some(Statement::Jump(condition, word_value(rest)?)),
        None => plain_of(name, rest),
    }
}

#[tactic(auto, unfolding(crate::specs::Lines::operation_of))]
fn operation_of<'a>(name: &[u8], suffix: Option<Width>, rest: Piece<'a>) -> Option<Statement<'a>>
    ensures { option_map statement_meaning result ≡ operation_of name.now suffix (located rest.entry) }
{
    if let Some(op) = two_named(name) {
        return two_words(op, suffix, rest);
    }
    if let Some(one) = one_named(name) {
        return one_of(one, suffix, only_word(rest)?);
    }
    if let Some(core) = emulated_named(name) {
        return emulated(core, suffix, rest);
    }
    if_no_suffix(name, suffix, rest)
}

#[tactic(auto, unfolding(crate::specs::Lines::statement_of))]
fn statement_of(piece: Piece<'_>) -> Option<Statement<'_>>
    ensures { option_map statement_meaning result ≡ statement_of (located piece.entry) }
{
    if piece.text.is_empty() {
        return Some(Statement::Nothing);
    }
    let (name, rest) = cut_word(piece);
    operation_of(base_name(name.text), suffix_of(name.text), rest)
}

fn with_label<'a>(label: Option<Piece<'a>>, text: Piece<'a>) -> Option<Line<'a>>
    ensures { option_map line_meaning result
        ≡ with_label (option_map located label.entry) (statement_of (located text.entry)) }
{
    match statement_of(text) {
        Some(statement) => Some(Line { label, statement }),
        None => None,
    }
}

fn labelled(text: Piece<'_>) -> Option<Line<'_>>
    ensures { option_map line_meaning result ≡ labelled (located text.entry) (behind_mark 58 (located text.entry)) }
{
    match cut_at(b':', text) {
        (_, None) => with_label(None, text),
        (label, Some(rest)) => {
            if is_label(label.text) {
                with_label(Some(label), without_blanks(rest))
            } else {
                None
            }
        }
    }
}

/// What a line says; nothing where it is no line of an assembler text.
#[tactic(auto, unfolding(crate::specs::Lines::line_of))]
pub fn line_of(line: Piece<'_>) -> Option<Line<'_>>
    ensures { option_map line_meaning result ≡ line_of (located line.entry) }
{
    let (code, _) = cut_at(b';', line);
    labelled(without_blanks(code))
}
