//! The faults of a line, but for the places of its words.
ghost use Rattle.std.specs.Prelude.{◌≡◌, option_map};
ghost use Rattle.asm_line.specs.Pieces.{parts};
ghost use Rattle.asm_line.specs.Lines.{values_of};
ghost use Rattle.asm_line.specs.Views.{located};
ghost use Rattle.asm_line.specs.ValueViews.{meaning_of};
ghost use Rattle.asm_line.specs.LineViews.{statement_meaning, template_meaning, line_meaning};
ghost use Rattle.std.specs.Option.{option_to_list};
ghost use Rattle.msp_asm.specs.Labels.{label_at};
ghost use Rattle.msp_asm.specs.Program.{unknown_in, first_unknown, is_out_of_range, any_out_of_range, is_far, is_elsewhere, span_of, repeated_fault};
ghost use Rattle.msp_asm.specs.Program.{unknown_fault, fault_if, line_fault, values_in};

use crate::fault::AsmFault;
use crate::labels::{Labels, Place, place_of};
use crate::words::value_in;
use alp_text::Span;
use asm_line::{Line, Piece, Statement, Value, WordList, next_value, offset_to};

fn span_of(name: Piece<'_>) -> Span
    ensures { result ≡ span_of (located name.entry) }
{
    Span {
        from: name.at,
        to: name.at + name.text.len(),
    }
}

fn unknown_in<'a>(labels: &Labels<'a>, value: &Value<'a>) -> Option<Span>
    ensures { result ≡ option_map span_of (unknown_in (label_at labels.now) (meaning_of value.now)) }
{
    match value {
        Value::Label(name) => {
            if place_of(labels, name.text).is_none() {
                Some(span_of(*name))
            } else {
                None
            }
        }
        _ => None,
    }
}

fn first_unknown<'a>(labels: &Labels<'a>, words: &WordList<'a>) -> Option<Span>
    ensures { result
        ≡ option_map span_of (first_unknown (label_at labels.now) (values_of (parts 44 (located words.now.list)))) }
{
    let mut left = Some(words.list);
    while let Some(list) = left {
        let (value, rest) = next_value(list);
        if let Some(value) = value {
            if let Some(name) = unknown_in(labels, &value) {
                return Some(name);
            }
        }
        left = rest;
    }
    None
}

fn is_out_of_range(value: &Value<'_>) -> bool
    ensures { result ≡ is_out_of_range (meaning_of value.now) }
{
    matches!(value, Value::OutOfRange(_))
}

fn any_out_of_range(words: &WordList<'_>) -> bool
    ensures { result ≡ any_out_of_range (values_of (parts 44 (located words.now.list))) }
{
    let mut left = Some(words.list);
    while let Some(list) = left {
        let (value, rest) = next_value(list);
        if let Some(value) = value {
            if is_out_of_range(&value) {
                return true;
            }
        }
        left = rest;
    }
    false
}

fn unknown_operand<'a>(labels: &Labels<'a>, value: &Option<Value<'a>>) -> Option<Span>
    ensures { result
        ≡ option_map span_of (first_unknown (label_at labels.now) (option_to_list (option_map meaning_of value.now))) }
{
    match value {
        Some(value) => unknown_in(labels, value),
        None => None,
    }
}

fn is_operand_out_of_range(value: &Option<Value<'_>>) -> bool
    ensures { result ≡ any_out_of_range (option_to_list (option_map meaning_of value.now)) }
{
    match value {
        Some(value) => is_out_of_range(value),
        None => false,
    }
}

#[tactic(auto, using(crate::proofs::Firsts::unknown_joined))]
fn unknown_name<'a>(labels: &Labels<'a>, statement: &Statement<'a>) -> Option<Span>
    ensures { result
        ≡ option_map span_of (first_unknown (label_at labels.now) (values_in (statement_meaning statement.now))) }
{
    match statement {
        Statement::Nothing => None,
        Statement::Org(value) | Statement::Jump(_, value) => unknown_in(labels, value),
        Statement::Words(words) => first_unknown(labels, words),
        Statement::Instruction(template) => match unknown_operand(labels, &template.source) {
            Some(name) => Some(name),
            None => unknown_operand(labels, &template.destination),
        },
    }
}

#[tactic(auto, using(crate::proofs::Firsts::any_joined))]
fn has_out_of_range(statement: &Statement<'_>) -> bool
    ensures { result ≡ any_out_of_range (values_in (statement_meaning statement.now)) }
{
    match statement {
        Statement::Nothing => false,
        Statement::Org(value) | Statement::Jump(_, value) => is_out_of_range(value),
        Statement::Words(words) => any_out_of_range(words),
        Statement::Instruction(template) => {
            is_operand_out_of_range(&template.source)
                || is_operand_out_of_range(&template.destination)
        }
    }
}

fn is_far<'a>(labels: &Labels<'a>, address: u16, statement: &Statement<'a>) -> bool
    ensures { result ≡ is_far (label_at labels.now) address (statement_meaning statement.now) }
{
    match statement {
        Statement::Jump(_, value) => {
            offset_to(address, value_in(labels, address, *value)).is_none()
        }
        _ => false,
    }
}

fn is_elsewhere(line: u32, place: Option<Place>) -> bool
    ensures { result ≡ is_elsewhere line place }
{
    match place {
        Some(place) => place.line != line,
        None => false,
    }
}

fn repeated_fault<'a>(labels: &Labels<'a>, line: u32, label: &Option<Piece<'a>>) -> Option<AsmFault>
    ensures { result ≡ repeated_fault (label_at labels.now) line (option_map located label.now) }
{
    match label {
        Some(name) if is_elsewhere(line, place_of(labels, name.text)) => {
            Some(AsmFault::RepeatedName {
                line,
                name: span_of(*name),
            })
        }
        _ => None,
    }
}

/// The first fault of a line, but for the places of its words.
#[tactic(auto, unfolding(crate::specs::Program::line_fault))]
pub fn line_fault<'a>(
    labels: &Labels<'a>,
    line: u32,
    address: u16,
    meaning: &Line<'a>,
) -> Option<AsmFault>
    ensures { result ≡ line_fault (label_at labels.now) line address (line_meaning meaning.now) }
{
    if let Some(fault) = repeated_fault(labels, line, &meaning.label) {
        Some(fault)
    } else if let Some(name) = unknown_name(labels, &meaning.statement) {
        Some(AsmFault::UnknownName { line, name })
    } else if has_out_of_range(&meaning.statement) {
        Some(AsmFault::OutOfRange { line })
    } else if is_far(labels, address, &meaning.statement) {
        Some(AsmFault::JumpTooFar { line })
    } else {
        None
    }
}
