//! What lines come to under the labels: their addresses and their words.
ghost use Rattle.std.specs.Prelude.{◌≡◌, ◌++◌, [], OnOk, option_map, map};
ghost use Rattle.asm_line.specs.Pieces.{parts};
ghost use Rattle.asm_line.specs.Lines.{values_of};
ghost use Rattle.asm_line.specs.Filling.{offset_to};
ghost use Rattle.asm_line.specs.Views.{located};
ghost use Rattle.asm_line.specs.ValueViews.{meaning_of};
ghost use Rattle.asm_line.specs.LineViews.{statement_meaning, template_meaning};
ghost use Rattle.msp_isa.specs.Encoding.{encoding};
ghost use Rattle.asm_line.specs.Filling.{fill};
ghost use Rattle.msp_asm.specs.Labels.{label_at};
ghost use Rattle.msp_asm.specs.Program.{org_address, after, value_in, operand_in, items, jump_words, line_words};

use crate::labels::{Labels, place_of};
use asm_line::{Statement, Template, Value, WordList, fill, next_value, offset_to};
use msp_encode::encode;
use msp_isa::{Condition, Instr};
use std::alloc::AllocError;

fn org_address(value: Value<'_>, address: u16) -> u16
    ensures { result ≡ org_address (meaning_of value.entry) address }
{
    match value {
        Value::Number(n) | Value::OutOfRange(n) => n,
        Value::Label(_) | Value::Here => address,
    }
}

fn words_on(address: u16, words: usize) -> u16
    ensures { result ≡ (address + 2 * words) % 65536 }
{
    ((address as usize + 2 * (words % 65536)) % 65536) as u16
}

ghost use Rattle.std.specs.Prelude.{◌+◌, ◌*◌, ◌%◌};

/// The address behind a statement.
pub fn after(address: u16, statement: &Statement<'_>) -> u16
    ensures { result ≡ after address (statement_meaning statement.now) }
{
    match statement {
        Statement::Nothing => address,
        Statement::Org(value) => org_address(*value, address),
        Statement::Words(words) => words_on(address, words.count),
        Statement::Jump(_, _) => address.wrapping_add(2),
        Statement::Instruction(template) => words_on(address, template.instr.words()),
    }
}

/// What a value is worth in the item at an address; 0 for a label that stands nowhere.
pub fn value_in<'a>(labels: &Labels<'a>, address: u16, value: Value<'a>) -> u16
    ensures { result ≡ value_in (label_at labels.now) address (meaning_of value.entry) }
{
    match value {
        Value::Number(n) | Value::OutOfRange(n) => n,
        Value::Here => address,
        Value::Label(name) => match place_of(labels, name.text) {
            Some(place) => place.address,
            None => 0,
        },
    }
}

fn operand_in<'a>(labels: &Labels<'a>, address: u16, value: &Option<Value<'a>>) -> u16
    ensures { result ≡ operand_in (label_at labels.now) address (option_map meaning_of value.now) }
{
    match value {
        Some(value) => value_in(labels, address, *value),
        None => 0,
    }
}

#[tactic(auto, unfolding(crate::specs::Program::items))]
fn push_items<'a>(
    labels: &Labels<'a>,
    address: u16,
    words: &WordList<'a>,
    out: &mut Vec<u16>,
) -> Result<(), AllocError>
    ensures { OnOk result (out.new.items
        ≡ out.old.items ++ items (label_at labels.now) address (values_of (parts 44 (located words.now.list)))) }
{
    let mut at = address;
    let mut left = Some(words.list);
    while let Some(list) = left {
        let (value, rest) = next_value(list);
        if let Some(value) = value {
            out.push(value_in(labels, at, value))?;
            at = at.wrapping_add(2);
        }
        left = rest;
    }
    Ok(())
}

fn push_jump(
    condition: Condition,
    address: u16,
    target: u16,
    out: &mut Vec<u16>,
) -> Result<(), AllocError>
    ensures { OnOk result (out.new.items ≡ out.old.items ++ jump_words condition (offset_to address target)) }
{
    match offset_to(address, target) {
        Some(offset) => {
            out.extend_from_slice(encode(&Instr::Jump { condition, offset }).as_slice())?;
            Ok(())
        }
        None => Ok(()),
    }
}

fn filled<'a>(labels: &Labels<'a>, address: u16, template: &Template<'a>) -> Instr
    ensures { result ≡ fill address (operand_in (label_at labels.now) address (template_meaning template.now).source)
        (operand_in (label_at labels.now) address (template_meaning template.now).destination) template.now.instr }
{
    let source = operand_in(labels, address, &template.source);
    let destination = operand_in(labels, address, &template.destination);
    fill(address, source, destination, template.instr)
}

/// Puts the words of a statement at an address behind others.
#[tactic(auto, unfolding(crate::specs::Program::line_words))]
pub fn push_words<'a>(
    labels: &Labels<'a>,
    address: u16,
    statement: &Statement<'a>,
    out: &mut Vec<u16>,
) -> Result<(), AllocError>
    ensures { OnOk result (out.new.items
        ≡ out.old.items ++ line_words (label_at labels.now) address (statement_meaning statement.now)) }
{
    match statement {
        Statement::Nothing | Statement::Org(_) => Ok(()),
        Statement::Words(words) => push_items(labels, address, words, out),
        Statement::Jump(condition, value) => {
            push_jump(*condition, address, value_in(labels, address, *value), out)
        }
        Statement::Instruction(template) => {
            let instr = filled(labels, address, template);
            out.extend_from_slice(encode(&instr).as_slice())?;
            Ok(())
        }
    }
}
