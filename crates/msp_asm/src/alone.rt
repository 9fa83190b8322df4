//! Lines that need no label.
ghost use Rattle.std.specs.Prelude.{◌≡◌, option_map};
ghost use Rattle.asm_line.specs.ValueViews.{meaning_of};
ghost use Rattle.asm_line.specs.LineViews.{statement_meaning, template_meaning, line_meaning};
ghost use Rattle.asm_line.specs.Numbers.{◌>>?◌};
ghost use Rattle.asm_line.specs.Lines.{instruction};
ghost use Rattle.asm_line.specs.Views.{located};
ghost use Rattle.msp_asm.specs.Alone.{plain_value, plain_operand, statement_alone, meaning_alone, line_alone};

use arrayvec::ArrayVec;
use asm_line::{Line, Piece, Statement, Template, Value, fill, line_of, offset_to};
use msp_encode::encode;
use msp_isa::{Condition, Instr};

fn plain_value(value: &Value<'_>) -> Option<u16>
    ensures { result ≡ plain_value (meaning_of value.now) }
{
    match value {
        Value::Number(n) => Some(*n),
        _ => None,
    }
}

fn plain_operand(value: &Option<Value<'_>>) -> Option<u16>
    ensures { result ≡ plain_operand (option_map meaning_of value.now) }
{
    match value {
        Some(value) => plain_value(value),
        None => Some(0),
    }
}

fn template_alone(address: u16, template: &Template<'_>) -> Option<ArrayVec<u16, 3>>
    ensures { option_map (λ v. v.items) result ≡ statement_alone address (instruction (template_meaning template.now)) }
{
    let source = plain_operand(&template.source)?;
    let destination = plain_operand(&template.destination)?;
    Some(encode(&fill(address, source, destination, template.instr)))
}

fn jump_alone(address: u16, condition: Condition, value: &Value<'_>) -> Option<ArrayVec<u16, 3>>
    ensures { option_map (λ v. v.items) result ≡ statement_alone address (jump condition (meaning_of value.now)) }
{
    let target = plain_value(value)?;
    let offset = offset_to(address, target)?;
    Some(encode(&Instr::Jump { condition, offset }))
}

ghost use Rattle.asm_line.specs.Lines.{jump};

fn statement_alone(address: u16, statement: &Statement<'_>) -> Option<ArrayVec<u16, 3>>
    ensures { option_map (λ v. v.items) result ≡ statement_alone address (statement_meaning statement.now) }
{
    match statement {
        Statement::Jump(condition, value) => jump_alone(address, *condition, value),
        Statement::Instruction(template) => template_alone(address, template),
        _ => None,
    }
}

fn meaning_alone(address: u16, line: &Line<'_>) -> Option<ArrayVec<u16, 3>>
    ensures { option_map (λ v. v.items) result ≡ meaning_alone address (line_meaning line.now) }
{
    if line.label.is_some() {
        return None;
    }
    statement_alone(address, &line.statement)
}

/// The words of a line with an instruction at an address, with no label of its own and none that it names.
#[tactic(auto, unfolding(crate::specs::Alone::line_alone))]
pub fn line_alone(address: u16, text: &[u8]) -> Option<ArrayVec<u16, 3>>
    ensures { option_map (λ v. v.items) result ≡ line_alone address text.now }
{
    match line_of(Piece { text, at: 0 }) {
        Some(line) => meaning_alone(address, &line),
        None => None,
    }
}
