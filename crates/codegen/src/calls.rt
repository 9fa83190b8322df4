//! The code of calls and of what a function gives.

ghost use Rattle.std.specs.Prelude.{◌≡◌, [], ◌∷◌, ◌++◌, OnOk};
ghost use Rattle.word_code.specs.array_versions.Program as value;
ghost use Rattle.word_code.specs.array_versions.Form.{StepOfWords};
ghost use Rattle.word_code.specs.Code.{step_code, waiting_behind, values_code, below_words, light_call, frame_code, framed_call};

use crate::forms::{register_behind, target_behind};
use crate::waiting::{emit_all, emit_to_four, source_from, take, wait};
use std::alloc::AllocError;
use word_code::Waiting;
use word_code::forms::Form;
use word_code::forms::Form::{Call, KeepStack, Move, Push, RestoreStack, Return, SetStack};
use word_code::forms::Source::{Register, StackNext};
use word_code::forms::Target::ToRegister;
use word_code::forms::WorkRegister::R4;

// Takes so many words from the top to registers of locals, the top to the last.
fn emit_values(
    first: u16,
    count: u16,
    waiting: &mut Vec<Waiting>,
    code: &mut Vec<Form>,
) -> Result<(), AllocError>
    ensures code { OnOk result (code.new.items ≡ code.old.items ++ values_code first count waiting.old.items) }
    ensures waiting { OnOk result (waiting.new.items ≡ below_words count waiting.old.items) }
{
    for i in 0..count {
        let source = source_from(take(waiting));
        let register = register_behind(first, count - 1 - i);
        code.extend_from_slice(&[Move(source, ToRegister(register))])?;
    }
    Ok(())
}

// The call of a function whose locals stand in registers.
#[tactic(auto, using(std::proofs::Common::append_assoc))]
fn emit_light(
    entry: u16,
    first: u16,
    count: u16,
    waiting: &mut Vec<Waiting>,
    code: &mut Vec<Form>,
) -> Result<(), AllocError>
    ensures code { OnOk result (code.new.items ≡ code.old.items ++ light_call entry first count waiting.old.items) }
    ensures waiting { OnOk result (waiting.new.items ≡ []) }
{
    emit_values(first, count, waiting, code)?;
    emit_all(waiting, code)?;
    code.extend_from_slice(&[Call(entry)])
}

// Moves so many words of the stack, from R4's address on, to locals, the first to the last.
fn emit_moves(first: u16, count: u16, code: &mut Vec<Form>) -> Result<(), AllocError>
    ensures { OnOk result (code.new.items ≡ code.old.items ++ frame_code first count) }
{
    for i in 0..count {
        let target = target_behind(first, count - 1 - i);
        code.extend_from_slice(&[Move(StackNext(R4), target)])?;
    }
    Ok(())
}

// The call of a function with locals in RAM, from its frame on.
#[tactic(auto, using(std::proofs::Common::append_assoc))]
fn emit_framed(
    entry: u16,
    frame: u16,
    first: u16,
    count: u16,
    waiting: &mut Vec<Waiting>,
    code: &mut Vec<Form>,
) -> Result<(), AllocError>
    ensures code { OnOk result (code.new.items ≡ code.old.items ++ framed_call entry frame first count waiting.old.items) }
    ensures waiting { OnOk result (waiting.new.items ≡ []) }
{
    emit_all(waiting, code)?;
    code.extend_from_slice(&[KeepStack(R4), SetStack(frame)])?;
    emit_moves(first, count, code)?;
    code.extend_from_slice(&[Push(Register(R4)), Call(entry), RestoreStack])
}

/// Appends the code of a call.
pub fn emit_call(
    entry: u16,
    frame: Option<u16>,
    first: u16,
    count: u16,
    waiting: &mut Vec<Waiting>,
    code: &mut Vec<Form>,
) -> Result<(), AllocError>
    ensures code { OnOk result (code.new.items
        ≡ code.old.items ++ step_code [] waiting.old.items (value.call entry frame first count value.nothing)) }
    ensures waiting { OnOk result (waiting.new.items ≡ waiting_behind waiting.old.items (value.call entry frame first count value.nothing)) }
    ensures of_words { StepOfWords (value.call entry frame first count value.nothing) }
{
    match frame {
        None => {
            emit_light(entry, first, count, waiting, code)?;
            wait(Waiting::R4, waiting)
        }
        Some(frame) => {
            emit_framed(entry, frame, first, count, waiting, code)?;
            wait(Waiting::R4, waiting)
        }
    }
}

/// Appends the code with which a function gives the top.
#[tactic(auto, using(std::proofs::Common::append_assoc))]
pub fn emit_give(waiting: &mut Vec<Waiting>, code: &mut Vec<Form>) -> Result<(), AllocError>
    ensures code { OnOk result (code.new.items ≡ code.old.items ++ step_code [] waiting.old.items value.give) }
    ensures waiting { OnOk result (waiting.new.items ≡ []) }
{
    let top = take(waiting);
    emit_to_four(top, code)?;
    waiting.clear();
    code.extend_from_slice(&[Return])
}
