//! The code of the shifts.

ghost use Rattle.std.specs.Prelude.{◌≡◌, [], ◌∷◌, ◌++◌, OnOk};
ghost use Rattle.word_code.specs.code_forms.Forms as form;
ghost use Rattle.word_code.specs.code_forms.instruction_forms.declared.kinds.Modification.TheVariants as change;
ghost use Rattle.word_code.specs.array_versions.declared.operations.ShiftOperation.TheVariants as shift_op;
ghost use Rattle.word_code.specs.Code.{repeated, times_code, double, halve, right_code, shift_by, last_bit, shift_middle, step_code, waiting_behind};
ghost use Rattle.word_code.specs.array_versions.Program as value;

use crate::waiting::{emit_top_to_four, wait};
use array_versions::ShiftOperation;
use std::alloc::AllocError;
use word_code::Waiting;
use word_code::forms::Form::{Calculate, Modify, Move};
use word_code::forms::Source::{Constant, Number, Register};
use word_code::forms::Target::ToRegister;
use word_code::forms::WorkRegister::R4;
use word_code::forms::{Form, Konst, Modification, TwoOp};

/// Appends forms so many times.
pub fn emit_times(count: u16, forms: &[Form], code: &mut Vec<Form>) -> Result<(), AllocError>
    ensures { OnOk result (code.new.items ≡ code.old.items ++ times_code count forms.now) }
{
    for i in 0..count {
        code.extend_from_slice(forms)?;
    }
    Ok(())
}

// R4 doubled so many times.
#[tactic(auto, using(crate::proofs::Emitted::times_one))]
fn emit_doubles(count: u16, code: &mut Vec<Form>) -> Result<(), AllocError>
    ensures { OnOk result (code.new.items ≡ code.old.items ++ repeated count double) }
{
    emit_times(count, &[Calculate(TwoOp::Add, Register(R4), R4)], code)
}

// R4 halved so many times, its sign kept.
#[tactic(auto, using(crate::proofs::Emitted::times_one))]
fn emit_halves(count: u16, code: &mut Vec<Form>) -> Result<(), AllocError>
    ensures { OnOk result (code.new.items ≡ code.old.items ++ repeated count halve) }
{
    emit_times(count, &[Modify(Modification::Rra, R4)], code)
}

// To the right by fewer than 8 bits.
fn emit_right(count: u16, code: &mut Vec<Form>) -> Result<(), AllocError>
    ensures { OnOk result (code.new.items ≡ code.old.items ++ right_code count) }
{
    if count == 0 {
        return Ok(());
    }
    code.extend_from_slice(&[
        Calculate(TwoOp::Bit, Constant(Konst::Zero), R4),
        Modify(Modification::Rrc, R4),
    ])?;
    emit_halves(count - 1, code)
}

// The bytes of R4 exchanged, and then a form.
fn emit_exchange(then: Form, code: &mut Vec<Form>) -> Result<(), AllocError>
    ensures { OnOk result (code.new.items ≡ code.old.items ++ form.Modify change.Swpb form.R4 ∷ then ∷ []) }
{
    code.extend_from_slice(&[Modify(Modification::Swpb, R4), then])
}

fn emit_left_by(count: u16, code: &mut Vec<Form>) -> Result<(), AllocError>
    ensures { OnOk result (code.new.items ≡ code.old.items ++ shift_by shift_op.Left count) }
{
    if count < 8 {
        emit_doubles(count, code)
    } else {
        emit_exchange(Calculate(TwoOp::And, Number(0xff00), R4), code)?;
        emit_doubles(count - 8, code)
    }
}

fn emit_right_by(count: u16, code: &mut Vec<Form>) -> Result<(), AllocError>
    ensures { OnOk result (code.new.items ≡ code.old.items ++ shift_by shift_op.Right count) }
{
    if count < 8 {
        emit_right(count, code)
    } else {
        emit_exchange(Calculate(TwoOp::And, Number(0xff), R4), code)?;
        emit_halves(count - 8, code)
    }
}

fn emit_signed_right_by(count: u16, code: &mut Vec<Form>) -> Result<(), AllocError>
    ensures { OnOk result (code.new.items ≡ code.old.items ++ shift_by shift_op.SignedRight count) }
{
    if count < 8 {
        emit_halves(count, code)
    } else {
        emit_exchange(Modify(Modification::Sxt, R4), code)?;
        emit_halves(count - 8, code)
    }
}

// By 15 bits: the one that is left goes through the carry.
fn emit_last_bit(operation: ShiftOperation, code: &mut Vec<Form>) -> Result<(), AllocError>
    ensures { OnOk result (code.new.items ≡ code.old.items ++ last_bit operation) }
{
    let zero = Move(Constant(Konst::Zero), ToRegister(R4));
    match operation {
        ShiftOperation::Left => code.extend_from_slice(&[
            Modify(Modification::Rra, R4),
            zero,
            Modify(Modification::Rrc, R4),
        ]),
        ShiftOperation::Right => code.extend_from_slice(&[
            Calculate(TwoOp::Add, Register(R4), R4),
            zero,
            Calculate(TwoOp::Addc, Register(R4), R4),
        ]),
        ShiftOperation::SignedRight => code.extend_from_slice(&[
            Calculate(TwoOp::Add, Register(R4), R4),
            Calculate(TwoOp::Subc, Register(R4), R4),
            Calculate(TwoOp::Xor, Constant(Konst::MinusOne), R4),
        ]),
    }
}

/// Appends the shift of R4.
pub fn emit_shift_middle(
    operation: ShiftOperation,
    count: u16,
    code: &mut Vec<Form>,
) -> Result<(), AllocError>
    ensures { OnOk result (code.new.items ≡ code.old.items ++ shift_middle operation count) }
{
    if count > 15 {
        return code.extend_from_slice(&[Move(Constant(Konst::Zero), ToRegister(R4))]);
    }
    if count == 15 {
        return emit_last_bit(operation, code);
    }
    match operation {
        ShiftOperation::Left => emit_left_by(count, code),
        ShiftOperation::Right => emit_right_by(count, code),
        ShiftOperation::SignedRight => emit_signed_right_by(count, code),
    }
}

/// Appends the code of a shift of the top of the stack.
#[tactic(auto, using(std::proofs::Common::append_assoc))]
pub fn emit_shift(
    operation: ShiftOperation,
    count: u16,
    waiting: &mut Vec<Waiting>,
    code: &mut Vec<Form>,
) -> Result<(), AllocError>
    ensures code { OnOk result (code.new.items ≡ code.old.items ++ step_code [] waiting.old.items (value.shift operation count)) }
    ensures waiting { OnOk result (waiting.new.items ≡ waiting_behind waiting.old.items (value.shift operation count)) }
{
    emit_top_to_four(waiting, code)?;
    emit_shift_middle(operation, count, code)?;
    wait(Waiting::R4, waiting)
}
