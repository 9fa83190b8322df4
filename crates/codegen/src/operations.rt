//! The code of the operations.

ghost use Rattle.std.specs.Prelude.{◌≡◌, [], ◌∷◌, ◌++◌, OnOk, Some};
ghost use Rattle.word_code.specs.array_versions.declared.operations.BinaryOperation.TheVariants as binary_op;
ghost use Rattle.word_code.specs.array_versions.Program as value;
ghost use Rattle.word_code.specs.Code.{unary_middle, binary_middle, binary_result, divide_middle, plain_instruction, step_code, waiting_behind};
ghost use Rattle.word_code.specs.Code.{below_top, kept, two_to_registers, two_code, power_code};
ghost use Rattle.word_code.specs.declared.waiting.Waiting.TheVariants as words;

use crate::shifts::emit_shift;
use crate::waiting::{
    emit_sides, emit_top_to_five, emit_two_to_registers, mask_top, take, top_power, wait,
};
use array_versions::{BinaryOperation, PlainOperation, ShiftOperation, UnaryOperation};
use std::alloc::AllocError;
use word_code::Waiting;
use word_code::forms::Form::{Calculate, Modify, Move};
use word_code::forms::Source::{Constant, Number, Register};
use word_code::forms::Target::ToRegister;
use word_code::forms::WorkRegister::{R4, R5, R6, R7};
use word_code::forms::{Condition, Form, Konst, Modification, TwoOp, jump};

// An operation on R5, its result in R4.
fn emit_unary_middle(operation: UnaryOperation, code: &mut Vec<Form>) -> Result<(), AllocError>
    ensures { OnOk result (code.new.items ≡ code.old.items ++ unary_middle operation) }
{
    match operation {
        UnaryOperation::Negate => code.extend_from_slice(&[
            Move(Constant(Konst::Zero), ToRegister(R4)),
            Calculate(TwoOp::Sub, Register(R5), R4),
        ]),
        UnaryOperation::Complement => code.extend_from_slice(&[
            Move(Constant(Konst::MinusOne), ToRegister(R4)),
            Calculate(TwoOp::Sub, Register(R5), R4),
        ]),
    }
}

/// Appends the code of an operation on the top of the stack.
#[tactic(auto, using(std::proofs::Common::append_assoc))]
pub fn emit_unary(
    operation: UnaryOperation,
    waiting: &mut Vec<Waiting>,
    code: &mut Vec<Form>,
) -> Result<(), AllocError>
    ensures code { OnOk result (code.new.items ≡ code.old.items ++ step_code [] waiting.old.items (value.unary operation)) }
    ensures waiting { OnOk result (waiting.new.items ≡ waiting_behind waiting.old.items (value.unary operation)) }
{
    emit_top_to_five(waiting, code)?;
    emit_unary_middle(operation, code)?;
    wait(Waiting::R4, waiting)
}

/// The instruction of an operation.
pub fn plain_instruction(operation: PlainOperation) -> TwoOp
    ensures { result ≡ plain_instruction operation }
{
    match operation {
        PlainOperation::Add => TwoOp::Add,
        PlainOperation::Subtract => TwoOp::Sub,
        PlainOperation::And => TwoOp::And,
        PlainOperation::Xor => TwoOp::Xor,
        PlainOperation::Or => TwoOp::Bis,
    }
}

fn emit_multiply(code: &mut Vec<Form>) -> Result<(), AllocError>
    ensures { OnOk result (code.new.items ≡ code.old.items ++ binary_middle binary_op.Multiply) }
{
    code.extend_from_slice(&[
        Move(Constant(Konst::Zero), ToRegister(R6)),
        Calculate(TwoOp::Bit, Constant(Konst::One), R5),
        jump(Condition::Equal, 1),
        Calculate(TwoOp::Add, Register(R4), R6),
        Calculate(TwoOp::Add, Register(R4), R4),
        Calculate(TwoOp::Bit, Constant(Konst::Zero), R5),
        Modify(Modification::Rrc, R5),
        jump(Condition::NotEqual, 1017),
    ])
}

// Division: the quotient is in R4 then, and the rest in R6.
fn emit_divide(code: &mut Vec<Form>) -> Result<(), AllocError>
    ensures { OnOk result (code.new.items ≡ code.old.items ++ divide_middle) }
{
    code.extend_from_slice(&[
        Move(Constant(Konst::Zero), ToRegister(R6)),
        Move(Number(16), ToRegister(R7)),
        Calculate(TwoOp::Add, Register(R4), R4),
        Calculate(TwoOp::Addc, Register(R6), R6),
        jump(Condition::Carry, 2),
        Calculate(TwoOp::Cmp, Register(R5), R6),
        jump(Condition::NoCarry, 2),
        Calculate(TwoOp::Sub, Register(R5), R6),
        Calculate(TwoOp::Add, Constant(Konst::One), R4),
        Calculate(TwoOp::Sub, Constant(Konst::One), R7),
        jump(Condition::NotEqual, 1015),
    ])
}

// An operation on two words that the machine has an instruction for.
#[tactic(auto, using(std::proofs::Common::append_assoc))]
fn emit_plain(
    operation: PlainOperation,
    waiting: &mut Vec<Waiting>,
    code: &mut Vec<Form>,
) -> Result<(), AllocError>
    ensures code { OnOk result (code.new.items ≡ code.old.items ++ two_code waiting.old.items (binary_op.Plain operation)) }
    ensures waiting { OnOk result (waiting.new.items ≡ words.R4 ∷ kept (below_top (below_top waiting.old.items))) }
{
    let source = emit_sides(waiting, code)?;
    code.extend_from_slice(&[Calculate(plain_instruction(operation), source, R4)])?;
    wait(Waiting::R4, waiting)
}

// A product.
#[tactic(auto, using(std::proofs::Common::append_assoc))]
fn emit_product(waiting: &mut Vec<Waiting>, code: &mut Vec<Form>) -> Result<(), AllocError>
    ensures code { OnOk result (code.new.items ≡ code.old.items ++ two_code waiting.old.items binary_op.Multiply) }
    ensures waiting { OnOk result (waiting.new.items ≡ words.R6 ∷ kept (below_top (below_top waiting.old.items))) }
{
    emit_two_to_registers(waiting, code)?;
    emit_multiply(code)?;
    wait(Waiting::R6, waiting)
}

// A division, whose quotient is in R4 and whose rest is in R6.
#[tactic(auto, using(std::proofs::Common::append_assoc))]
fn emit_division(
    quantity: Waiting,
    waiting: &mut Vec<Waiting>,
    code: &mut Vec<Form>,
) -> Result<(), AllocError>
    ensures code { OnOk result (code.new.items ≡ code.old.items ++ (two_to_registers waiting.old.items ++ divide_middle)) }
    ensures waiting { OnOk result (waiting.new.items ≡ quantity ∷ kept (below_top (below_top waiting.old.items))) }
{
    emit_two_to_registers(waiting, code)?;
    emit_divide(code)?;
    wait(quantity, waiting)
}

// An operation whose right side is no power of two that is known.
fn emit_two(
    operation: BinaryOperation,
    waiting: &mut Vec<Waiting>,
    code: &mut Vec<Form>,
) -> Result<(), AllocError>
    ensures code { OnOk result (code.new.items ≡ code.old.items ++ two_code waiting.old.items operation) }
    ensures waiting { OnOk result (waiting.new.items ≡ binary_result operation ∷ kept (below_top (below_top waiting.old.items))) }
{
    match operation {
        BinaryOperation::Plain(operation) => emit_plain(operation, waiting, code),
        BinaryOperation::Multiply => emit_product(waiting, code),
        BinaryOperation::Divide => emit_division(Waiting::R4, waiting, code),
        BinaryOperation::Remainder => emit_division(Waiting::R6, waiting, code),
    }
}

// An operation by the number on top, a power of two of this exponent.
fn emit_by_power(
    operation: BinaryOperation,
    count: u16,
    waiting: &mut Vec<Waiting>,
    code: &mut Vec<Form>,
) -> Result<(), AllocError>
    ensures code { OnOk result (code.new.items ≡ code.old.items ++ power_code (Some count) waiting.old.items operation) }
    ensures waiting { OnOk result (waiting.new.items ≡ words.R4 ∷ kept (below_top (below_top waiting.old.items))) }
{
    match operation {
        BinaryOperation::Plain(operation) => emit_plain(operation, waiting, code),
        BinaryOperation::Multiply => {
            take(waiting);
            emit_shift(ShiftOperation::Left, count, waiting, code)
        }
        BinaryOperation::Divide => {
            take(waiting);
            emit_shift(ShiftOperation::Right, count, waiting, code)
        }
        BinaryOperation::Remainder => {
            mask_top(waiting)?;
            emit_plain(PlainOperation::And, waiting, code)
        }
    }
}

/// Appends the code of an operation on the two words on top of the stack.
pub fn emit_binary(
    operation: BinaryOperation,
    waiting: &mut Vec<Waiting>,
    code: &mut Vec<Form>,
) -> Result<(), AllocError>
    ensures code { OnOk result (code.new.items ≡ code.old.items ++ step_code [] waiting.old.items (value.binary operation)) }
    ensures waiting { OnOk result (waiting.new.items ≡ waiting_behind waiting.old.items (value.binary operation)) }
{
    match top_power(waiting) {
        Some(count) => emit_by_power(operation, count, waiting, code),
        None => emit_two(operation, waiting, code),
    }
}
