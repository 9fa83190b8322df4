//! Where code goes on.

ghost use Rattle.std.specs.Prelude.{◌≡◌, ◌≤◌, ◌*◌, ◌∷◌, ◌++◌, OnOk, IfOk};
ghost use Rattle.word_code.specs.msp_isa.declared.instructions.TwoOp.TheVariants as two_op;
ghost use Rattle.word_code.specs.msp_isa.declared.instructions.Condition.TheVariants as conditions;
ghost use Rattle.word_code.specs.msp_isa.declared.operands.Konst.TheVariants as constants;
ghost use Rattle.word_code.specs.code_forms.Forms as form;
ghost use Rattle.word_code.specs.Code.{top_of, below_top, kept, compare_form, is_turned, compare_sides, compare_source, holding, failing, jump_over};
ghost use Rattle.word_code.specs.Code.{size, pass_over, jump_back, decision, holds_code, compares_code};

use crate::waiting::{emit_all, emit_sides, emit_top_to_four, emit_two_to_registers};
use array_versions::Comparison;
use std::alloc::AllocError;
use word_code::Waiting;
use word_code::forms::Form::{Calculate, Skip};
use word_code::forms::Source::{Constant, Register};
use word_code::forms::WorkRegister::{R4, R5};
use word_code::forms::{Condition, Form, Konst, Source, TwoOp, form_words, jump};

// Whether a comparison is of R5, the right side, with the left one.
fn is_turned(comparison: Comparison) -> bool
    ensures { result ≡ is_turned comparison }
{
    match comparison {
        Comparison::Above | Comparison::SignedAbove => true,
        Comparison::Equal | Comparison::Below => false,
        Comparison::SignedBelow | Comparison::CommonBit => false,
    }
}

// The comparison of R4 with the right side, or of R5 with R4.
fn compare(comparison: Comparison, right: Source) -> Form
    ensures { result ≡ compare_form comparison right }
{
    match comparison {
        Comparison::Equal | Comparison::Below | Comparison::SignedBelow => {
            Calculate(TwoOp::Cmp, right, R4)
        }
        Comparison::Above | Comparison::SignedAbove => Calculate(TwoOp::Cmp, Register(R4), R5),
        Comparison::CommonBit => Calculate(TwoOp::Bit, right, R4),
    }
}

// The condition that its flags meet where it holds.
fn holding(comparison: Comparison) -> Condition
    ensures { result ≡ holding comparison }
{
    match comparison {
        Comparison::Equal => Condition::Equal,
        Comparison::Below | Comparison::Above => Condition::NoCarry,
        Comparison::SignedBelow | Comparison::SignedAbove => Condition::Less,
        Comparison::CommonBit => Condition::NotEqual,
    }
}

// The condition that they meet where it fails.
fn failing(comparison: Comparison) -> Condition
    ensures { result ≡ failing comparison }
{
    match comparison {
        Comparison::Equal => Condition::NotEqual,
        Comparison::Below | Comparison::Above => Condition::Carry,
        Comparison::SignedBelow | Comparison::SignedAbove => Condition::GreaterOrEqual,
        Comparison::CommonBit => Condition::Equal,
    }
}

/// The words of code, of fewer than 0x8000.
pub fn code_words(code: &[Form]) -> u16
    requires { size code.now ≤ 0x7FFF }
    ensures { result ≡ size code.now }
{
    let mut words = 0;
    for form in code {
        words += form_words(form);
    }
    words
}

// Over so many words where a condition is met, else on; the opposite one is met where it isn't.
fn emit_jump_over(
    met: Condition,
    opposite: Condition,
    over: u16,
    code: &mut Vec<Form>,
) -> Result<(), AllocError>
    requires { 2 * over ≤ 0xFFFE }
    ensures { OnOk result (code.new.items ≡ code.old.items ++ jump_over met opposite over) }
{
    if over <= 511 {
        code.extend_from_slice(&[jump(met, over)])
    } else {
        code.extend_from_slice(&[jump(opposite, 2), Skip(2 * over)])
    }
}

/// Appends the code that goes over so many words.
pub fn emit_pass_over(over: u16, code: &mut Vec<Form>) -> Result<(), AllocError>
    requires { 2 * over ≤ 0xFFFE }
    ensures { OnOk result (code.new.items ≡ code.old.items ++ pass_over over) }
{
    if over == 0 {
        return Ok(());
    }
    if over <= 511 {
        code.extend_from_slice(&[jump(Condition::Always, over)])
    } else {
        code.extend_from_slice(&[Skip(2 * over)])
    }
}

/// Appends the code that goes back over so many words in front of it where a condition is met, else on; the opposite one is met
/// where it isn't.
pub fn emit_jump_back(
    met: Condition,
    opposite: Condition,
    over: u16,
    code: &mut Vec<Form>,
) -> Result<(), AllocError>
    requires { 2 * over ≤ 0xFFFA }
    ensures { OnOk result (code.new.items ≡ code.old.items ++ jump_back met opposite over) }
{
    if over <= 511 {
        code.extend_from_slice(&[jump(met, 1023 - over)])
    } else {
        code.extend_from_slice(&[jump(opposite, 2), Skip(0xfffa - 2 * over)])
    }
}

// Over so many words where what the flags tell is as the flag says, else on.
fn emit_decision(
    when: bool,
    over: u16,
    met: Condition,
    opposite: Condition,
    code: &mut Vec<Form>,
) -> Result<(), AllocError>
    requires { 2 * over ≤ 0xFFFE }
    ensures { OnOk result (code.new.items ≡ code.old.items ++ decision when over met opposite) }
{
    if when {
        emit_jump_over(met, opposite, over, code)
    } else {
        emit_jump_over(opposite, met, over, code)
    }
}

// The comparison of R4 with 0, and what goes over so many words by it.
fn emit_zero_test(when: bool, over: u16, code: &mut Vec<Form>) -> Result<(), AllocError>
    requires { 2 * over ≤ 0xFFFE }
    ensures { OnOk result (code.new.items ≡ code.old.items
        ++ (form.Calculate two_op.Cmp (form.Constant constants.Zero) form.R4 ∷ decision when over conditions.NotEqual conditions.Equal)) }
{
    code.extend_from_slice(&[Calculate(TwoOp::Cmp, Constant(Konst::Zero), R4)])?;
    emit_decision(when, over, Condition::NotEqual, Condition::Equal, code)
}

/// Appends the code that goes over so many words by whether the top isn't 0.
#[tactic(auto, using(std::proofs::Common::append_assoc))]
pub fn emit_holds(
    when: bool,
    over: u16,
    waiting: &mut Vec<Waiting>,
    code: &mut Vec<Form>,
) -> Result<(), AllocError>
    requires { 2 * over ≤ 0xFFFE }
    ensures { OnOk result (code.new.items ≡ code.old.items ++ holds_code waiting.old.items when over) }
{
    emit_top_to_four(waiting, code)?;
    emit_all(waiting, code)?;
    emit_zero_test(when, over, code)
}

// A comparison with the right side, and what goes over so many words by it.
fn emit_comparison(
    comparison: Comparison,
    right: Source,
    when: bool,
    over: u16,
    code: &mut Vec<Form>,
) -> Result<(), AllocError>
    requires { 2 * over ≤ 0xFFFE }
    ensures { OnOk result (code.new.items ≡ code.old.items
        ++ (compare_form comparison right ∷ decision when over (holding comparison) (failing comparison))) }
{
    code.extend_from_slice(&[compare(comparison, right)])?;
    emit_decision(when, over, holding(comparison), failing(comparison), code)
}

// Takes both sides of a comparison to where it reads them: the right one, as a source.
fn emit_compare_sides(
    comparison: Comparison,
    waiting: &mut Vec<Waiting>,
    code: &mut Vec<Form>,
) -> Result<Source, AllocError>
    ensures source { IfOk result (λ source. source ≡ compare_source comparison (top_of waiting.old.items)) }
    ensures code { OnOk result (code.new.items ≡ code.old.items ++ compare_sides comparison waiting.old.items) }
    ensures waiting { OnOk result (waiting.new.items ≡ kept (below_top (below_top waiting.old.items))) }
{
    if is_turned(comparison) {
        emit_two_to_registers(waiting, code)?;
        Ok(Register(R5))
    } else {
        emit_sides(waiting, code)
    }
}

/// Appends the code that goes over so many words by how the two words on top compare.
#[tactic(auto, using(std::proofs::Common::append_assoc))]
pub fn emit_compares(
    comparison: Comparison,
    when: bool,
    over: u16,
    waiting: &mut Vec<Waiting>,
    code: &mut Vec<Form>,
) -> Result<(), AllocError>
    requires { 2 * over ≤ 0xFFFE }
    ensures { OnOk result (code.new.items ≡ code.old.items ++ compares_code waiting.old.items comparison when over) }
{
    let right = emit_compare_sides(comparison, waiting, code)?;
    emit_all(waiting, code)?;
    emit_comparison(comparison, right, when, over, code)
}
