//! The code of operations with longs: on the stack the high word of a long is above its low one.

ghost use Rattle.std.specs.Prelude.{◌≡◌, ◌++◌, [], ◌≤◌, false, OnOk, IfOk};
ghost use Rattle.word_code.specs.code_forms.Forms as form;
ghost use Rattle.word_code.specs.array_versions.Form.{StepOfWords};
ghost use Rattle.word_code.specs.array_versions.Program as value;
ghost use Rattle.word_code.specs.array_versions.declared.operations.LongOperation.TheVariants as long_op;
ghost use Rattle.word_code.specs.Code as made;
ghost use Rattle.word_code.specs.Code.{top_of, below_top, below_two, in_six, parted, parting, six_from, four_from, pair_to_registers, kept, side_from};
ghost use Rattle.word_code.specs.Code.{side_source, long_sides, high_source, low_source, high_instruction, long_waits, longs_under, longs_lost};
ghost use Rattle.word_code.specs.Code.{times_code, long_double, long_halve, long_right_code, left_by, right_by, pair_lost, dropped, lifted};
ghost use Rattle.word_code.specs.Code.{high_code, high_behind, short_code, short_behind, left_code, left_behind, right_shift_code, right_behind};
ghost use Rattle.word_code.specs.Code.{long_code, long_behind, step_code, waiting_behind};

use crate::operations::plain_instruction;
use crate::shifts::{emit_shift_middle, emit_times};
use crate::waiting::{
    emit_all, emit_cleared, emit_to_four, emit_to_rest, emit_top_to_four, rest_source, rests,
    source_from, take, top, under_top, wait, waiting_source,
};
use array_versions::{LongOperation, PlainOperation, ShiftOperation};
use std::alloc::AllocError;
use word_code::Waiting;
use word_code::forms::Form::{Calculate, Modify, Move};
use word_code::forms::Source::{Constant, Number, Popped, Register};
use word_code::forms::Target::ToRegister;
use word_code::forms::WorkRegister::{R4, R5, R6, R7};
use word_code::forms::{Form, Konst, Modification, Source, TwoOp};

// Where the words of the right one of two longs are read.
#[derive(Clone, Copy)]
struct RightLong {
    low: Source,
    high: Source,
}

// ---- words to registers

// A word waits in R6.
fn in_six(word: Option<Waiting>) -> bool
    ensures { result ≡ in_six word }
{
    match word {
        Some(Waiting::R6) => true,
        None | Some(Waiting::Number(_) | Waiting::Fram(_) | Waiting::Local(_) | Waiting::R4) => {
            false
        }
    }
}

// The fourth word from the top, where all four wait.
fn fourth(waiting: &[Waiting]) -> Option<Waiting>
    ensures { result ≡ top_of (below_top (below_two waiting.now)) }
{
    waiting.get(3).copied()
}

// The high word of a long comes to R6 first: where its low one waits there all words are pushed.
fn emit_parted(
    lost: bool,
    waiting: &mut Vec<Waiting>,
    code: &mut Vec<Form>,
) -> Result<(), AllocError>
    ensures code { OnOk result (code.new.items ≡ code.old.items ++ parted lost waiting.old.items) }
    ensures waiting { OnOk result (waiting.new.items ≡ parting lost waiting.old.items) }
{
    if lost {
        emit_all(waiting, code)
    } else {
        Ok(())
    }
}

// A word, which is taken, to R6.
fn emit_to_six(word: Option<Waiting>, code: &mut Vec<Form>) -> Result<(), AllocError>
    ensures { OnOk result (code.new.items ≡ code.old.items ++ six_from word) }
{
    match word {
        None => code.extend_from_slice(&[Move(Popped, ToRegister(R6))]),
        Some(Waiting::R6) => Ok(()),
        Some(word) => code.extend_from_slice(&[Move(waiting_source(word), ToRegister(R6))]),
    }
}

// Both words of a long, which are taken, to R6 and R4.
fn emit_pair(
    high: Option<Waiting>,
    low: Option<Waiting>,
    code: &mut Vec<Form>,
) -> Result<(), AllocError>
    ensures { OnOk result (code.new.items ≡ code.old.items ++ (six_from high ++ four_from low)) }
{
    emit_to_six(high, code)?;
    emit_to_four(low, code)
}

// Takes the long on top to R6 and R4.
#[tactic(auto, using(std::proofs::Common::append_assoc))]
fn emit_pair_to_registers(
    waiting: &mut Vec<Waiting>,
    code: &mut Vec<Form>,
) -> Result<(), AllocError>
    ensures code { OnOk result (code.new.items ≡ code.old.items ++ pair_to_registers waiting.old.items) }
    ensures waiting { OnOk result (waiting.new.items ≡ kept (below_two waiting.old.items)) }
{
    let high = take(waiting);
    let low = take(waiting);
    emit_cleared(waiting, code)?;
    emit_pair(high, low, code)
}

// The high word of the right side, which is taken, to where it is read.
fn emit_high_side(word: Option<Waiting>, code: &mut Vec<Form>) -> Result<Source, AllocError>
    ensures source { IfOk result (λ source. source ≡ side_source form.R7 word) }
    ensures code { OnOk result (code.new.items ≡ code.old.items ++ side_from form.R7 word) }
{
    if rests(word) {
        return Ok(source_from(word));
    }
    code.extend_from_slice(&[Move(source_from(word), ToRegister(R7))])?;
    Ok(Register(R7))
}

// Both words of the right side, which are taken, to where they are read.
fn emit_right(
    high: Option<Waiting>,
    low: Option<Waiting>,
    code: &mut Vec<Form>,
) -> Result<RightLong, AllocError>
    ensures high { IfOk result (λ right. right.high ≡ side_source form.R7 high) }
    ensures low { IfOk result (λ right. right.low ≡ side_source form.R5 low) }
    ensures code { OnOk result (code.new.items ≡ code.old.items ++ (side_from form.R7 high ++ side_from form.R5 low)) }
{
    let source = emit_high_side(high, code)?;
    emit_to_rest(low, code)?;
    Ok(RightLong {
        low: rest_source(low),
        high: source,
    })
}

// Takes two longs: the right one, which is on top, to where it is read, and the left one to R6 and R4.
#[tactic(auto, using(std::proofs::Common::append_assoc))]
fn emit_long_sides(
    waiting: &mut Vec<Waiting>,
    code: &mut Vec<Form>,
) -> Result<RightLong, AllocError>
    ensures high { IfOk result (λ right. right.high ≡ high_source waiting.old.items) }
    ensures low { IfOk result (λ right. right.low ≡ low_source waiting.old.items) }
    ensures code { OnOk result (code.new.items ≡ code.old.items ++ long_sides waiting.old.items) }
    ensures waiting { OnOk result (waiting.new.items ≡ kept (below_two (below_two waiting.old.items))) }
{
    let high = take(waiting);
    let low = take(waiting);
    let left_high = take(waiting);
    let left_low = take(waiting);
    emit_cleared(waiting, code)?;
    let right = emit_right(high, low, code)?;
    emit_pair(left_high, left_low, code)?;
    Ok(right)
}

// The same, what waits being pushed where the low word of the left one would be lost.
#[tactic(auto, using(std::proofs::Common::append_assoc))]
fn emit_longs(waiting: &mut Vec<Waiting>, code: &mut Vec<Form>) -> Result<RightLong, AllocError>
    ensures high { IfOk result (λ right. let os = waiting.old.items in
        right.high ≡ high_source (parting (longs_lost os) os)) }
    ensures low { IfOk result (λ right. let os = waiting.old.items in
        right.low ≡ low_source (parting (longs_lost os) os)) }
    ensures code { OnOk result (let os = waiting.old.items in code.new.items
        ≡ code.old.items ++ (parted (longs_lost os) os ++ long_sides (parting (longs_lost os) os))) }
    ensures waiting { OnOk result (waiting.new.items ≡ longs_under waiting.old.items) }
{
    let lost = in_six(fourth(waiting));
    emit_parted(lost, waiting, code)?;
    emit_long_sides(waiting, code)
}

// A long result waits.
fn wait_long(waiting: &mut Vec<Waiting>) -> Result<(), AllocError>
    ensures { OnOk result (waiting.new.items ≡ long_waits waiting.old.items) }
{
    wait(Waiting::R4, waiting)?;
    wait(Waiting::R6, waiting)
}

// ---- two longs

// What an operation does with the high words.
fn high_instruction(operation: PlainOperation) -> TwoOp
    ensures { result ≡ high_instruction operation }
{
    match operation {
        PlainOperation::Add => TwoOp::Addc,
        PlainOperation::Subtract => TwoOp::Subc,
        PlainOperation::And => TwoOp::And,
        PlainOperation::Xor => TwoOp::Xor,
        PlainOperation::Or => TwoOp::Bis,
    }
}

// An operation on two longs.
#[tactic(auto, using(std::proofs::Common::append_assoc))]
fn emit_calculation(
    operation: PlainOperation,
    waiting: &mut Vec<Waiting>,
    code: &mut Vec<Form>,
) -> Result<(), AllocError>
    ensures code { OnOk result (code.new.items ≡ code.old.items ++ long_code (long_op.Calculate operation) waiting.old.items) }
    ensures waiting { OnOk result (waiting.new.items ≡ long_behind (long_op.Calculate operation) waiting.old.items) }
{
    let right = emit_longs(waiting, code)?;
    code.extend_from_slice(&[
        Calculate(plain_instruction(operation), right.low, R4),
        Calculate(high_instruction(operation), right.high, R6),
    ])?;
    wait_long(waiting)
}

// Whether the left one of two longs is below the right one: their difference borrows.
#[tactic(auto, using(std::proofs::Common::append_assoc))]
fn emit_below(waiting: &mut Vec<Waiting>, code: &mut Vec<Form>) -> Result<(), AllocError>
    ensures code { OnOk result (code.new.items ≡ code.old.items ++ long_code long_op.Below waiting.old.items) }
    ensures waiting { OnOk result (waiting.new.items ≡ long_behind long_op.Below waiting.old.items) }
{
    let right = emit_longs(waiting, code)?;
    code.extend_from_slice(&[
        Calculate(TwoOp::Sub, right.low, R4),
        Calculate(TwoOp::Subc, right.high, R6),
        Calculate(TwoOp::Subc, Register(R6), R6),
    ])?;
    wait(Waiting::R6, waiting)
}

// Whether it is above it: their difference less 1 doesn't borrow.
#[tactic(auto, using(std::proofs::Common::append_assoc))]
fn emit_above(waiting: &mut Vec<Waiting>, code: &mut Vec<Form>) -> Result<(), AllocError>
    ensures code { OnOk result (code.new.items ≡ code.old.items ++ long_code long_op.Above waiting.old.items) }
    ensures waiting { OnOk result (waiting.new.items ≡ long_behind long_op.Above waiting.old.items) }
{
    let right = emit_longs(waiting, code)?;
    code.extend_from_slice(&[
        Calculate(TwoOp::Bit, Constant(Konst::Zero), R4),
        Calculate(TwoOp::Subc, right.low, R4),
        Calculate(TwoOp::Subc, right.high, R6),
        Calculate(TwoOp::Subc, Register(R6), R6),
        Calculate(TwoOp::Xor, Constant(Konst::MinusOne), R6),
    ])?;
    wait(Waiting::R6, waiting)
}

// ---- shifts

// The long in R6 and R4 doubled so many times.
fn emit_long_doubles(count: u16, code: &mut Vec<Form>) -> Result<(), AllocError>
    ensures { OnOk result (code.new.items ≡ code.old.items ++ times_code count long_double) }
{
    let low = Calculate(TwoOp::Add, Register(R4), R4);
    emit_times(
        count,
        &[low, Calculate(TwoOp::Addc, Register(R6), R6)],
        code,
    )
}

// Halved so many times, its top bit being 0.
fn emit_long_halves(count: u16, code: &mut Vec<Form>) -> Result<(), AllocError>
    ensures { OnOk result (code.new.items ≡ code.old.items ++ times_code count long_halve) }
{
    let high = Modify(Modification::Rra, R6);
    emit_times(count, &[high, Modify(Modification::Rrc, R4)], code)
}

// To the left by fewer than 16 bits.
fn emit_left_by(count: u16, code: &mut Vec<Form>) -> Result<(), AllocError>
    ensures { OnOk result (code.new.items ≡ code.old.items ++ left_by count) }
{
    if count < 8 {
        return emit_long_doubles(count, code);
    }
    code.extend_from_slice(&[
        Modify(Modification::Swpb, R4),
        Modify(Modification::Swpb, R6),
        Calculate(TwoOp::And, Number(0xff00), R6),
        Calculate(TwoOp::Add, Register(R4), R6),
        Calculate(TwoOp::And, Number(0xff00), R4),
        Calculate(TwoOp::Sub, Register(R4), R6),
    ])?;
    emit_long_doubles(count - 8, code)
}

// To the right by fewer than 8 bits.
fn emit_low_right(count: u16, code: &mut Vec<Form>) -> Result<(), AllocError>
    ensures { OnOk result (code.new.items ≡ code.old.items ++ long_right_code count) }
{
    if count == 0 {
        return Ok(());
    }
    code.extend_from_slice(&[
        Calculate(TwoOp::Bit, Constant(Konst::Zero), R4),
        Modify(Modification::Rrc, R6),
        Modify(Modification::Rrc, R4),
    ])?;
    emit_long_halves(count - 1, code)
}

// To the right by fewer than 16 bits.
fn emit_right_by(count: u16, code: &mut Vec<Form>) -> Result<(), AllocError>
    ensures { OnOk result (code.new.items ≡ code.old.items ++ right_by count) }
{
    if count < 8 {
        return emit_low_right(count, code);
    }
    code.extend_from_slice(&[
        Modify(Modification::Swpb, R6),
        Modify(Modification::Swpb, R4),
        Calculate(TwoOp::And, Number(0xff), R4),
        Calculate(TwoOp::Add, Register(R6), R4),
        Calculate(TwoOp::And, Number(0xff), R6),
        Calculate(TwoOp::Sub, Register(R6), R4),
    ])?;
    emit_long_halves(count - 8, code)
}

// Takes the long on top to R6 and R4, what waits being pushed where its low word would be lost.
#[tactic(auto, using(std::proofs::Common::append_assoc))]
fn emit_parted_pair(waiting: &mut Vec<Waiting>, code: &mut Vec<Form>) -> Result<(), AllocError>
    ensures code { OnOk result (let os = waiting.old.items in code.new.items
        ≡ code.old.items ++ (parted (pair_lost os) os ++ pair_to_registers (parting (pair_lost os) os))) }
    ensures waiting { OnOk result (let os = waiting.old.items in waiting.new.items ≡ kept (below_two (parting (pair_lost os) os))) }
{
    let lost = in_six(under_top(waiting));
    emit_parted(lost, waiting, code)?;
    emit_pair_to_registers(waiting, code)
}

// The top isn't wanted.
fn emit_dropped(top: Option<Waiting>, code: &mut Vec<Form>) -> Result<(), AllocError>
    ensures { OnOk result (code.new.items ≡ code.old.items ++ dropped top) }
{
    match top {
        None => code.extend_from_slice(&[Move(Popped, ToRegister(R5))]),
        Some(_) => Ok(()),
    }
}

// The top comes to wait where it doesn't.
fn emit_lifted(top: Option<Waiting>, code: &mut Vec<Form>) -> Result<Waiting, AllocError>
    ensures word { IfOk result (λ word. word ≡ made.lifted_word top) }
    ensures code { OnOk result (code.new.items ≡ code.old.items ++ lifted top) }
{
    match top {
        None => {
            code.extend_from_slice(&[Move(Popped, ToRegister(R4))])?;
            Ok(Waiting::R4)
        }
        Some(word) => Ok(word),
    }
}

// Of the long on top the high word.
fn emit_high(waiting: &mut Vec<Waiting>, code: &mut Vec<Form>) -> Result<(), AllocError>
    ensures code { OnOk result (code.new.items ≡ code.old.items ++ high_code waiting.old.items) }
    ensures waiting { OnOk result (waiting.new.items ≡ high_behind waiting.old.items) }
{
    let high = take(waiting);
    let low = take(waiting);
    let word = emit_lifted(high, code)?;
    emit_dropped(low, code)?;
    wait(word, waiting)
}

// A shift of the long on top to the left by fewer than 16 bits.
#[tactic(auto, using(std::proofs::Common::append_assoc))]
fn emit_short_left(
    count: u16,
    waiting: &mut Vec<Waiting>,
    code: &mut Vec<Form>,
) -> Result<(), AllocError>
    ensures code { OnOk result (code.new.items ≡ code.old.items ++ short_code waiting.old.items (left_by count)) }
    ensures waiting { OnOk result (waiting.new.items ≡ short_behind waiting.old.items) }
{
    emit_parted_pair(waiting, code)?;
    emit_left_by(count, code)?;
    wait_long(waiting)
}

// To the left by more: the low word is 0.
#[tactic(auto, using(std::proofs::Common::append_assoc))]
fn emit_far_left(
    count: u16,
    waiting: &mut Vec<Waiting>,
    code: &mut Vec<Form>,
) -> Result<(), AllocError>
    requires { 16 ≤ count }
    ensures code { OnOk result (code.new.items ≡ code.old.items ++ left_code false waiting.old.items count) }
    ensures waiting { OnOk result (waiting.new.items ≡ left_behind false waiting.old.items) }
{
    let high = take(waiting);
    emit_dropped(high, code)?;
    emit_top_to_four(waiting, code)?;
    emit_shift_middle(ShiftOperation::Left, count - 16, code)?;
    wait(Waiting::Number(0), waiting)?;
    wait(Waiting::R4, waiting)
}

// A shift of the long on top to the right by fewer than 16 bits.
#[tactic(auto, using(std::proofs::Common::append_assoc))]
fn emit_short_right(
    count: u16,
    waiting: &mut Vec<Waiting>,
    code: &mut Vec<Form>,
) -> Result<(), AllocError>
    ensures code { OnOk result (code.new.items ≡ code.old.items ++ short_code waiting.old.items (right_by count)) }
    ensures waiting { OnOk result (waiting.new.items ≡ short_behind waiting.old.items) }
{
    emit_parted_pair(waiting, code)?;
    emit_right_by(count, code)?;
    wait_long(waiting)
}

// To the right by more: the high word is 0.
#[tactic(auto, using(std::proofs::Common::append_assoc))]
fn emit_far_right(
    count: u16,
    waiting: &mut Vec<Waiting>,
    code: &mut Vec<Form>,
) -> Result<(), AllocError>
    requires { 16 ≤ count }
    ensures code { OnOk result (code.new.items ≡ code.old.items ++ right_shift_code false waiting.old.items count) }
    ensures waiting { OnOk result (waiting.new.items ≡ right_behind false waiting.old.items) }
{
    emit_high(waiting, code)?;
    emit_top_to_four(waiting, code)?;
    emit_shift_middle(ShiftOperation::Right, count - 16, code)?;
    wait(Waiting::R4, waiting)?;
    wait(Waiting::Number(0), waiting)
}

// A shift of the long on top to the left.
fn emit_long_left(
    count: u16,
    waiting: &mut Vec<Waiting>,
    code: &mut Vec<Form>,
) -> Result<(), AllocError>
    ensures code { OnOk result (code.new.items ≡ code.old.items ++ long_code (long_op.ShiftLeft count) waiting.old.items) }
    ensures waiting { OnOk result (waiting.new.items ≡ long_behind (long_op.ShiftLeft count) waiting.old.items) }
{
    if count < 16 {
        emit_short_left(count, waiting, code)
    } else {
        emit_far_left(count, waiting, code)
    }
}

// And to the right.
fn emit_long_right(
    count: u16,
    waiting: &mut Vec<Waiting>,
    code: &mut Vec<Form>,
) -> Result<(), AllocError>
    ensures code { OnOk result (code.new.items ≡ code.old.items ++ long_code (long_op.ShiftRight count) waiting.old.items) }
    ensures waiting { OnOk result (waiting.new.items ≡ long_behind (long_op.ShiftRight count) waiting.old.items) }
{
    if count < 16 {
        emit_short_right(count, waiting, code)
    } else {
        emit_far_right(count, waiting, code)
    }
}

// Each bit of the long on top turned.
#[tactic(auto, using(std::proofs::Common::append_assoc))]
fn emit_complement(waiting: &mut Vec<Waiting>, code: &mut Vec<Form>) -> Result<(), AllocError>
    ensures code { OnOk result (code.new.items ≡ code.old.items ++ long_code long_op.Complement waiting.old.items) }
    ensures waiting { OnOk result (waiting.new.items ≡ long_behind long_op.Complement waiting.old.items) }
{
    emit_parted_pair(waiting, code)?;
    code.extend_from_slice(&[
        Calculate(TwoOp::Xor, Constant(Konst::MinusOne), R4),
        Calculate(TwoOp::Xor, Constant(Konst::MinusOne), R6),
    ])?;
    wait_long(waiting)
}

// ---- one word and two

// The int on top as a long.
#[tactic(auto, using(std::proofs::Common::append_assoc))]
fn emit_widen(waiting: &mut Vec<Waiting>, code: &mut Vec<Form>) -> Result<(), AllocError>
    ensures code { OnOk result (code.new.items ≡ code.old.items ++ long_code long_op.Widen waiting.old.items) }
    ensures waiting { OnOk result (waiting.new.items ≡ long_behind long_op.Widen waiting.old.items) }
{
    emit_top_to_four(waiting, code)?;
    code.extend_from_slice(&[
        Move(Register(R4), ToRegister(R6)),
        Calculate(TwoOp::Add, Register(R6), R6),
        Calculate(TwoOp::Subc, Register(R6), R6),
        Calculate(TwoOp::Xor, Constant(Konst::MinusOne), R6),
    ])?;
    wait_long(waiting)
}

// The low word of the long on top.
fn emit_low(waiting: &mut Vec<Waiting>, code: &mut Vec<Form>) -> Result<(), AllocError>
    ensures code { OnOk result (code.new.items ≡ code.old.items ++ dropped (top_of waiting.old.items)) }
    ensures waiting { OnOk result (waiting.new.items ≡ below_top waiting.old.items) }
{
    let high = take(waiting);
    emit_dropped(high, code)
}

/// Appends the code of an operation with longs.
pub fn emit_long(
    operation: LongOperation,
    waiting: &mut Vec<Waiting>,
    code: &mut Vec<Form>,
) -> Result<(), AllocError>
    ensures code { OnOk result (code.new.items ≡ code.old.items ++ step_code [] waiting.old.items (value.long operation)) }
    ensures waiting { OnOk result (waiting.new.items ≡ waiting_behind waiting.old.items (value.long operation)) }
    ensures of_words { OnOk result (StepOfWords (value.long operation)) }
{
    match operation {
        LongOperation::Calculate(operation) => emit_calculation(operation, waiting, code),
        LongOperation::Below => emit_below(waiting, code),
        LongOperation::Above => emit_above(waiting, code),
        LongOperation::ShiftLeft(count) => emit_long_left(count, waiting, code),
        LongOperation::ShiftRight(count) => emit_long_right(count, waiting, code),
        LongOperation::Complement => emit_complement(waiting, code),
        LongOperation::Widen => emit_widen(waiting, code),
        LongOperation::Join => Ok(()),
        LongOperation::LowWord => emit_low(waiting, code),
        LongOperation::HighWord => emit_high(waiting, code),
    }
}
