//! The code of elements that are logged and stored in their place.

ghost use Rattle.std.specs.Prelude.{◌≡◌, [], ◌++◌, None, OnOk};
ghost use Rattle.word_code.specs.array_versions.Form.{LoggedOfWords, ListOfWords};
ghost use Rattle.word_code.specs.array_versions.Program as value;
ghost use Rattle.word_code.specs.Code.{logged_first, logged_code, kept_in, made_in, step_code};
ghost use Rattle.word_code.specs.Code.{known_index, known_first, known_logged, right_to_five, logged_update_at};

use crate::bounds::{emit_check, is_inside};
use crate::operations::plain_instruction;
use crate::waiting::{emit_all, emit_to_five, emit_two_to_registers, take, under_top};
use array_versions::{ListPlace, LoggedPlace, PlainOperation};
use std::alloc::AllocError;
use word_code::forms::Form::{Calculate, Move, Update};
use word_code::forms::Source::{Constant, Fram, Indexed, Number, Register};
use word_code::forms::Target::{ToIndexed, ToRegister};
use word_code::forms::WorkRegister::{R4, R5, R6, R7};
use word_code::forms::{Condition, Form, Konst, TwoOp, jump};
use word_code::{Bound, Waiting};

// The index in R4 becomes the element's offset; where its version word isn't the attempt's number, the element is logged.
fn emit_first(place: LoggedPlace, list: ListPlace, code: &mut Vec<Form>) -> Result<(), AllocError>
    ensures { OnOk result (code.new.items ≡ code.old.items ++ logged_first place list) }
{
    let words = list.list.wrapping_add(2);
    code.extend_from_slice(&[
        Calculate(TwoOp::Add, Register(R4), R4),
        Move(Fram(list.ver), ToRegister(R6)),
        Calculate(TwoOp::Cmp, Indexed(R4, place.versions), R6),
        jump(Condition::Equal, 17),
        Move(Fram(list.cln), ToRegister(R7)),
        Calculate(TwoOp::Add, Register(R7), R7),
        Calculate(TwoOp::Add, Register(R7), R7),
        Move(Register(R4), ToRegister(R6)),
        Calculate(TwoOp::Add, Number(place.elements), R6),
        Move(Register(R6), ToIndexed(R7, list.list)),
        Move(Indexed(R4, place.elements), ToIndexed(R7, words)),
        Update(TwoOp::Add, Constant(Konst::One), list.cln),
        Move(Fram(list.ver), ToIndexed(R4, place.versions)),
    ])
}

// The word in R5 to the element at the index in R4, which is below the length.
fn emit_kept(place: LoggedPlace, list: ListPlace, code: &mut Vec<Form>) -> Result<(), AllocError>
    ensures { OnOk result (code.new.items ≡ code.old.items ++ (logged_first place list ++ kept_in place.elements)) }
{
    emit_first(place, list, code)?;
    code.extend_from_slice(&[Move(Register(R5), ToIndexed(R4, place.elements))])
}

// The same, by whether the index in R4 is surely below the length.
#[tactic(auto, using(std::proofs::Common::append_assoc))]
fn emit_write(
    inside: bool,
    place: LoggedPlace,
    list: ListPlace,
    code: &mut Vec<Form>,
) -> Result<(), AllocError>
    ensures code { OnOk result (code.new.items ≡ code.old.items ++ logged_code inside place list (kept_in place.elements)) }
    ensures of_words { OnOk result (LoggedOfWords place × ListOfWords list) }
{
    if inside {
        return emit_kept(place, list, code);
    }
    emit_check(place.length, 25, code)?;
    emit_kept(place, list, code)
}

// What the operation gives of the element at the index in R4, which is below the length, and of the word in R5 to the element.
fn emit_made(
    operation: PlainOperation,
    place: LoggedPlace,
    list: ListPlace,
    code: &mut Vec<Form>,
) -> Result<(), AllocError>
    ensures { OnOk result (code.new.items ≡ code.old.items ++ (logged_first place list ++ made_in operation place.elements)) }
{
    emit_first(place, list, code)?;
    code.extend_from_slice(&[
        Move(Indexed(R4, place.elements), ToRegister(R7)),
        Calculate(plain_instruction(operation), Register(R5), R7),
        Move(Register(R7), ToIndexed(R4, place.elements)),
    ])
}

// The same, by whether the index in R4 is surely below the length.
#[tactic(auto, using(std::proofs::Common::append_assoc))]
fn emit_update(
    inside: bool,
    operation: PlainOperation,
    place: LoggedPlace,
    list: ListPlace,
    code: &mut Vec<Form>,
) -> Result<(), AllocError>
    ensures code { OnOk result (code.new.items ≡ code.old.items ++ logged_code inside place list (made_in operation place.elements)) }
    ensures of_words { OnOk result (LoggedOfWords place × ListOfWords list) }
{
    if inside {
        return emit_made(operation, place, list, code);
    }
    emit_check(place.length, 28, code)?;
    emit_made(operation, place, list, code)
}

/// Appends the code of a store to an element that is logged.
#[tactic(auto, using(std::proofs::Common::append_assoc))]
pub fn emit_logged_write(
    bounds: &[Bound],
    place: LoggedPlace,
    list: ListPlace,
    waiting: &mut Vec<Waiting>,
    code: &mut Vec<Form>,
) -> Result<(), AllocError>
    ensures code { OnOk result (code.new.items ≡ code.old.items ++ step_code bounds.now waiting.old.items (value.logged_write place list)) }
    ensures waiting { OnOk result (waiting.new.items ≡ []) }
    ensures of_words { OnOk result (LoggedOfWords place × ListOfWords list) }
{
    let inside = is_inside(bounds, under_top(waiting), place.length);
    emit_two_to_registers(waiting, code)?;
    emit_all(waiting, code)?;
    emit_write(inside, place, list, code)
}

// The number under the top, where it waits and is below a length.
fn known_index(length: u16, waiting: &[Waiting]) -> Option<u16>
    ensures { result ≡ known_index waiting.now length }
{
    match under_top(waiting) {
        Some(Waiting::Number(number)) => { if number < length { Some(number) } else { None } }
        _ => None,
    }
}

// At an index that is known and below the length: where the element's version word isn't the attempt's number, it is logged.
fn emit_known_first(
    place: LoggedPlace,
    list: ListPlace,
    index: u16,
    code: &mut Vec<Form>,
) -> Result<(), AllocError>
    ensures { OnOk result (code.new.items ≡ code.old.items ++ known_first place list index) }
{
    let offset = index.wrapping_add(index);
    let version = place.versions.wrapping_add(offset);
    let words = list.list.wrapping_add(2);
    code.extend_from_slice(&[
        Move(Fram(list.ver), ToRegister(R6)),
        Calculate(TwoOp::Cmp, Fram(version), R6),
        jump(Condition::Equal, 19),
        Move(Number(offset), ToRegister(R4)),
        Move(Fram(list.cln), ToRegister(R7)),
        Calculate(TwoOp::Add, Register(R7), R7),
        Calculate(TwoOp::Add, Register(R7), R7),
        Move(Register(R4), ToRegister(R6)),
        Calculate(TwoOp::Add, Number(place.elements), R6),
        Move(Register(R6), ToIndexed(R7, list.list)),
        Move(Indexed(R4, place.elements), ToIndexed(R7, words)),
        Update(TwoOp::Add, Constant(Konst::One), list.cln),
        Move(Fram(list.ver), ToIndexed(R4, place.versions)),
    ])
}

// And one instruction updates it with the word in R5.
fn emit_known(
    operation: PlainOperation,
    place: LoggedPlace,
    list: ListPlace,
    index: u16,
    code: &mut Vec<Form>,
) -> Result<(), AllocError>
    ensures { OnOk result (code.new.items ≡ code.old.items ++ known_logged operation place list index) }
{
    emit_known_first(place, list, index, code)?;
    let element = place.elements.wrapping_add(index.wrapping_add(index));
    code.extend_from_slice(&[Update(plain_instruction(operation), Register(R5), element)])
}

// The same, behind what brings the right side to R5.
#[tactic(auto, using(std::proofs::Common::append_assoc))]
fn emit_known_update(
    operation: PlainOperation,
    place: LoggedPlace,
    list: ListPlace,
    index: u16,
    waiting: &mut Vec<Waiting>,
    code: &mut Vec<Form>,
) -> Result<(), AllocError>
    ensures code { OnOk result (code.new.items
        ≡ code.old.items ++ (right_to_five waiting.old.items ++ known_logged operation place list index)) }
    ensures waiting { OnOk result (waiting.new.items ≡ []) }
{
    let right = take(waiting);
    take(waiting);
    emit_all(waiting, code)?;
    emit_to_five(right, code)?;
    emit_known(operation, place, list, index, code)
}

// At any other index, behind what brings it and the right side to R4 and R5.
#[tactic(auto, using(std::proofs::Common::append_assoc))]
fn emit_other_update(
    inside: bool,
    operation: PlainOperation,
    place: LoggedPlace,
    list: ListPlace,
    waiting: &mut Vec<Waiting>,
    code: &mut Vec<Form>,
) -> Result<(), AllocError>
    ensures code { OnOk result (code.new.items ≡ code.old.items ++ logged_update_at None inside waiting.old.items operation place list) }
    ensures waiting { OnOk result (waiting.new.items ≡ []) }
{
    emit_two_to_registers(waiting, code)?;
    emit_all(waiting, code)?;
    emit_update(inside, operation, place, list, code)
}

/// Appends the code of an update of an element that is logged.
pub fn emit_logged_update(
    bounds: &[Bound],
    operation: PlainOperation,
    place: LoggedPlace,
    list: ListPlace,
    waiting: &mut Vec<Waiting>,
    code: &mut Vec<Form>,
) -> Result<(), AllocError>
    ensures code { OnOk result (code.new.items ≡ code.old.items ++ step_code bounds.now waiting.old.items (value.logged_update operation place list)) }
    ensures waiting { OnOk result (waiting.new.items ≡ []) }
    ensures of_words { OnOk result (LoggedOfWords place × ListOfWords list) }
{
    let inside = is_inside(bounds, under_top(waiting), place.length);
    match known_index(place.length, waiting) {
        Some(index) => emit_known_update(operation, place, list, index, waiting, code),
        None => emit_other_update(inside, operation, place, list, waiting, code),
    }
}
