//! The code of elements that are updated in place.

ghost use Rattle.std.specs.Prelude.{◌≡◌, [], ◌∷◌, ◌++◌, ◌+◌, ◌<◌, OnOk};
ghost use Rattle.word_code.specs.array_versions.Form.{ArrayOfWords, ListOfWords};
ghost use Rattle.word_code.specs.array_versions.Program as value;
ghost use Rattle.word_code.specs.Code.{flushed, top_of, below_top, four_from, top_number, rest_source, to_rest, made_code, attempt_form};
ghost use Rattle.word_code.specs.Code.{size, by_version, first_update, inside_update, checked_update, indexed_update, known_update, if_below, step_code};

use crate::bounds::is_inside;
use crate::decisions::code_words;
use crate::operations::plain_instruction;
use crate::versioned::emit_first;
use crate::waiting::{
    emit_all, emit_to_four, emit_to_rest, rest_source, take, top_number, under_top,
};
use array_versions::{ArrayPlace, ListPlace, PlainOperation};
use std::alloc::{AllocError, Global};
use word_code::forms::Form::{Calculate, Move, Update};
use word_code::forms::Source::{Fram, Indexed, Number, Register};
use word_code::forms::Target::{ToIndexed, ToRegister};
use word_code::forms::WorkRegister::{R4, R6, R7};
use word_code::forms::{Condition, Form, TwoOp, jump};
use word_code::{Bound, Waiting};

// What an element of an array becomes.
#[derive(Clone, Copy)]
struct ElementUpdate {
    operation: PlainOperation,
    /// The right side, which is taken.
    right: Option<Waiting>,
    place: ArrayPlace,
    /// Where the first update in an attempt is listed.
    list: ListPlace,
}

// The copy becomes what the operation gives of a word and of the right side; R4 is the offset of both in their arrays.
fn emit_made(update: ElementUpdate, from: u16, code: &mut Vec<Form>) -> Result<(), AllocError>
    ensures { OnOk result (code.new.items ≡ code.old.items ++ made_code update.operation (rest_source update.right) from update.place.copies) }
{
    code.extend_from_slice(&[
        Move(Indexed(R4, from), ToRegister(R7)),
        Calculate(
            plain_instruction(update.operation),
            rest_source(update.right),
            R7,
        ),
        Move(Register(R7), ToIndexed(R4, update.place.copies)),
    ])
}

// VER's word to R6.
fn attempt_number(list: ListPlace) -> Form
    ensures { result ≡ attempt_form list }
{
    Move(Fram(list.ver), ToRegister(R6))
}

// The first update of an element in an attempt.
fn emit_first_update(update: ElementUpdate, code: &mut Vec<Form>) -> Result<(), AllocError>
    ensures { OnOk result (code.new.items ≡ code.old.items ++ first_update update.operation (rest_source update.right) update.place update.list) }
{
    emit_made(update, update.place.elements, code)?;
    code.extend_from_slice(&[attempt_number(update.list)])?;
    emit_first(update.place, update.list, code)
}

// Behind a comparison of the version word with VER's: one way where they are equal, else the other.
fn emit_by_version(again: &[Form], first: &[Form], code: &mut Vec<Form>) -> Result<(), AllocError>
    requires again { size again.now + 1 < 0x400 }
    requires first { size first.now < 0x400 }
    ensures { OnOk result (code.new.items ≡ code.old.items ++ by_version again.now first.now) }
{
    code.extend_from_slice(&[jump(Condition::NotEqual, code_words(again) + 1)])?;
    code.extend_from_slice(again)?;
    code.extend_from_slice(&[jump(Condition::Always, code_words(first))])?;
    code.extend_from_slice(first)
}

// An update at the index in R4, which is below the length.
fn emit_inside(alloc: Global, update: ElementUpdate, code: &mut Vec<Form>) -> Result<(), AllocError>
    ensures { OnOk result (code.new.items ≡ code.old.items ++ inside_update update.operation (rest_source update.right) update.place update.list) }
{
    let mut again = Vec::new(alloc);
    emit_made(update, update.place.copies, &mut again)?;
    let mut first = Vec::new(alloc);
    emit_first_update(update, &mut first)?;
    code.extend_from_slice(&[
        Calculate(TwoOp::Add, Register(R4), R4),
        attempt_number(update.list),
        Calculate(TwoOp::Cmp, Indexed(R4, update.place.versions), R6),
    ])?;
    emit_by_version(&again, &first, code)
}

// At any index in R4.
fn emit_checked(
    alloc: Global,
    update: ElementUpdate,
    code: &mut Vec<Form>,
) -> Result<(), AllocError>
    ensures { OnOk result (code.new.items ≡ code.old.items ++ checked_update update.operation (rest_source update.right) update.place update.list) }
{
    let mut inside = Vec::new(alloc);
    emit_inside(alloc, update, &mut inside)?;
    code.extend_from_slice(&[
        Calculate(TwoOp::Cmp, Number(update.place.length), R4),
        jump(Condition::Carry, code_words(&inside)),
    ])?;
    code.extend_from_slice(&inside)
}

// At any index in R4, which may be surely below the length.
fn emit_indexed_update(
    alloc: Global,
    sure: bool,
    update: ElementUpdate,
    code: &mut Vec<Form>,
) -> Result<(), AllocError>
    ensures { OnOk result (code.new.items ≡ code.old.items ++ indexed_update sure update.operation (rest_source update.right) update.place update.list) }
{
    if sure {
        emit_inside(alloc, update, code)
    } else {
        emit_checked(alloc, update, code)
    }
}

// At a number that is known and below the length.
#[tactic(auto, using(std::proofs::Common::append_assoc))]
fn emit_known(
    alloc: Global,
    update: ElementUpdate,
    index: u16,
    code: &mut Vec<Form>,
) -> Result<(), AllocError>
    ensures { OnOk result (code.new.items ≡ code.old.items ++ known_update update.operation (rest_source update.right) update.place update.list index) }
{
    let offset = index.wrapping_add(index);
    let copy = update.place.copies.wrapping_add(offset);
    let version = update.place.versions.wrapping_add(offset);
    let again = [Update(
        plain_instruction(update.operation),
        rest_source(update.right),
        copy,
    )];
    let mut first = Vec::new(alloc);
    first.extend_from_slice(&[Move(Number(offset), ToRegister(R4))])?;
    emit_first_update(update, &mut first)?;
    code.extend_from_slice(&[
        attempt_number(update.list),
        Calculate(TwoOp::Cmp, Fram(version), R6),
    ])?;
    emit_by_version(&again, &first, code)
}

// The number on top, where it waits and is below a length.
fn number_below(length: u16, waiting: &[Waiting]) -> Option<u16>
    ensures { result ≡ if_below length (top_number (top_of waiting.now)) }
{
    match top_number(waiting) {
        Some(number) => { if number < length { Some(number) } else { None } }
        None => None,
    }
}

// Brings the right side, which is taken, to where it is read; all words that wait are pushed.
#[tactic(auto, using(std::proofs::Common::append_assoc))]
fn emit_rest(
    right: Option<Waiting>,
    waiting: &mut Vec<Waiting>,
    code: &mut Vec<Form>,
) -> Result<(), AllocError>
    ensures code { OnOk result (code.new.items ≡ code.old.items ++ (flushed waiting.old.items ++ to_rest right)) }
    ensures waiting { OnOk result (waiting.new.items ≡ []) }
{
    emit_all(waiting, code)?;
    emit_to_rest(right, code)
}

// The same, and takes the index, which is the top, to R4.
#[tactic(auto, using(std::proofs::Common::append_assoc))]
fn emit_rest_and_index(
    right: Option<Waiting>,
    waiting: &mut Vec<Waiting>,
    code: &mut Vec<Form>,
) -> Result<(), AllocError>
    ensures code { OnOk result (code.new.items ≡ code.old.items
        ++ (flushed (below_top waiting.old.items) ++ (to_rest right ++ four_from (top_of waiting.old.items)))) }
    ensures waiting { OnOk result (waiting.new.items ≡ []) }
{
    let index = take(waiting);
    emit_all(waiting, code)?;
    emit_to_rest(right, code)?;
    emit_to_four(index, code)
}

/// Appends the code of an element that is updated in place.
pub fn emit_versioned_update(
    alloc: Global,
    bounds: &[Bound],
    operation: PlainOperation,
    place: ArrayPlace,
    list: ListPlace,
    waiting: &mut Vec<Waiting>,
    code: &mut Vec<Form>,
) -> Result<(), AllocError>
    ensures code { OnOk result (code.new.items ≡ code.old.items ++ step_code bounds.now waiting.old.items (value.versioned_update operation place list)) }
    ensures waiting { OnOk result (waiting.new.items ≡ []) }
    ensures of_words { OnOk result (ArrayOfWords place × ListOfWords list) }
{
    let sure = is_inside(bounds, under_top(waiting), place.length);
    let right = take(waiting);
    let update = ElementUpdate {
        operation,
        right,
        place,
        list,
    };
    match number_below(place.length, waiting) {
        Some(index) => {
            take(waiting);
            emit_rest(right, waiting, code)?;
            emit_known(alloc, update, index, code)
        }
        None => {
            emit_rest_and_index(right, waiting, code)?;
            emit_indexed_update(alloc, sure, update, code)
        }
    }
}
