//! The code of versioned accesses.

ghost use Rattle.std.specs.Prelude.{◌≡◌, [], ◌++◌, ◌<◌, OnOk};
ghost use Rattle.word_code.specs.array_versions.Form.{ArrayOfWords, ListOfWords};
ghost use Rattle.word_code.specs.msp_isa.alp_words.Words.{word_sum};
ghost use Rattle.word_code.specs.code_forms.Forms as form;
ghost use Rattle.word_code.specs.Code.{own_code, read_code, mark_code, last_code, end_test, longer_code, next_code, word_code, first_code, copy_code};
ghost use Rattle.word_code.specs.Code.{stored_code, write_code, step_code, waiting_behind};
ghost use Rattle.word_code.specs.array_versions.Program as value;

use crate::bounds::{emit_check, emit_zero, is_inside};
use crate::waiting::{emit_all, emit_top_to_four, emit_two_to_registers, top, under_top, wait};
use array_versions::{ArrayPlace, ListPlace};
use std::alloc::AllocError;
use word_code::forms::Form::{Calculate, Move, Update};
use word_code::forms::Source::{Constant, Fram, Indexed, Number, Register};
use word_code::forms::Target::{ToIndexed, ToRegister};
use word_code::forms::WorkRegister::{R4, R5, R6, R7};
use word_code::forms::{Condition, Form, Konst, TwoOp, jump};
use word_code::{Bound, Waiting};

// A versioned read at the index in R4, which is below the length; from the copy it goes over so many words.
fn emit_own(
    over: u16,
    place: ArrayPlace,
    list: ListPlace,
    code: &mut Vec<Form>,
) -> Result<(), AllocError>
    requires { over < 0x400 }
    ensures { OnOk result (code.new.items ≡ code.old.items ++ own_code over place list) }
{
    code.extend_from_slice(&[
        Calculate(TwoOp::Add, Register(R4), R4),
        Move(Fram(list.ver), ToRegister(R5)),
        Calculate(TwoOp::Cmp, Indexed(R4, place.versions), R5),
        jump(Condition::NotEqual, 3),
        Move(Indexed(R4, place.copies), ToRegister(R4)),
        jump(Condition::Always, over),
        Move(Indexed(R4, place.elements), ToRegister(R4)),
    ])
}

// A versioned read, by whether the index in R4 is surely below the length.
#[tactic(auto, using(std::proofs::Common::append_assoc))]
fn emit_read(
    inside: bool,
    place: ArrayPlace,
    list: ListPlace,
    code: &mut Vec<Form>,
) -> Result<(), AllocError>
    ensures code { OnOk result (code.new.items ≡ code.old.items ++ read_code inside place list) }
    ensures of_words { OnOk result (ArrayOfWords place × ListOfWords list) }
{
    if inside {
        return emit_own(2, place, list, code);
    }
    emit_check(place.length, 12, code)?;
    emit_own(4, place, list, code)?;
    emit_zero(code)
}

/// Appends the code of a versioned read.
#[tactic(auto, using(std::proofs::Common::append_assoc))]
pub fn emit_versioned_read(
    bounds: &[Bound],
    place: ArrayPlace,
    list: ListPlace,
    waiting: &mut Vec<Waiting>,
    code: &mut Vec<Form>,
) -> Result<(), AllocError>
    ensures code { OnOk result (code.new.items ≡ code.old.items ++ step_code bounds.now waiting.old.items (value.versioned_read place list)) }
    ensures waiting { OnOk result (waiting.new.items ≡ waiting_behind waiting.old.items (value.versioned_read place list)) }
    ensures of_words { OnOk result (ArrayOfWords place × ListOfWords list) }
{
    let inside = is_inside(bounds, top(waiting), place.length);
    emit_top_to_four(waiting, code)?;
    emit_read(inside, place, list, code)?;
    wait(Waiting::R4, waiting)
}

// The version word; then the home is in R7, its copy in R4, and the count of entries in R5.
fn emit_mark(place: ArrayPlace, list: ListPlace, code: &mut Vec<Form>) -> Result<(), AllocError>
    ensures { OnOk result (code.new.items ≡ code.old.items ++ mark_code place list) }
{
    code.extend_from_slice(&[
        Move(Register(R6), ToIndexed(R4, place.versions)),
        Move(Register(R4), ToRegister(R7)),
        Calculate(TwoOp::Add, Number(place.elements), R7),
        Calculate(TwoOp::Add, Number(place.copies), R4),
        Move(Fram(list.cln), ToRegister(R5)),
        Calculate(TwoOp::Cmp, Constant(Konst::Zero), R5),
    ])
}

// Without entries a jump; else in R5 where the last entry stands from the list on.
fn emit_last(code: &mut Vec<Form>) -> Result<(), AllocError>
    ensures { OnOk result (code.new.items ≡ code.old.items ++ last_code 27) }
{
    code.extend_from_slice(&[
        jump(Condition::Equal, 27),
        Calculate(TwoOp::Sub, Constant(Konst::One), R5),
        Move(Register(R5), ToRegister(R6)),
        Calculate(TwoOp::Add, Register(R5), R5),
        Calculate(TwoOp::Add, Register(R6), R5),
        Calculate(TwoOp::Add, Register(R5), R5),
    ])
}

// Where the last entry's run doesn't end at the home in R7, a jump.
fn emit_home_test(list: u16, code: &mut Vec<Form>) -> Result<(), AllocError>
    ensures { OnOk result (code.new.items ≡ code.old.items ++ end_test (word_sum list 4) list form.R7 13) }
{
    let words = list.wrapping_add(4);
    code.extend_from_slice(&[
        Move(Indexed(R5, words), ToRegister(R6)),
        Calculate(TwoOp::Add, Register(R6), R6),
        Calculate(TwoOp::Add, Indexed(R5, list), R6),
        Calculate(TwoOp::Cmp, Register(R7), R6),
        jump(Condition::NotEqual, 13),
    ])
}

// The same of its copies and the copy in R4.
fn emit_copy_test(list: u16, code: &mut Vec<Form>) -> Result<(), AllocError>
    ensures { OnOk result (code.new.items ≡ code.old.items ++ end_test (word_sum list 4) (word_sum list 2) form.R4 6) }
{
    let copies = list.wrapping_add(2);
    let words = list.wrapping_add(4);
    code.extend_from_slice(&[
        Move(Indexed(R5, words), ToRegister(R6)),
        Calculate(TwoOp::Add, Register(R6), R6),
        Calculate(TwoOp::Add, Indexed(R5, copies), R6),
        Calculate(TwoOp::Cmp, Register(R4), R6),
        jump(Condition::NotEqual, 6),
    ])
}

// The last entry has a word more.
fn emit_longer(list: u16, code: &mut Vec<Form>) -> Result<(), AllocError>
    ensures { OnOk result (code.new.items ≡ code.old.items ++ longer_code (word_sum list 4) 10) }
{
    let words = list.wrapping_add(4);
    code.extend_from_slice(&[
        Move(Indexed(R5, words), ToRegister(R6)),
        Calculate(TwoOp::Add, Constant(Konst::One), R6),
        Move(Register(R6), ToIndexed(R5, words)),
        jump(Condition::Always, 10),
    ])
}

// An entry of one word behind the last, then the count.
fn emit_word(list: ListPlace, code: &mut Vec<Form>) -> Result<(), AllocError>
    ensures { OnOk result (code.new.items ≡ code.old.items ++ (next_code ++ word_code list)) }
{
    let copies = list.list.wrapping_add(2);
    let words = list.list.wrapping_add(4);
    let one = Constant(Konst::One);
    code.extend_from_slice(&[
        Calculate(TwoOp::Add, Number(6), R5),
        Move(Register(R7), ToIndexed(R5, list.list)),
        Move(Register(R4), ToIndexed(R5, copies)),
        Move(one, ToIndexed(R5, words)),
        Update(TwoOp::Add, one, list.cln),
    ])
}

/// Appends what follows the first store to a copy.
#[tactic(auto, using(std::proofs::Common::append_assoc))]
pub fn emit_first(
    place: ArrayPlace,
    list: ListPlace,
    code: &mut Vec<Form>,
) -> Result<(), AllocError>
    ensures { OnOk result (code.new.items ≡ code.old.items ++ first_code place list) }
{
    emit_mark(place, list, code)?;
    emit_last(code)?;
    emit_home_test(list.list, code)?;
    emit_copy_test(list.list, code)?;
    emit_longer(list.list, code)?;
    emit_word(list, code)
}

// The store to the copy.
fn emit_copy(place: ArrayPlace, list: ListPlace, code: &mut Vec<Form>) -> Result<(), AllocError>
    ensures { OnOk result (code.new.items ≡ code.old.items ++ copy_code place list) }
{
    code.extend_from_slice(&[
        Calculate(TwoOp::Add, Register(R4), R4),
        Move(Register(R5), ToIndexed(R4, place.copies)),
        Move(Fram(list.ver), ToRegister(R6)),
        Calculate(TwoOp::Cmp, Indexed(R4, place.versions), R6),
        jump(Condition::Equal, 46),
    ])
}

// A versioned write of the word in R5 at the index in R4, which is below the length.
fn emit_stored(place: ArrayPlace, list: ListPlace, code: &mut Vec<Form>) -> Result<(), AllocError>
    ensures { OnOk result (code.new.items ≡ code.old.items ++ stored_code place list) }
{
    emit_copy(place, list, code)?;
    emit_first(place, list, code)
}

// A versioned write, by whether the index in R4 is surely below the length.
#[tactic(auto, using(std::proofs::Common::append_assoc))]
fn emit_write(
    inside: bool,
    place: ArrayPlace,
    list: ListPlace,
    code: &mut Vec<Form>,
) -> Result<(), AllocError>
    ensures code { OnOk result (code.new.items ≡ code.old.items ++ write_code inside place list) }
    ensures of_words { OnOk result (ArrayOfWords place × ListOfWords list) }
{
    if inside {
        return emit_stored(place, list, code);
    }
    emit_check(place.length, 54, code)?;
    emit_stored(place, list, code)
}

/// Appends the code of a versioned write.
#[tactic(auto, using(std::proofs::Common::append_assoc))]
pub fn emit_versioned_write(
    bounds: &[Bound],
    place: ArrayPlace,
    list: ListPlace,
    waiting: &mut Vec<Waiting>,
    code: &mut Vec<Form>,
) -> Result<(), AllocError>
    ensures code { OnOk result (code.new.items ≡ code.old.items ++ step_code bounds.now waiting.old.items (value.versioned_write place list)) }
    ensures waiting { OnOk result (waiting.new.items ≡ []) }
    ensures of_words { OnOk result (ArrayOfWords place × ListOfWords list) }
{
    let inside = is_inside(bounds, under_top(waiting), place.length);
    emit_two_to_registers(waiting, code)?;
    emit_all(waiting, code)?;
    emit_write(inside, place, list, code)
}
