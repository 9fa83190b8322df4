//! The code of steps that are no test, no choice and no loop.

ghost use Rattle.std.specs.Prelude.{◌≡◌, [], ◌∷◌, ◌++◌, ◌<◌, OnOk};
ghost use Rattle.word_code.specs.code_forms.Forms as form;
ghost use Rattle.word_code.specs.msp_isa.alp_words.declared.Width.TheVariants.{Word};
ghost use Rattle.word_code.specs.array_versions.Program as value;
ghost use Rattle.word_code.specs.Code.{known_element, fetch_code, element_code, emit_code, words_source, entry_code, number_code, plain_instruction};
ghost use Rattle.word_code.specs.Code.{ram_update, update_code, turn_end, step_code, waiting_behind, index_code, offset_code, look_code, answer_code};

use crate::bounds::{emit_check, emit_zero, is_inside};
use crate::forms::{local_address, local_register, local_target, number_source};
use crate::operations::plain_instruction;
use crate::waiting::{
    emit_all, emit_below, emit_cleared, emit_spared, emit_top_to_five, emit_top_to_four,
    source_from, take, top, top_number, wait,
};
use array_versions::PlainOperation;
use event_places::{ANSWER, EVENT_COUNT, RING_SLOTS, SENT_TAIL, TAIL};
use std::alloc::AllocError;
use word_code::forms::Form::{Branch, Calculate, Move, Push, Sense, Update};
use word_code::forms::Source::{Constant, Fram, Head, Indexed, Number, Ram, Register, Slot};
use word_code::forms::Target::{ToFram, ToIndexed, ToRam, ToRegister};
use word_code::forms::WorkRegister::{R4, R5, R6};
use word_code::forms::{Condition, Form, Konst, Source, TwoOp, jump};
use word_code::{Bound, Waiting};

// The element at the index in R4, which is below the length.
fn emit_fetch(base: u16, code: &mut Vec<Form>) -> Result<(), AllocError>
    ensures { OnOk result (code.new.items ≡ code.old.items ++ fetch_code base) }
{
    code.extend_from_slice(&[
        Calculate(TwoOp::Add, Register(R4), R4),
        Move(Indexed(R4, base), ToRegister(R4)),
    ])
}

// An element, by whether the index in R4 is surely below the length.
#[tactic(auto, using(std::proofs::Common::append_assoc))]
fn emit_indexed(
    inside: bool,
    base: u16,
    length: u16,
    code: &mut Vec<Form>,
) -> Result<(), AllocError>
    ensures { OnOk result (code.new.items ≡ code.old.items ++ element_code inside base length) }
{
    if inside {
        return emit_fetch(base, code);
    }
    emit_check(length, 4, code)?;
    emit_fetch(base, code)?;
    emit_zero(code)
}

// The element of an array at a number is a word of FRAM, or 0.
fn known_element(base: u16, length: u16, index: u16) -> Waiting
    ensures { result ≡ known_element base length index }
{
    if index < length {
        Waiting::Fram(base.wrapping_add(index.wrapping_add(index)))
    } else {
        Waiting::Number(0)
    }
}

/// Appends the code of an element of an array.
pub fn emit_element(
    bounds: &[Bound],
    base: u16,
    length: u16,
    waiting: &mut Vec<Waiting>,
    code: &mut Vec<Form>,
) -> Result<(), AllocError>
    ensures code { OnOk result (code.new.items ≡ code.old.items ++ step_code bounds.now waiting.old.items (value.element base length)) }
    ensures waiting { OnOk result (waiting.new.items ≡ waiting_behind waiting.old.items (value.element base length)) }
{
    let inside = is_inside(bounds, top(waiting), length);
    match top_number(waiting) {
        Some(index) => {
            take(waiting);
            wait(known_element(base, length, index), waiting)
        }
        None => {
            emit_top_to_four(waiting, code)?;
            emit_indexed(inside, base, length, code)?;
            wait(Waiting::R4, waiting)
        }
    }
}

// The word in R5 behind those that are counted, then the count.
fn emit_counted(count: u16, buffer: u16, code: &mut Vec<Form>) -> Result<(), AllocError>
    ensures { OnOk result (code.new.items ≡ code.old.items ++ emit_code count buffer) }
{
    code.extend_from_slice(&[
        Move(Fram(count), ToRegister(R6)),
        Move(Register(R6), ToRegister(R4)),
        Calculate(TwoOp::Add, Register(R6), R4),
        Move(Register(R5), ToIndexed(R4, buffer)),
        Calculate(TwoOp::Add, Constant(Konst::One), R6),
        Move(Register(R6), ToFram(count)),
    ])
}

/// Appends the code of a word that is emitted.
#[tactic(auto, using(std::proofs::Common::append_assoc))]
pub fn emit_emit(
    count: u16,
    buffer: u16,
    waiting: &mut Vec<Waiting>,
    code: &mut Vec<Form>,
) -> Result<(), AllocError>
    ensures code { OnOk result (code.new.items ≡ code.old.items ++ step_code [] waiting.old.items (value.emit_word count buffer)) }
    ensures waiting { OnOk result (waiting.new.items ≡ []) }
{
    emit_top_to_five(waiting, code)?;
    emit_all(waiting, code)?;
    emit_counted(count, buffer, code)
}

// How many words a run has, as a source: 1 takes no word of its own.
fn words_source(words: u16) -> Source
    ensures { result ≡ words_source words }
{
    match words {
        1 => Constant(Konst::One),
        words => Number(words),
    }
}

// An entry of the commit list.
fn emit_listed(
    count: u16,
    list: u16,
    home: u16,
    copy: u16,
    words: u16,
    code: &mut Vec<Form>,
) -> Result<(), AllocError>
    ensures { OnOk result (code.new.items ≡ code.old.items ++ entry_code count list home copy words) }
{
    let second = list.wrapping_add(2);
    let third = list.wrapping_add(4);
    code.extend_from_slice(&[
        Move(Fram(count), ToRegister(R6)),
        Move(Register(R6), ToRegister(R4)),
        Calculate(TwoOp::Add, Register(R4), R4),
        Calculate(TwoOp::Add, Register(R6), R4),
        Calculate(TwoOp::Add, Register(R4), R4),
        Move(Number(home), ToIndexed(R4, list)),
        Move(Number(copy), ToIndexed(R4, second)),
        Move(words_source(words), ToIndexed(R4, third)),
        Update(TwoOp::Add, Constant(Konst::One), count),
    ])
}

/// Appends the code of an entry of the commit list.
#[tactic(auto, using(std::proofs::Common::append_assoc))]
pub fn emit_entry(
    count: u16,
    list: u16,
    home: u16,
    copy: u16,
    words: u16,
    waiting: &mut Vec<Waiting>,
    code: &mut Vec<Form>,
) -> Result<(), AllocError>
    ensures code { OnOk result (code.new.items ≡ code.old.items ++ step_code [] waiting.old.items (value.list_entry count list home copy words)) }
    ensures waiting { OnOk result (waiting.new.items ≡ []) }
{
    emit_all(waiting, code)?;
    emit_listed(count, list, home, copy, words, code)
}

/// Appends the code that makes a local a number.
pub fn emit_number(n: u16, number: u16, code: &mut Vec<Form>) -> Result<(), AllocError>
    requires { n < 1016 }
    ensures { OnOk result (code.new.items ≡ code.old.items ++ number_code n number) }
{
    code.extend_from_slice(&[Move(number_source(number), local_target(n))])
}

/// Appends the end of a turn: the local goes up by one, and is compared with the number.
pub fn emit_turn_end(bound: Bound, code: &mut Vec<Form>) -> Result<(), AllocError>
    requires { bound.local < 1016 }
    ensures { OnOk result (code.new.items ≡ code.old.items ++ turn_end bound.local bound.below) }
{
    let end = number_source(bound.below);
    if bound.local < 8 {
        let local = local_register(bound.local);
        code.extend_from_slice(&[
            Calculate(TwoOp::Add, Constant(Konst::One), local),
            Calculate(TwoOp::Cmp, end, local),
        ])
    } else {
        let place = local_address(bound.local);
        code.extend_from_slice(&[
            Move(Ram(place), ToRegister(R4)),
            Calculate(TwoOp::Add, Constant(Konst::One), R4),
            Move(Register(R4), ToRam(place)),
            Calculate(TwoOp::Cmp, end, R4),
        ])
    }
}

// One form.
fn emit_one(form: Form, code: &mut Vec<Form>) -> Result<(), AllocError>
    ensures { OnOk result (code.new.items ≡ code.old.items ++ form ∷ []) }
{
    code.extend_from_slice(&[form])
}

/// Appends the code of a local that is pushed: it waits where it stands in a register.
#[tactic(auto, using(std::proofs::Common::append_assoc))]
pub fn emit_local(
    n: u16,
    waiting: &mut Vec<Waiting>,
    code: &mut Vec<Form>,
) -> Result<(), AllocError>
    requires { n < 1016 }
    ensures code { OnOk result (code.new.items ≡ code.old.items ++ step_code [] waiting.old.items (value.local n)) }
    ensures waiting { OnOk result (waiting.new.items ≡ waiting_behind waiting.old.items (value.local n)) }
{
    if n < 8 {
        return wait(Waiting::Local(n), waiting);
    }
    emit_all(waiting, code)?;
    emit_one(Push(Ram(local_address(n))), code)
}

/// Appends the code of a word that is kept.
#[tactic(auto, using(std::proofs::Common::append_assoc))]
pub fn emit_keep(
    address: u16,
    waiting: &mut Vec<Waiting>,
    code: &mut Vec<Form>,
) -> Result<(), AllocError>
    ensures code { OnOk result (code.new.items ≡ code.old.items ++ step_code [] waiting.old.items (value.keep address)) }
    ensures waiting { OnOk result (waiting.new.items ≡ waiting_behind waiting.old.items (value.keep address)) }
{
    let top = take(waiting);
    emit_spared(address, waiting, code)?;
    emit_one(Move(source_from(top), ToFram(address)), code)
}

/// Appends the code of an operation on a word of FRAM.
#[tactic(auto, using(std::proofs::Common::append_assoc))]
pub fn emit_update(
    operation: PlainOperation,
    address: u16,
    waiting: &mut Vec<Waiting>,
    code: &mut Vec<Form>,
) -> Result<(), AllocError>
    ensures code { OnOk result (code.new.items ≡ code.old.items ++ step_code [] waiting.old.items (value.update operation address)) }
    ensures waiting { OnOk result (waiting.new.items ≡ []) }
{
    let source = emit_below(waiting, code)?;
    let op = plain_instruction(operation);
    emit_one(Update(op, source, address), code)
}

/// Appends the code of a local that is assigned.
#[tactic(auto, using(std::proofs::Common::append_assoc))]
pub fn emit_set_local(
    n: u16,
    waiting: &mut Vec<Waiting>,
    code: &mut Vec<Form>,
) -> Result<(), AllocError>
    requires { n < 1016 }
    ensures code { OnOk result (code.new.items ≡ code.old.items ++ step_code [] waiting.old.items (value.set_local n)) }
    ensures waiting { OnOk result (waiting.new.items ≡ []) }
{
    let source = emit_below(waiting, code)?;
    emit_one(Move(source, local_target(n)), code)
}

// A local in RAM becomes what an operation gives of it and of a word.
fn emit_ram_update(
    operation: PlainOperation,
    n: u16,
    source: Source,
    code: &mut Vec<Form>,
) -> Result<(), AllocError>
    requires { n < 1016 }
    ensures { OnOk result (code.new.items ≡ code.old.items ++ ram_update operation n source) }
{
    let place = local_address(n);
    code.extend_from_slice(&[
        Move(source, ToRegister(R5)),
        Move(Ram(place), ToRegister(R4)),
        Calculate(plain_instruction(operation), Register(R5), R4),
        Move(Register(R4), ToRam(place)),
    ])
}

// Any local becomes that.
fn emit_updated(
    operation: PlainOperation,
    n: u16,
    source: Source,
    code: &mut Vec<Form>,
) -> Result<(), AllocError>
    requires { n < 1016 }
    ensures { OnOk result (code.new.items ≡ code.old.items ++ update_code operation n source) }
{
    if n < 8 {
        let operation = plain_instruction(operation);
        code.extend_from_slice(&[Calculate(operation, source, local_register(n))])
    } else {
        emit_ram_update(operation, n, source, code)
    }
}

/// Appends the code of an operation on a local.
#[tactic(auto, using(std::proofs::Common::append_assoc))]
pub fn emit_update_local(
    operation: PlainOperation,
    n: u16,
    waiting: &mut Vec<Waiting>,
    code: &mut Vec<Form>,
) -> Result<(), AllocError>
    requires { n < 1016 }
    ensures code { OnOk result (code.new.items ≡ code.old.items ++ step_code [] waiting.old.items (value.update_local operation n)) }
    ensures waiting { OnOk result (waiting.new.items ≡ []) }
{
    let source = emit_below(waiting, code)?;
    emit_updated(operation, n, source, code)
}

/// Appends the code that takes the next reading.
#[tactic(auto, using(std::proofs::Common::append_assoc))]
pub fn emit_sense(waiting: &mut Vec<Waiting>, code: &mut Vec<Form>) -> Result<(), AllocError>
    ensures code { OnOk result (code.new.items ≡ code.old.items ++ step_code [] waiting.old.items value.sense) }
    ensures waiting { OnOk result (waiting.new.items ≡ waiting_behind waiting.old.items value.sense) }
{
    emit_cleared(waiting, code)?;
    emit_one(Sense(R4), code)?;
    wait(Waiting::R4, waiting)
}

// The index of the next word of the ring, in R4: TAIL, and how many words the attempt has taken.
fn emit_index(code: &mut Vec<Form>) -> Result<(), AllocError>
    ensures { OnOk result (code.new.items ≡ code.old.items ++ index_code) }
{
    code.extend_from_slice(&[
        Move(Fram(TAIL), ToRegister(R4)),
        Calculate(TwoOp::Add, Fram(EVENT_COUNT), R4),
    ])
}

// The offset of its slot, in R5.
fn emit_offset(code: &mut Vec<Form>) -> Result<(), AllocError>
    ensures { OnOk result (code.new.items ≡ code.old.items ++ offset_code) }
{
    code.extend_from_slice(&[
        Move(Register(R4), ToRegister(R5)),
        Calculate(TwoOp::And, Number(RING_SLOTS - 1), R5),
        Calculate(TwoOp::Add, Register(R5), R5),
    ])
}

// The word of the slot, in R4; 0 where the index is HEAD.
fn emit_look(code: &mut Vec<Form>) -> Result<(), AllocError>
    ensures { OnOk result (code.new.items ≡ code.old.items ++ look_code) }
{
    code.extend_from_slice(&[
        Calculate(TwoOp::Cmp, Head, R4),
        Move(Slot(R5), ToRegister(R4)),
        jump(Condition::NotEqual, 1),
        Move(Constant(Konst::Zero), ToRegister(R4)),
    ])
}

// The answer, in R4, is stored, and a word counted that the attempt has taken.
fn emit_answer(code: &mut Vec<Form>) -> Result<(), AllocError>
    ensures { OnOk result (code.new.items ≡ code.old.items ++ answer_code) }
{
    code.extend_from_slice(&[
        Move(Register(R4), ToFram(ANSWER)),
        jump(Condition::Equal, 2),
        Update(TwoOp::Add, Constant(Konst::One), EVENT_COUNT),
    ])
}

/// Appends the code that takes the next word of the ring, or 0 where none waits.
#[tactic(auto, using(std::proofs::Common::append_assoc))]
pub fn emit_next_event(waiting: &mut Vec<Waiting>, code: &mut Vec<Form>) -> Result<(), AllocError>
    ensures code { OnOk result (code.new.items ≡ code.old.items ++ step_code [] waiting.old.items value.next_event) }
    ensures waiting { OnOk result (waiting.new.items ≡ waiting_behind waiting.old.items value.next_event) }
{
    emit_all(waiting, code)?;
    emit_index(code)?;
    emit_offset(code)?;
    emit_look(code)?;
    emit_answer(code)?;
    wait(Waiting::R4, waiting)
}

/// Appends the code that stores the index of the next word of the ring as the one that the transition leaves.
#[tactic(auto, using(std::proofs::Common::append_assoc))]
pub fn emit_freeze_events(
    waiting: &mut Vec<Waiting>,
    code: &mut Vec<Form>,
) -> Result<(), AllocError>
    ensures code { OnOk result (code.new.items ≡ code.old.items ++ step_code [] waiting.old.items value.freeze_events) }
    ensures waiting { OnOk result (waiting.new.items ≡ []) }
{
    emit_all(waiting, code)?;
    emit_index(code)?;
    emit_one(Move(Register(R4), ToFram(SENT_TAIL)), code)
}

/// Appends the code that stores a number.
#[tactic(auto, using(std::proofs::Common::append_assoc))]
pub fn emit_store(
    address: u16,
    word: u16,
    waiting: &mut Vec<Waiting>,
    code: &mut Vec<Form>,
) -> Result<(), AllocError>
    ensures code { OnOk result (code.new.items ≡ code.old.items ++ step_code [] waiting.old.items (value.store_number address word)) }
    ensures waiting { OnOk result (waiting.new.items ≡ []) }
{
    emit_all(waiting, code)?;
    emit_one(Move(number_source(word), ToFram(address)), code)
}

/// Appends the code that copies a word of FRAM.
#[tactic(auto, using(std::proofs::Common::append_assoc))]
pub fn emit_move_word(
    from: u16,
    to: u16,
    waiting: &mut Vec<Waiting>,
    code: &mut Vec<Form>,
) -> Result<(), AllocError>
    ensures code { OnOk result (code.new.items ≡ code.old.items ++ step_code [] waiting.old.items (value.move_word from to)) }
    ensures waiting { OnOk result (waiting.new.items ≡ []) }
{
    emit_all(waiting, code)?;
    emit_one(Move(Fram(from), ToFram(to)), code)
}

/// Appends the code of a jump.
#[tactic(auto, using(std::proofs::Common::append_assoc))]
pub fn emit_jump(
    to: u16,
    waiting: &mut Vec<Waiting>,
    code: &mut Vec<Form>,
) -> Result<(), AllocError>
    ensures code { OnOk result (code.new.items ≡ code.old.items ++ step_code [] waiting.old.items (value.jump to)) }
    ensures waiting { OnOk result (waiting.new.items ≡ []) }
{
    emit_all(waiting, code)?;
    emit_one(Branch(to), code)
}
