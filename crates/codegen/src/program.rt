//! The code of programs.

ghost use Rattle.std.specs.Prelude.{◌≡◌, [], ◌++◌, ◌+◌, ◌<◌, ◌≤◌, if◌then◌else◌, OnOk, OnErr};
ghost use Rattle.word_code.specs.array_versions.Program as value;
ghost use Rattle.word_code.specs.array_versions.View.{program_of, steps_of, step_of, test_of};
ghost use Rattle.word_code.specs.array_versions.Form.{LocalsBelow, StepLocalsBelow, TestLocalsBelow, OfWords, StepOfWords, TestOfWords};
ghost use Rattle.word_code.specs.array_versions.Cost.{words_of, step_words, test_words};
ghost use Rattle.word_code.specs.Code.{block_code, code_of, routine_code, step_code, steps_code, test_code, truth_code, waiting_behind, waiting_after};

use crate::bounds::bounds_within;
use crate::calls::{emit_call, emit_give};
use crate::decisions::{code_words, emit_compares, emit_holds, emit_jump_back, emit_pass_over};
use crate::in_place::emit_versioned_update;
use crate::locals::{emit_stack_set, steps_locals};
use crate::logged::{emit_logged_update, emit_logged_write};
use crate::longs::emit_long;
use crate::operations::{emit_binary, emit_unary};
use crate::shifts::emit_shift;
use crate::steps::{
    emit_element, emit_emit, emit_entry, emit_freeze_events, emit_jump, emit_keep, emit_local,
    emit_move_word, emit_next_event, emit_number, emit_sense, emit_set_local, emit_store,
    emit_turn_end, emit_update, emit_update_local,
};
use crate::versioned::{emit_versioned_read, emit_versioned_write};
use crate::waiting::{emit_all, emit_flushed, wait};
use array_versions::{WordProgram, WordStep, WordTest};
use std::alloc::{AllocError, Global};
use word_code::forms::Form::Push;
use word_code::forms::Source::Constant;
use word_code::forms::{Condition, Form, Konst, jump};
use word_code::{Bound, Waiting};

// Behind a test: 1 where it holds, else 0.
fn emit_truth_code(code: &mut Vec<Form>) -> Result<(), AllocError>
    ensures { OnOk result (code.new.items ≡ code.old.items ++ truth_code) }
{
    code.extend_from_slice(&[
        Push(Constant(Konst::One)),
        jump(Condition::Always, 1),
        Push(Constant(Konst::Zero)),
    ])
}

/// So many words where the flag is set, else none.
pub fn words_if(flag: bool, words: u16) -> u16
    ensures { result ≡ (if flag then words else 0) }
{
    if flag { words } else { 0 }
}

/// Appends the code of a test, which goes over so many words behind it where the test's truth is the flag.
#[cycle(emit)]
pub fn emit_test(
    alloc: Global,
    bounds: &[Bound],
    test: &WordTest,
    when: bool,
    over: u16,
    code: &mut Vec<Form>,
) -> Result<(), AllocError>
    requires room { over + test_words (test_of test.now) ≤ 0x7FFF }
    requires locals { TestLocalsBelow 1016 (test_of test.now) }
    ensures code { OnOk result (code.new.items ≡ code.old.items ++ test_code bounds.now (test_of test.now) when over) }
    ensures of_words { OnOk result (TestOfWords (test_of test.now)) }
{
    match test {
        WordTest::Holds(steps) => {
            let mut waiting = Vec::new(alloc);
            emit_steps(alloc, bounds, steps, &mut waiting, code)?;
            emit_holds(when, over, &mut waiting, code)
        }
        WordTest::Compares(comparison, steps) => {
            let mut waiting = Vec::new(alloc);
            emit_steps(alloc, bounds, steps, &mut waiting, code)?;
            emit_compares(*comparison, when, over, &mut waiting, code)
        }
        WordTest::Both(first, second) => {
            let mut behind = Vec::new(alloc);
            emit_test(alloc, bounds, second, when, over, &mut behind)?;
            let further = code_words(&behind) + words_if(!when, over);
            emit_test(alloc, bounds, first, false, further, code)?;
            code.extend_from_slice(&behind)
        }
        WordTest::Either(first, second) => {
            let mut behind = Vec::new(alloc);
            emit_test(alloc, bounds, second, when, over, &mut behind)?;
            let further = code_words(&behind) + words_if(when, over);
            emit_test(alloc, bounds, first, true, further, code)?;
            code.extend_from_slice(&behind)
        }
        WordTest::Fails(test) => emit_test(alloc, bounds, test, !when, over, code),
    }
}

// The truth of a test.
#[cycle(emit)]
fn emit_truth(
    alloc: Global,
    bounds: &[Bound],
    test: &WordTest,
    waiting: &mut Vec<Waiting>,
    code: &mut Vec<Form>,
) -> Result<(), AllocError>
    requires room { step_words (value.truth (test_of test.now)) ≤ 0x7FFF }
    requires locals { TestLocalsBelow 1016 (test_of test.now) }
    ensures code { OnOk result (code.new.items ≡ code.old.items ++ step_code bounds.now waiting.old.items (value.truth (test_of test.now))) }
    ensures waiting { OnOk result (waiting.new.items ≡ []) }
    ensures of_words { OnOk result (TestOfWords (test_of test.now)) }
{
    emit_all(waiting, code)?;
    emit_test(alloc, bounds, test, false, 2, code)?;
    emit_truth_code(code)
}

// A loop, by the bound in its body. The body of one that makes no turn is made, too: its words are learned by that.
#[cycle(emit)]
fn emit_loop(
    alloc: Global,
    bounds: &[Bound],
    own: Bound,
    from: u16,
    body: &[WordStep],
    waiting: &mut Vec<Waiting>,
    code: &mut Vec<Form>,
) -> Result<(), AllocError>
    requires room { step_words (value.repeat own.local from own.below (steps_of body.now)) ≤ 0x7FFF }
    requires low { own.local < 1016 }
    requires locals { LocalsBelow 1016 (steps_of body.now) }
    ensures code { OnOk result (code.new.items
        ≡ code.old.items ++ step_code bounds.now waiting.old.items (value.repeat own.local from own.below (steps_of body.now))) }
    ensures waiting { OnOk result (waiting.new.items ≡ []) }
    ensures of_words { OnOk result (OfWords (steps_of body.now)) }
{
    emit_all(waiting, code)?;
    let inner = bounds_within(alloc, own, bounds)?;
    let mut turn = Vec::new(alloc);
    emit_block(alloc, &inner, body, &mut turn)?;
    emit_turn_end(own, &mut turn)?;
    emit_number(own.local, from, code)?;
    if from < own.below {
        code.extend_from_slice(&turn)?;
        let over = code_words(&turn);
        emit_jump_back(Condition::NotEqual, Condition::Equal, over, code)
    } else {
        Ok(())
    }
}

/// Appends the code of a step; the words that wait in front of it become those that wait behind it.
#[cycle(emit)]
pub fn emit_step(
    alloc: Global,
    bounds: &[Bound],
    step: &WordStep,
    waiting: &mut Vec<Waiting>,
    code: &mut Vec<Form>,
) -> Result<(), AllocError>
    requires room { step_words (step_of step.now) ≤ 0x7FFF }
    requires locals { StepLocalsBelow 1016 (step_of step.now) }
    ensures code { OnOk result (code.new.items ≡ code.old.items ++ step_code bounds.now waiting.old.items (step_of step.now)) }
    ensures waiting { OnOk result (waiting.new.items ≡ waiting_behind waiting.old.items (step_of step.now)) }
    ensures of_words { OnOk result (StepOfWords (step_of step.now)) }
{
    match step {
        WordStep::Number(word) => wait(Waiting::Number(*word), waiting),
        WordStep::Load(address) => wait(Waiting::Fram(*address), waiting),
        WordStep::Keep(address) => emit_keep(*address, waiting, code),
        WordStep::Update(operation, address) => emit_update(*operation, *address, waiting, code),
        WordStep::Local(n) => emit_local(*n, waiting, code),
        WordStep::SetLocal(n) => emit_set_local(*n, waiting, code),
        WordStep::UpdateLocal(operation, n) => emit_update_local(*operation, *n, waiting, code),
        WordStep::Unary(operation) => emit_unary(*operation, waiting, code),
        WordStep::Binary(operation) => emit_binary(*operation, waiting, code),
        WordStep::Shift(operation, count) => emit_shift(*operation, *count, waiting, code),
        WordStep::Long(operation) => emit_long(*operation, waiting, code),
        WordStep::Element { base, length } => emit_element(bounds, *base, *length, waiting, code),
        WordStep::EmitWord { count, buffer } => emit_emit(*count, *buffer, waiting, code),
        WordStep::VersionedRead(place, list) => {
            emit_versioned_read(bounds, *place, *list, waiting, code)
        }
        WordStep::VersionedWrite(place, list) => {
            emit_versioned_write(bounds, *place, *list, waiting, code)
        }
        WordStep::VersionedUpdate(operation, place, list) => {
            emit_versioned_update(alloc, bounds, *operation, *place, *list, waiting, code)
        }
        WordStep::LoggedWrite(place, list) => {
            emit_logged_write(bounds, *place, *list, waiting, code)
        }
        WordStep::LoggedUpdate(operation, place, list) => {
            emit_logged_update(bounds, *operation, *place, *list, waiting, code)
        }
        WordStep::Sense => emit_sense(waiting, code),
        WordStep::NextEvent => emit_next_event(waiting, code),
        WordStep::FreezeEvents => emit_freeze_events(waiting, code),
        WordStep::ListEntry {
            count,
            list,
            home,
            copy,
            words,
        } => emit_entry(*count, *list, *home, *copy, *words, waiting, code),
        WordStep::Truth(test) => emit_truth(alloc, bounds, test, waiting, code),
        WordStep::Choose(test, taken, otherwise) => {
            emit_all(waiting, code)?;
            let mut other = Vec::new(alloc);
            emit_block(alloc, bounds, otherwise, &mut other)?;
            let mut first = Vec::new(alloc);
            emit_block(alloc, bounds, taken, &mut first)?;
            emit_pass_over(code_words(&other), &mut first)?;
            emit_test(alloc, bounds, test, false, code_words(&first), code)?;
            code.extend_from_slice(&first)?;
            code.extend_from_slice(&other)
        }
        WordStep::Repeat {
            local,
            from,
            below,
            body,
        } => {
            let own = Bound {
                local: *local,
                below: *below,
            };
            emit_loop(alloc, bounds, own, *from, body, waiting, code)
        }
        WordStep::StoreNumber { address, word } => emit_store(*address, *word, waiting, code),
        WordStep::MoveWord { from, to } => emit_move_word(*from, *to, waiting, code),
        WordStep::Jump(to) => emit_jump(*to, waiting, code),
        WordStep::Call {
            entry,
            frame,
            first,
            count,
        } => emit_call(*entry, *frame, *first, *count, waiting, code),
        WordStep::Give => emit_give(waiting, code),
    }
}

// Steps, one after another.
#[cycle(emit)]
fn emit_steps(
    alloc: Global,
    bounds: &[Bound],
    steps: &[WordStep],
    waiting: &mut Vec<Waiting>,
    code: &mut Vec<Form>,
) -> Result<(), AllocError>
    requires room { words_of (steps_of steps.now) ≤ 0x7FFF }
    requires locals { LocalsBelow 1016 (steps_of steps.now) }
    ensures code { OnOk result (code.new.items ≡ code.old.items ++ steps_code bounds.now waiting.old.items (steps_of steps.now)) }
    ensures waiting { OnOk result (waiting.new.items ≡ waiting_after waiting.old.items (steps_of steps.now)) }
    ensures of_words { OnOk result (OfWords (steps_of steps.now)) }
{
    for step in steps {
        emit_step(alloc, bounds, step, waiting, code)?;
    }
    Ok(())
}

/// Appends the code of steps with no word waiting in front of them or behind them.
#[cycle(emit)]
pub fn emit_block(
    alloc: Global,
    bounds: &[Bound],
    steps: &[WordStep],
    code: &mut Vec<Form>,
) -> Result<(), AllocError>
    requires room { words_of (steps_of steps.now) ≤ 0x7FFF }
    requires locals { LocalsBelow 1016 (steps_of steps.now) }
    ensures code { OnOk result (code.new.items ≡ code.old.items ++ block_code bounds.now (steps_of steps.now)) }
    ensures of_words { OnOk result (OfWords (steps_of steps.now)) }
{
    let mut waiting = Vec::new(alloc);
    emit_steps(alloc, bounds, steps, &mut waiting, code)?;
    emit_flushed(&waiting, code)
}

/// Appends the code of a program, which may stand at any address. Without memory for it the code stays as it was. It does what the program does where
/// that is whole, with the bodies of what it calls: each of its ways ends in a jump, takes no word from an empty stack and reads no local before it is
/// assigned, and RAM from 1C20 to 23FF has room for its locals, its stack and what it calls. Locals from the ninth on stand in RAM, down from 23FE; SP
/// is 2400 where the code is entered, and is first set below them.
pub fn emit(alloc: Global, program: &WordProgram, code: &mut Vec<Form>) -> Result<(), AllocError>
    requires room { words_of (program_of program.now) ≤ 0x7FFF }
    requires locals { LocalsBelow 1016 (program_of program.now) }
    ensures code { OnOk result (code.new.items ≡ code.old.items ++ code_of (program_of program.now)) }
    ensures of_words { OnOk result (OfWords (program_of program.now)) }
    ensures err { OnErr result (code.new.items ≡ code.old.items) }
{
    let mut own = Vec::new(alloc);
    emit_stack_set(steps_locals(&program.steps), &mut own)?;
    emit_block(alloc, &[], &program.steps, &mut own)?;
    code.extend_from_slice(&own)
}

/// Appends the code of a function's body, which may stand at any address. Without memory for it the code stays as it was.
pub fn emit_routine(
    alloc: Global,
    body: &WordProgram,
    code: &mut Vec<Form>,
) -> Result<(), AllocError>
    requires room { words_of (program_of body.now) ≤ 0x7FFF }
    requires locals { LocalsBelow 1016 (program_of body.now) }
    ensures code { OnOk result (code.new.items ≡ code.old.items ++ routine_code (program_of body.now)) }
    ensures of_words { OnOk result (OfWords (program_of body.now)) }
    ensures err { OnErr result (code.new.items ≡ code.old.items) }
{
    let mut own = Vec::new(alloc);
    emit_block(alloc, &[], &body.steps, &mut own)?;
    code.extend_from_slice(&own)
}
