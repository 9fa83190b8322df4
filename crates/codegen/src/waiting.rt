//! Words that wait to be pushed: what an instruction names in place of the words on top of the stack, the top first.

ghost use Rattle.std.specs.Prelude.{◌≡◌, [], ◌∷◌, ◌++◌, if◌then◌else◌, OnOk, IfOk};
ghost use Rattle.word_code.specs.declared.waiting.Waiting.TheVariants as words;
ghost use Rattle.word_code.specs.Code as made;
ghost use Rattle.word_code.specs.Code.{flushed, top_of, below_top, is_held, any_held, cleared, kept, is_at, any_at, spared, sparing, four_from, five_from};
ghost use Rattle.word_code.specs.Code.{top_to_four, top_to_five};
ghost use Rattle.word_code.specs.Code.{two_to_registers, stays, right_source, sides, power, top_number, top_power, top_mask, rests, rest_source, to_rest};

use crate::forms::{local_register, number_source};
use std::alloc::AllocError;
use word_code::Waiting;
use word_code::forms::Form::{Move, Push};
use word_code::forms::Source::{Fram, Popped, Register};
use word_code::forms::Target::ToRegister;
use word_code::forms::WorkRegister::{R4, R5, R6};
use word_code::forms::{Form, Source};

/// A word that waits, as a source.
pub fn waiting_source(word: Waiting) -> Source
    ensures { result ≡ made.waiting_source word }
{
    match word {
        Waiting::Number(number) => number_source(number),
        Waiting::Fram(address) => Fram(address),
        Waiting::Local(n) => Register(local_register(n)),
        Waiting::R4 => Register(R4),
        Waiting::R6 => Register(R6),
    }
}

/// The top as a source: where it doesn't wait it is popped.
pub fn source_from(top: Option<Waiting>) -> Source
    ensures { result ≡ made.source_from top }
{
    match top {
        None => Popped,
        Some(word) => waiting_source(word),
    }
}

/// Takes the top, where it waits.
pub fn take(waiting: &mut Vec<Waiting>) -> Option<Waiting>
    ensures top { result ≡ top_of waiting.old.items }
    ensures below { waiting.new.items ≡ below_top waiting.old.items }
{
    if waiting.is_empty() {
        None
    } else {
        Some(waiting.remove(0))
    }
}

/// One more word waits.
pub fn wait(word: Waiting, waiting: &mut Vec<Waiting>) -> Result<(), AllocError>
    ensures { OnOk result (waiting.new.items ≡ word ∷ waiting.old.items) }
{
    waiting.insert(0, word)?;
    Ok(())
}

// A word waits in a register for work.
fn is_held(word: Waiting) -> bool
    ensures { result ≡ is_held word }
{
    match word {
        Waiting::R4 | Waiting::R6 => true,
        Waiting::Number(_) | Waiting::Fram(_) | Waiting::Local(_) => false,
    }
}

// So does one of them.
fn any_held(waiting: &[Waiting]) -> bool
    ensures { result ≡ any_held waiting.now }
{
    waiting.iter().any(|word| is_held(*word))
}

/// Appends the code that pushes all words that wait, the lowest first.
pub fn emit_flushed(waiting: &[Waiting], code: &mut Vec<Form>) -> Result<(), AllocError>
    ensures { OnOk result (code.new.items ≡ code.old.items ++ flushed waiting.now) }
{
    for i in 0..waiting.len() {
        let word = waiting[waiting.len() - 1 - i];
        code.extend_from_slice(&[Push(waiting_source(word))])?;
    }
    Ok(())
}

/// Appends that code, and behind it no word waits.
pub fn emit_all(waiting: &mut Vec<Waiting>, code: &mut Vec<Form>) -> Result<(), AllocError>
    ensures code { OnOk result (code.new.items ≡ code.old.items ++ flushed waiting.old.items) }
    ensures waiting { OnOk result (waiting.new.items ≡ []) }
{
    emit_flushed(waiting, code)?;
    waiting.clear();
    Ok(())
}

/// The same where one of them waits in a register for work.
pub fn emit_cleared(waiting: &mut Vec<Waiting>, code: &mut Vec<Form>) -> Result<(), AllocError>
    ensures code { OnOk result (code.new.items ≡ code.old.items ++ cleared waiting.old.items) }
    ensures waiting { OnOk result (waiting.new.items ≡ kept waiting.old.items) }
{
    if any_held(waiting) {
        emit_all(waiting, code)
    } else {
        Ok(())
    }
}

// The word that waits is the one of FRAM at this address.
fn is_at(address: u16, word: Waiting) -> bool
    ensures { result ≡ is_at address word }
{
    match word {
        Waiting::Fram(other) => address == other,
        Waiting::Number(_) | Waiting::Local(_) | Waiting::R4 | Waiting::R6 => false,
    }
}

// So is one of them.
fn any_at(address: u16, waiting: &[Waiting]) -> bool
    ensures { result ≡ any_at address waiting.now }
{
    waiting.iter().any(|word| is_at(address, *word))
}

/// Appends the code that pushes all words that wait where one of them is the word of FRAM at this address, which is stored next.
pub fn emit_spared(
    address: u16,
    waiting: &mut Vec<Waiting>,
    code: &mut Vec<Form>,
) -> Result<(), AllocError>
    ensures code { OnOk result (code.new.items ≡ code.old.items ++ spared address waiting.old.items) }
    ensures waiting { OnOk result (waiting.new.items ≡ sparing address waiting.old.items) }
{
    if any_at(address, waiting) {
        emit_all(waiting, code)
    } else {
        Ok(())
    }
}

/// Appends what brings the top, which is taken, to R4.
pub fn emit_to_four(top: Option<Waiting>, code: &mut Vec<Form>) -> Result<(), AllocError>
    ensures { OnOk result (code.new.items ≡ code.old.items ++ four_from top) }
{
    match top {
        None => code.extend_from_slice(&[Move(Popped, ToRegister(R4))]),
        Some(Waiting::R4) => Ok(()),
        Some(word) => code.extend_from_slice(&[Move(waiting_source(word), ToRegister(R4))]),
    }
}

// The top, which is taken, to R5.
pub fn emit_to_five(top: Option<Waiting>, code: &mut Vec<Form>) -> Result<(), AllocError>
    ensures { OnOk result (code.new.items ≡ code.old.items ++ five_from top) }
{
    code.extend_from_slice(&[Move(source_from(top), ToRegister(R5))])
}

// The right side of an operation stays where it waits, but for R4.
fn stays(right: Option<Waiting>) -> bool
    ensures { result ≡ stays right }
{
    match right {
        None | Some(Waiting::R4) => false,
        Some(Waiting::Number(_) | Waiting::Fram(_) | Waiting::Local(_) | Waiting::R6) => true,
    }
}

// The right side of an operation, which is taken, to where an instruction reads it.
fn emit_right(right: Option<Waiting>, code: &mut Vec<Form>) -> Result<Source, AllocError>
    ensures source { IfOk result (λ source. source ≡ right_source right) }
    ensures code { OnOk result (code.new.items ≡ code.old.items ++ (if stays right then [] else (five_from right))) }
{
    if stays(right) {
        return Ok(source_from(right));
    }
    emit_to_five(right, code)?;
    Ok(Register(R5))
}

/// Takes the right side of an operation, which is the top, as a source, and the left one to R4.
#[tactic(auto, using(std::proofs::Common::append_assoc))]
pub fn emit_sides(waiting: &mut Vec<Waiting>, code: &mut Vec<Form>) -> Result<Source, AllocError>
    ensures source { IfOk result (λ source. source ≡ right_source (top_of waiting.old.items)) }
    ensures code { OnOk result (code.new.items ≡ code.old.items ++ sides waiting.old.items) }
    ensures waiting { OnOk result (waiting.new.items ≡ kept (below_top (below_top waiting.old.items))) }
{
    let right = take(waiting);
    let left = take(waiting);
    emit_cleared(waiting, code)?;
    let source = emit_right(right, code)?;
    emit_to_four(left, code)?;
    Ok(source)
}

/// A right side stays where it waits, but for registers for work.
pub fn rests(right: Option<Waiting>) -> bool
    ensures { result ≡ rests right }
{
    match right {
        None => false,
        Some(word) => !is_held(word),
    }
}

/// The right side of an update as a source.
pub fn rest_source(right: Option<Waiting>) -> Source
    ensures { result ≡ rest_source right }
{
    if rests(right) {
        source_from(right)
    } else {
        Register(R5)
    }
}

/// Appends what brings it there.
pub fn emit_to_rest(right: Option<Waiting>, code: &mut Vec<Form>) -> Result<(), AllocError>
    ensures { OnOk result (code.new.items ≡ code.old.items ++ to_rest right) }
{
    if rests(right) {
        Ok(())
    } else {
        emit_to_five(right, code)
    }
}

// The exponent of a power of two.
fn power(number: u16) -> Option<u16>
    ensures { result ≡ power number }
{
    let count = number.trailing_zeros();
    if count < 16 && number == 1 << count {
        Some(count as u16)
    } else {
        None
    }
}

/// The top, where it waits; it stays.
pub fn top(waiting: &[Waiting]) -> Option<Waiting>
    ensures { result ≡ top_of waiting.now }
{
    waiting.first().copied()
}

/// The word below the top, where both wait.
pub fn under_top(waiting: &[Waiting]) -> Option<Waiting>
    ensures { result ≡ top_of (below_top waiting.now) }
{
    waiting.get(1).copied()
}

/// The number that waits on top.
pub fn top_number(waiting: &[Waiting]) -> Option<u16>
    ensures { result ≡ top_number (top_of waiting.now) }
{
    match waiting.first() {
        Some(Waiting::Number(number)) => Some(*number),
        _ => None,
    }
}

/// The exponent of the number that waits on top, where that is a power of two.
pub fn top_power(waiting: &[Waiting]) -> Option<u16>
    ensures { result ≡ top_power (top_of waiting.now) }
{
    match waiting.first() {
        Some(Waiting::Number(number)) => power(*number),
        _ => None,
    }
}

// The number that waits on top, less one.
fn top_mask(top: Option<Waiting>) -> u16
    ensures { result ≡ top_mask top }
{
    match top {
        Some(Waiting::Number(number)) => number.saturating_sub(1),
        _ => 0,
    }
}

/// A number less one waits on top in place of the number.
pub fn mask_top(waiting: &mut Vec<Waiting>) -> Result<(), AllocError>
    ensures { OnOk result (waiting.new.items ≡ words.Number (top_mask (top_of waiting.old.items)) ∷ below_top waiting.old.items) }
{
    let top = take(waiting);
    wait(Waiting::Number(top_mask(top)), waiting)
}

/// Takes the top, as a source; the others that wait are pushed.
pub fn emit_below(waiting: &mut Vec<Waiting>, code: &mut Vec<Form>) -> Result<Source, AllocError>
    ensures source { IfOk result (λ source. source ≡ made.source_from (top_of waiting.old.items)) }
    ensures code { OnOk result (code.new.items ≡ code.old.items ++ flushed (below_top waiting.old.items)) }
    ensures waiting { OnOk result (waiting.new.items ≡ []) }
{
    let top = take(waiting);
    emit_all(waiting, code)?;
    Ok(source_from(top))
}

/// Takes the top to R4.
#[tactic(auto, using(std::proofs::Common::append_assoc))]
pub fn emit_top_to_four(waiting: &mut Vec<Waiting>, code: &mut Vec<Form>) -> Result<(), AllocError>
    ensures code { OnOk result (code.new.items ≡ code.old.items ++ top_to_four waiting.old.items) }
    ensures waiting { OnOk result (waiting.new.items ≡ kept (below_top waiting.old.items)) }
{
    let top = take(waiting);
    emit_cleared(waiting, code)?;
    emit_to_four(top, code)
}

/// Takes the top to R5.
#[tactic(auto, using(std::proofs::Common::append_assoc))]
pub fn emit_top_to_five(waiting: &mut Vec<Waiting>, code: &mut Vec<Form>) -> Result<(), AllocError>
    ensures code { OnOk result (code.new.items ≡ code.old.items ++ top_to_five waiting.old.items) }
    ensures waiting { OnOk result (waiting.new.items ≡ kept (below_top waiting.old.items)) }
{
    let top = take(waiting);
    emit_cleared(waiting, code)?;
    emit_to_five(top, code)
}

/// Takes the right side, which is the top, to R5 and the left one to R4.
#[tactic(auto, using(std::proofs::Common::append_assoc))]
pub fn emit_two_to_registers(
    waiting: &mut Vec<Waiting>,
    code: &mut Vec<Form>,
) -> Result<(), AllocError>
    ensures code { OnOk result (code.new.items ≡ code.old.items ++ two_to_registers waiting.old.items) }
    ensures waiting { OnOk result (waiting.new.items ≡ kept (below_top (below_top waiting.old.items))) }
{
    let right = take(waiting);
    let left = take(waiting);
    emit_cleared(waiting, code)?;
    emit_to_five(right, code)?;
    emit_to_four(left, code)
}
