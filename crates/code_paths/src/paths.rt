//! The dearest path of code, as it is computed: from its last form on.

ghost use Rattle.std.specs.Prelude.{◌≡◌, ◌+◌, ◌*◌, IfOk, max};
ghost use Rattle.code_forms.specs.Code.{forms_bytes};
ghost use Rattle.code_paths.specs.Paths.{all_forward, behind_form, capped, costs_of, dearer_way, dearest_from, form_cycles, forward_most, goes_forward};
ghost use Rattle.code_paths.specs.Paths.{is_forward};

use code_forms::{Condition, Form, form_words, instruction_of};
use msp_cycles::cycles;
use std::alloc::{AllocError, Global};

/// The greater of two numbers.
pub fn dearer(a: u64, b: u64) -> u64
    ensures { result ≡ max a b }
{
    if a < b { b } else { a }
}

/// The sum of two numbers; 2^64 - 1 where it is more.
pub fn plus(a: u64, b: u64) -> u64
    ensures { result ≡ capped (a + b) }
{
    a.saturating_add(b)
}

// Whether behind a form only what follows it is done.
fn goes_forward(form: &Form) -> bool
    ensures { result ≡ goes_forward form.now }
{
    match form {
        Form::Jump(_, offset) => offset.bits() < 512,
        Form::Skip(_) | Form::Branch(_) | Form::BranchIndexed(_, _) | Form::SkipBy(_) => false,
        Form::Call(_) | Form::Return => false,
        Form::Move(_, _) | Form::Calculate(_, _, _) | Form::Compare(_, _) => true,
        Form::Update(_, _, _) | Form::Push(_) | Form::Modify(_, _) => true,
        Form::SetStack(_) | Form::Sense(_) | Form::EnableInterrupts => true,
        Form::KeepStack(_) | Form::RestoreStack => true,
    }
}

// Whether it is so of each form.
fn all_forward(code: &[Form]) -> bool
    ensures { result ≡ all_forward code.now }
{
    let mut forward = true;
    for i in (0..code.len()).rev() {
        forward = goes_forward(&code[i]) && forward;
    }
    forward
}

// The bytes of code; 2^64 - 1 where there are more.
fn code_bytes(code: &[Form]) -> u64
    ensures { result ≡ capped (forms_bytes code.now) }
{
    let mut bytes = 0;
    for i in (0..code.len()).rev() {
        bytes = plus(2 * form_words(&code[i]) as u64, bytes);
    }
    bytes
}

// What is dearest from so many bytes behind the front of code on, by what is from each form on.
fn dearest_there(code: &[Form], costs: &[u64], bytes: u64) -> u64
    requires { costs.now ≡ costs_of code.now }
    ensures { result ≡ capped (dearest_from code.now bytes) }
{
    let mut left = bytes;
    for i in 0..code.len() {
        if left == 0 {
            return costs[i];
        }
        left = left.saturating_sub(2 * form_words(&code[i]) as u64);
    }
    0
}

// The dearer way on from a jump.
fn dearer_way(condition: Condition, there: u64, behind: u64) -> u64
    ensures { result ≡ dearer_way condition there behind }
{
    match condition {
        Condition::Always => there,
        Condition::NotEqual | Condition::Equal | Condition::NoCarry => dearer(there, behind),
        Condition::Carry | Condition::Negative => dearer(there, behind),
        Condition::GreaterOrEqual | Condition::Less => dearer(there, behind),
    }
}

// What is dearest behind a form, by the code that follows it.
fn behind(form: &Form, code: &[Form], costs: &[u64]) -> u64
    requires { costs.now ≡ costs_of code.now }
    ensures { result ≡ capped (behind_form form.now (dearest_from code.now)) }
{
    match form {
        Form::Jump(condition, offset) => dearer_way(
            *condition,
            dearest_there(code, costs, 2 * offset.bits() as u64),
            dearest_there(code, costs, 0),
        ),
        _ => dearest_there(code, costs, 0),
    }
}

// What is dearest from a form on.
fn cost_from(form: &Form, code: &[Form], costs: &[u64]) -> u64
    requires { costs.now ≡ costs_of code.now }
    ensures { result ≡ capped (form_cycles form.now + behind_form form.now (dearest_from code.now)) }
{
    plus(
        cycles(&instruction_of(form)) as u64,
        behind(form, code, costs),
    )
}

/// The cycles of code at most: those of its dearest path where its jumps all go forward and it has fewer than 0x8000 bytes, and else the cycles that
/// are handed over; 2^64 - 1 where they are more.
pub fn forward_most(alloc: Global, code: &[Form], most: u64) -> Result<u64, AllocError>
    ensures { IfOk result (λ n. n ≡ capped (forward_most code.now most)) }
{
    if !all_forward(code) || 0x8000 <= code_bytes(code) {
        return Ok(most);
    }
    let mut costs = Vec::new(alloc);
    for i in (0..code.len()).rev() {
        let cost = cost_from(&code[i], &code[i + 1..], costs.as_slice());
        costs.insert(0, cost)?;
    }
    Ok(dearest_there(code, costs.as_slice(), 0))
}
