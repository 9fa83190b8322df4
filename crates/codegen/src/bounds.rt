//! Indices of arrays: whether one is surely below a length, since a loop around the code ends before, and the check of any other.

ghost use Rattle.std.specs.Prelude.{◌≡◌, ◌∷◌, ◌++◌, ◌<◌, OnOk, IfOk};
ghost use Rattle.word_code.specs.Code.{check_code, zero_code, is_bounded, is_inside};

use crate::forms::number_source;
use std::alloc::{AllocError, Global};
use word_code::forms::Form::{Calculate, Move};
use word_code::forms::Source::Constant;
use word_code::forms::Target::ToRegister;
use word_code::forms::WorkRegister::R4;
use word_code::forms::{Condition, Form, Konst, TwoOp, jump};
use word_code::{Bound, Waiting};

/// The bounds in a loop's body: its own in front of those around it.
pub fn bounds_within(alloc: Global, own: Bound, around: &[Bound]) -> Result<Vec<Bound>, AllocError>
    ensures { IfOk result (λ bounds. bounds.items ≡ own ∷ around.now) }
{
    let mut bounds = Vec::new(alloc);
    bounds.push(own)?;
    bounds.extend_from_slice(around)?;
    Ok(bounds)
}

// A local is surely below a length: a loop around the code ends its turns there or before.
fn is_bounded(bounds: &[Bound], n: u16, length: u16) -> bool
    ensures { result ≡ is_bounded bounds.now n length }
{
    bounds
        .iter()
        .any(|bound| bound.local == n && bound.below <= length)
}

/// An index that waits is surely below a length: a number that is, or such a local.
pub fn is_inside(bounds: &[Bound], index: Option<Waiting>, length: u16) -> bool
    ensures { result ≡ is_inside bounds.now index length }
{
    match index {
        Some(Waiting::Number(number)) => number < length,
        Some(Waiting::Local(n)) => is_bounded(bounds, n, length),
        Some(Waiting::Fram(_) | Waiting::R4 | Waiting::R6) | None => false,
    }
}

/// Appends the check of the index in R4: where it isn't below a length, over so many words.
pub fn emit_check(length: u16, over: u16, code: &mut Vec<Form>) -> Result<(), AllocError>
    requires { over < 0x400 }
    ensures { OnOk result (code.new.items ≡ code.old.items ++ check_code length over) }
{
    code.extend_from_slice(&[
        Calculate(TwoOp::Cmp, number_source(length), R4),
        jump(Condition::Carry, over),
    ])
}

/// Appends what the check goes to: R4 becomes 0; the code in front of it goes over that.
pub fn emit_zero(code: &mut Vec<Form>) -> Result<(), AllocError>
    ensures { OnOk result (code.new.items ≡ code.old.items ++ zero_code) }
{
    code.extend_from_slice(&[
        jump(Condition::Always, 1),
        Move(Constant(Konst::Zero), ToRegister(R4)),
    ])
}
