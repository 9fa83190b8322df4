//! The locals that a program names, and where its stack begins below those of them that stand in RAM.

ghost use Rattle.std.specs.Prelude.{◌≡◌, ◌++◌, ◌≤◌, OnOk, max};
ghost use Rattle.word_code.specs.array_versions.View.{steps_of, step_of, test_of};
ghost use Rattle.word_code.specs.array_versions.Form.{LocalsBelow, StepLocalsBelow, TestLocalsBelow, step_locals, test_locals, locals_of};
ghost use Rattle.word_code.specs.Code.{stack_set};

use array_versions::{WordStep, WordTest};
use std::alloc::AllocError;
use word_code::forms::Form;
use word_code::forms::Form::SetStack;

// The greater of two numbers.
fn greater(a: u16, b: u16) -> u16
    ensures { result ≡ max a b }
{
    if a < b { b } else { a }
}

// One more than the greatest local that a test names; 0 where it names none.
#[cycle(named)]
fn test_locals(test: &WordTest) -> u16
    requires { TestLocalsBelow 1016 (test_of test.now) }
    ensures { result ≡ test_locals (test_of test.now) }
{
    match test {
        WordTest::Holds(steps) => steps_locals(steps),
        WordTest::Compares(comparison, steps) => steps_locals(steps),
        WordTest::Both(first, second) => greater(test_locals(first), test_locals(second)),
        WordTest::Either(first, second) => greater(test_locals(first), test_locals(second)),
        WordTest::Fails(test) => test_locals(test),
    }
}

// The same of a step.
#[cycle(named)]
fn step_locals(step: &WordStep) -> u16
    requires { StepLocalsBelow 1016 (step_of step.now) }
    ensures { result ≡ step_locals (step_of step.now) }
{
    match step {
        WordStep::Local(n) => *n + 1,
        WordStep::SetLocal(n) => *n + 1,
        WordStep::UpdateLocal(operation, n) => *n + 1,
        WordStep::Truth(test) => test_locals(test),
        WordStep::Choose(test, taken, otherwise) => {
            let ways = greater(steps_locals(taken), steps_locals(otherwise));
            greater(test_locals(test), ways)
        }
        WordStep::Repeat { local, body, .. } => greater(*local + 1, steps_locals(body)),
        _ => 0,
    }
}

/// One more than the greatest local that steps name; 0 where they name none.
#[cycle(named)]
pub fn steps_locals(steps: &[WordStep]) -> u16
    requires { LocalsBelow 1016 (steps_of steps.now) }
    ensures { result ≡ locals_of (steps_of steps.now) }
{
    let mut most = 0;
    for step in steps {
        most = greater(most, step_locals(step));
    }
    most
}

/// Appends what sets the place of the stack of a program whose locals are below a number, where some of them stand in RAM.
pub fn emit_stack_set(locals: u16, code: &mut Vec<Form>) -> Result<(), AllocError>
    requires { locals ≤ 1016 }
    ensures { OnOk result (code.new.items ≡ code.old.items ++ stack_set locals) }
{
    if 8 < locals {
        let base = 0x2400 - 2 * (locals - 8);
        code.extend_from_slice(&[SetStack(base)])
    } else {
        Ok(())
    }
}
