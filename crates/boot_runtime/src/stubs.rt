//! The ladder of branches to the tasks' stubs, and the stubs.

ghost use Rattle.std.specs.Prelude.{◌≡◌, ◌+◌, ◌*◌, ◌<◌, ◌++◌, ℕ, OnOk, All, map};
ghost use Rattle.std.specs.List.{flat_map};
ghost use Rattle.memory_map.specs.Spots.{private_words};
ghost use Rattle.runtime_code.specs.runtime_effects.Places.{run_pairs, scalar_pairs};
ghost use Rattle.runtime_code.specs.LayoutPlaces.{pairs_of};
ghost use Rattle.boot_runtime.specs.Entries.{entry_of, EndsInMemory};
ghost use Rattle.boot_runtime.specs.Listing.{copies_in, stub, stub_bytes, stubs, stubs_bytes, rung_to, ladder_to};

use memory_map::{PrivateScalar, ScalarWidth, TaskLayout};
use runtime_code::forms::Form;
use runtime_code::forms::Form::{Branch, Move};
use runtime_code::forms::Source::Fram;
use runtime_code::forms::Target::ToFram;
use std::alloc::AllocError;

/// The bytes of a word's copy, and of a branch.
const COPY: u16 = 6;

const BRANCH: u16 = 4;

// Where a task's branch leads: to its stub, or right to its code where it has none.
fn rung(task: &TaskLayout, stub: u16) -> u16
    ensures { result ≡ rung_to stub task.now.code.address (pairs_of task.now) }
{
    if task.privates().is_empty() {
        task.code().address
    } else {
        stub
    }
}

// The words of private scalars.
fn words_of(privates: &[PrivateScalar]) -> u16
    requires { private_words privates.now < 65536 }
    ensures { result ≡ private_words privates.now }
{
    let mut words = 0;
    for scalar in privates {
        words += scalar.width.words();
    }
    words
}

// The bytes of a task's stub.
fn stub_size(task: &TaskLayout) -> u16
    requires { stub_bytes (entry_of task.now) < 65536 }
    ensures { result ≡ stub_bytes (entry_of task.now) }
{
    if task.privates().is_empty() {
        0
    } else {
        COPY * words_of(task.privates()) + BRANCH
    }
}

/// Adds each task's branch. The first stub stands at an address, and each other one behind the one before.
pub fn push_ladder(code: &mut Vec<Form>, tasks: &[TaskLayout], at: u16) -> Result<(), AllocError>
    requires { at + stubs_bytes (map entry_of tasks.now) < 65536 }
    ensures { OnOk result (code.new.items ≡ code.old.items ++ ladder_to at (map entry_of tasks.now)) }
{
    let mut stub = at;
    for task in tasks {
        code.push(Branch(rung(task, stub)))?;
        stub += stub_size(task);
    }
    Ok(())
}

// Adds the copy of a word.
fn push_copy(code: &mut Vec<Form>, home: u16, copy: u16) -> Result<(), AllocError>
    ensures { OnOk result (code.new.items ≡ code.old.items ++ copies_in (run_pairs 1 home copy)) }
{
    code.push(Move(Fram(home), ToFram(copy)))?;
    Ok(())
}

// Adds the copies of a private scalar's words.
fn push_scalar(code: &mut Vec<Form>, scalar: &PrivateScalar) -> Result<(), AllocError>
    requires { EndsInMemory scalar.now }
    ensures { OnOk result (code.new.items ≡ code.old.items ++ copies_in (scalar_pairs scalar.now)) }
{
    push_copy(code, scalar.home, scalar.copy)?;
    match scalar.width {
        ScalarWidth::OneWord => Ok(()),
        ScalarWidth::TwoWords => push_copy(code, scalar.home + 2, scalar.copy + 2),
    }
}

// Adds the copies of a task's private scalars.
fn push_copies(code: &mut Vec<Form>, privates: &[PrivateScalar]) -> Result<(), AllocError>
    requires { All EndsInMemory privates.now }
    ensures { OnOk result (code.new.items ≡ code.old.items ++ copies_in (flat_map scalar_pairs privates.now)) }
{
    for scalar in privates {
        push_scalar(code, scalar)?;
    }
    Ok(())
}

// Adds a task's stub: its private scalars are copied, and a branch leads to its code; or nothing, where it has none.
fn push_stub(code: &mut Vec<Form>, task: &TaskLayout) -> Result<(), AllocError>
    requires { All EndsInMemory task.now.privates }
    ensures { OnOk result (code.new.items ≡ code.old.items ++ stub (entry_of task.now)) }
{
    let privates = task.privates();
    if privates.is_empty() {
        return Ok(());
    }
    push_copies(code, privates)?;
    code.push(Branch(task.code().address))?;
    Ok(())
}

/// Adds each task's stub.
pub fn push_stubs(code: &mut Vec<Form>, tasks: &[TaskLayout]) -> Result<(), AllocError>
    requires { All (λ t. All EndsInMemory t.privates) tasks.now }
    ensures { OnOk result (code.new.items ≡ code.old.items ++ stubs (map entry_of tasks.now)) }
{
    for task in tasks {
        push_stub(code, task)?;
    }
    Ok(())
}
