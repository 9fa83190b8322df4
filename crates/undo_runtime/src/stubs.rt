//! The ladder of branches to the tasks' stubs, and the stubs, which log the words of private scalars.

ghost use Rattle.std.specs.Prelude.{◌≡◌, ◌+◌, ◌*◌, ◌<◌, ◌≤◌, ◌++◌, ℕ, OnOk, All, map};
ghost use Rattle.memory_map.specs.Places.{scalar_words};
ghost use Rattle.memory_map.specs.Spots.{private_words};
ghost use Rattle.boot_runtime.specs.Entries.{EndsInMemory};
ghost use Rattle.runtime_code.specs.Ladder.{ladder, all_stubs, stub_of};
ghost use Rattle.undo_runtime.specs.Entries.{homes_in, home_words, task_of, FitsList};
ghost use Rattle.undo_runtime.specs.Listing.{word_logged_in, logs_in, stub_bytes, stubs_bytes, rung_for, rungs, rung_to};

use memory_map::{Layout, PrivateScalar, RuntimeWord, ScalarWidth, TaskLayout};
use runtime_code::forms::Form::{Branch, Move, Update};
use runtime_code::forms::Source::{Constant, Fram, Number};
use runtime_code::forms::Target::ToFram;
use runtime_code::forms::{Form, Konst, TwoOp};
use std::alloc::AllocError;

/// The bytes of a word that is logged, and of a branch.
const LOGGED: u16 = 16;

const BRANCH: u16 = 4;

// Where a task's branch leads: to its stub, or right to its code where it has none.
fn rung(layout: &Layout, task: &TaskLayout, stub: u16) -> u16
    ensures { result ≡ rung_to layout.now stub (task_of task.now) }
{
    if task.privates().is_empty() {
        task.code().address
    } else {
        stub
    }
}

// The words of private scalars.
fn words_of(privates: &[PrivateScalar]) -> u16
    requires { private_words privates.now < 65536 }
    ensures { result ≡ private_words privates.now }
{
    let mut words = 0;
    for scalar in privates {
        words += scalar.width.words();
    }
    words
}

// The bytes of a task's stub.
fn stub_size(task: &TaskLayout) -> u16
    requires { stub_bytes (task_of task.now) < 65536 }
    ensures { result ≡ stub_bytes (task_of task.now) }
{
    if task.privates().is_empty() {
        0
    } else {
        LOGGED * words_of(task.privates()) + BRANCH
    }
}

/// Adds each task's branch. The first stub stands at an address, and each other one behind the one before.
pub fn push_ladder(
    code: &mut Vec<Form>,
    layout: &Layout,
    tasks: &[TaskLayout],
    at: u16,
) -> Result<(), AllocError>
    requires { at + stubs_bytes (map task_of tasks.now) < 65536 }
    ensures { OnOk result (code.new.items ≡ code.old.items ++ ladder at (rungs layout.now (map task_of tasks.now))) }
{
    let mut stub = at;
    for task in tasks {
        code.push(Branch(rung(layout, task, stub)))?;
        stub += stub_size(task);
    }
    Ok(())
}

// Adds what logs a word in the entry of a number.
fn push_logged(
    code: &mut Vec<Form>,
    layout: &Layout,
    entry: u16,
    home: u16,
) -> Result<(), AllocError>
    requires { entry < layout.now.entries }
    ensures { OnOk result (code.new.items ≡ code.old.items ++ word_logged_in layout.now entry home) }
{
    layout.rules();
    let place = layout.list().address + 4 * entry;
    let list_length = layout.word_place(RuntimeWord::ListLength);
    let logged = [
        Move(Number(home), ToFram(place)),
        Move(Fram(home), ToFram(place + 2)),
        Update(TwoOp::Add, Constant(Konst::One), list_length),
    ];
    code.extend_from_slice(&logged)
}

// Adds what logs a private scalar's words, from the entry of a number on.
fn push_scalar(
    code: &mut Vec<Form>,
    layout: &Layout,
    entry: u16,
    scalar: &PrivateScalar,
) -> Result<(), AllocError>
    requires ends { EndsInMemory scalar.now }
    requires few { entry + scalar_words scalar.now.width ≤ layout.now.entries }
    ensures { OnOk result (code.new.items ≡ code.old.items ++ logs_in layout.now entry (home_words scalar.now)) }
{
    layout.rules();
    push_logged(code, layout, entry, scalar.home)?;
    match scalar.width {
        ScalarWidth::OneWord => Ok(()),
        ScalarWidth::TwoWords => push_logged(code, layout, entry + 1, scalar.home + 2),
    }
}

// Adds what logs the words of a task's private scalars.
#[tactic(auto, using(crate::proofs::Writing::scalar_behind))]
fn push_scalars(
    code: &mut Vec<Form>,
    layout: &Layout,
    privates: &[PrivateScalar],
) -> Result<(), AllocError>
    requires ends { All EndsInMemory privates.now }
    requires few { private_words privates.now ≤ layout.now.entries }
    ensures { OnOk result (code.new.items ≡ code.old.items ++ logs_in layout.now 0 (homes_in privates.now)) }
{
    layout.rules();
    let mut entry = 0;
    for scalar in privates {
        push_scalar(code, layout, entry, scalar)?;
        entry += scalar.width.words();
    }
    Ok(())
}

// Adds a task's stub: the words of its private scalars are logged, and a branch leads to its code; or nothing, where it has none.
fn push_stub(code: &mut Vec<Form>, layout: &Layout, task: &TaskLayout) -> Result<(), AllocError>
    requires ends { All EndsInMemory task.now.privates }
    requires few { FitsList layout.now task.now }
    ensures { OnOk result (code.new.items ≡ code.old.items ++ stub_of (rung_for layout.now (task_of task.now))) }
{
    let privates = task.privates();
    if privates.is_empty() {
        return Ok(());
    }
    push_scalars(code, layout, privates)?;
    code.push(Branch(task.code().address))?;
    Ok(())
}

/// Adds each task's stub.
pub fn push_stubs(
    code: &mut Vec<Form>,
    layout: &Layout,
    tasks: &[TaskLayout],
) -> Result<(), AllocError>
    requires ends { All (λ t. All EndsInMemory t.privates) tasks.now }
    requires few { All (FitsList layout.now) tasks.now }
    ensures { OnOk result (code.new.items ≡ code.old.items ++ all_stubs (rungs layout.now (map task_of tasks.now))) }
{
    for task in tasks {
        push_stub(code, layout, task)?;
    }
    Ok(())
}
