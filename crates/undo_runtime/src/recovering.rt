//! The recovery: what a boot does before an attempt, where no commit is pending.

ghost use Rattle.std.specs.Prelude.{◌≡◌, ◌++◌, OnOk};
ghost use Rattle.commit_runtime.specs.Listing.{copies_begin};
ghost use Rattle.undo_runtime.specs.Listing.{back_turn, back_loop, list_cleared, recovering};

use memory_map::{Layout, RuntimeWord};
use runtime_code::forms::Form::{Calculate, Move};
use runtime_code::forms::Source::{Constant, Fram, Indexed, Register};
use runtime_code::forms::Target::{ToFram, ToPointed, ToRegister};
use runtime_code::forms::WorkRegister::{R4, R6, R7};
use runtime_code::forms::{Form, Konst, TwoOp};
use runtime_code::{loop_begin, loop_end};
use std::alloc::AllocError;

// R4 := CLN.
fn recovery_begins(layout: &Layout) -> [Form; 1]
    ensures { result ≡ copies_begin layout.now }
{
    let list_length = Fram(layout.word_place(RuntimeWord::ListLength));
    [Move(list_length, ToRegister(R4))]
}

// The word of the last of so many entries as R4 says goes back to its address.
fn back_turn(layout: &Layout) -> [Form; 5]
    ensures { result ≡ back_turn layout.now }
{
    layout.rules();
    let list = layout.list().address;
    [
        Move(Register(R4), ToRegister(R6)),
        Calculate(TwoOp::Add, Register(R6), R6),
        Calculate(TwoOp::Add, Register(R6), R6),
        Move(Indexed(R6, list - 4), ToRegister(R7)),
        Move(Indexed(R6, list - 2), ToPointed(R7)),
    ]
}

// For each entry, the last one first.
fn push_back_loop(code: &mut Vec<Form>, layout: &Layout) -> Result<(), AllocError>
    ensures { OnOk result (code.new.items ≡ code.old.items ++ back_loop layout.now) }
{
    code.extend_from_slice(&loop_begin(layout.list().address, 12))?;
    code.extend_from_slice(&back_turn(layout))?;
    code.extend_from_slice(&loop_end(0x400 - 10))?;
    Ok(())
}

// CLN := 0.
fn list_cleared(layout: &Layout) -> [Form; 1]
    ensures { result ≡ list_cleared layout.now }
{
    let list_length = layout.word_place(RuntimeWord::ListLength);
    [Move(Constant(Konst::Zero), ToFram(list_length))]
}

/// Adds the recovery: the entries of the list are put back, the last one first, and then CLN := 0.
pub fn push_recovering(code: &mut Vec<Form>, layout: &Layout) -> Result<(), AllocError>
    ensures { OnOk result (code.new.items ≡ code.old.items ++ recovering layout.now) }
{
    code.extend_from_slice(&recovery_begins(layout))?;
    push_back_loop(code, layout)?;
    code.extend_from_slice(&list_cleared(layout))
}
