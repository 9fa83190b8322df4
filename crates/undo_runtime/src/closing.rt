//! The commit.

ghost use Rattle.std.specs.Prelude.{◌≡◌, ◌+◌, ◌<◌, IfOk};
ghost use Rattle.undo_runtime.specs.Listing.{closing, undo_commit_forms};

use commit_runtime::{push_events_taken, push_sends, sends_begin};
use memory_map::{Layout, RuntimeWord};
use runtime_code::forms::Form::{Branch, Move};
use runtime_code::forms::Source::{Constant, Fram, Register};
use runtime_code::forms::Target::ToFram;
use runtime_code::forms::WorkRegister::R7;
use runtime_code::forms::{Form, Konst};
use std::alloc::{AllocError, Global};

// CUR := NEXT, BASE := the number behind the last word's, which is SB + EN, CLN := 0, GATE := 0.
fn closing(layout: &Layout) -> [Form; 4]
    ensures { result ≡ closing layout.now }
{
    let next_task = Fram(layout.word_place(RuntimeWord::NextTask));
    let current_task = layout.word_place(RuntimeWord::CurrentTask);
    let base = layout.word_place(RuntimeWord::Base);
    let list_length = layout.word_place(RuntimeWord::ListLength);
    let gate = layout.word_place(RuntimeWord::Gate);
    [
        Move(next_task, ToFram(current_task)),
        Move(Register(R7), ToFram(base)),
        Move(Constant(Konst::Zero), ToFram(list_length)),
        Move(Constant(Konst::Zero), ToFram(gate)),
    ]
}

/// The instructions of the commit for a layout, with a branch to the start of an attempt at an address; or no memory is left.
///
/// They send the emitted words, numbered from SB on, and store TAIL, where there are events, CUR, BASE, CLN and GATE, in this order. They take 26
/// words, 29 where there are events, and may stand anywhere.
pub fn commit_code(alloc: Global, layout: &Layout, start: u16) -> Result<Vec<Form>, AllocError>
    ensures { IfOk result (λ code. code.items ≡ undo_commit_forms layout.now start) }
{
    let mut code = Vec::new(alloc);
    code.extend_from_slice(&sends_begin(layout))?;
    push_sends(&mut code, layout)?;
    push_events_taken(&mut code, layout)?;
    code.extend_from_slice(&closing(layout))?;
    code.push(Branch(start))?;
    Ok(code)
}
