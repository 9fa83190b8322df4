//! The code of the commit: it copies the listed words home, sends the emitted words and makes the transition, so that done again
//! from its start after a power failure it comes to the same end.
#![tactic(auto)]

mod laws;

ghost use Rattle.std.specs.Prelude.{◌≡◌, ◌+◌, ◌<◌, ◌++◌, ℕ, IfOk, OnOk};
ghost use Rattle.runtime_code.specs.Addresses.{start_address};
ghost use Rattle.commit_runtime.specs.Listing.{copies_begin, entry_begin, word_loop, copy_loop, sends_begin, send_turn, send_loop, events_taken, closing};
ghost use Rattle.commit_runtime.specs.Listing.{commit_forms};

pub use laws::{commit_is_made, commit_is_short, commit_stores_in_fram};
use memory_map::{Layout, RuntimeWord, SENT_TAIL, TAIL};
use runtime_code::forms::Form::{Branch, Calculate, Move};
use runtime_code::forms::Source::{Constant, Fram, PointedNext, Register};
use runtime_code::forms::Target::{ToFram, ToOutdata, ToOutnum, ToPointed, ToRegister};
use runtime_code::forms::WorkRegister::{R4, R5, R6, R7, R8};
use runtime_code::forms::{Condition, Form, Konst, TwoOp, jump};
use runtime_code::{loop_begin, loop_end, start_address};
use std::alloc::{AllocError, Global};

// R4 := CLN.
fn copies_begin(layout: &Layout) -> [Form; 1]
    ensures { result ≡ copies_begin layout.now }
{
    let list_length = Fram(layout.word_place(RuntimeWord::ListLength));
    [Move(list_length, ToRegister(R4))]
}

// An entry is read: its home to R6, its copy's address to R7, its words to R8.
fn entry_begin() -> [Form; 3]
    ensures { result ≡ entry_begin }
{
    let next = PointedNext(R5);
    [
        Move(next, ToRegister(R6)),
        Move(next, ToRegister(R7)),
        Move(next, ToRegister(R8)),
    ]
}

// One word after another goes home. R8 is counted down before each; where nothing was left of it there is no carry.
fn word_loop() -> [Form; 5]
    ensures { result ≡ word_loop }
{
    let next = PointedNext(R7);
    [
        jump(Condition::Always, 3),
        Move(next, ToPointed(R6)),
        Calculate(TwoOp::Add, Constant(Konst::Two), R6),
        Calculate(TwoOp::Sub, Constant(Konst::One), R8),
        jump(Condition::Carry, 0x400 - 5),
    ]
}

// For each entry its words go home.
fn push_copies(code: &mut Vec<Form>, layout: &Layout) -> Result<(), AllocError>
    ensures { OnOk result (code.new.items ≡ code.old.items ++ copy_loop layout.now) }
{
    code.extend_from_slice(&loop_begin(layout.list().address, 13))?;
    code.extend_from_slice(&entry_begin())?;
    code.extend_from_slice(&word_loop())?;
    code.extend_from_slice(&loop_end(0x400 - 11))
}

/// R7 := SB, R4 := EN.
pub fn sends_begin(layout: &Layout) -> [Form; 2]
    ensures { result ≡ sends_begin layout.now }
{
    let sent_base = Fram(layout.word_place(RuntimeWord::SentBase));
    let emit_count = Fram(layout.word_place(RuntimeWord::EmitCount));
    [
        Move(sent_base, ToRegister(R7)),
        Move(emit_count, ToRegister(R4)),
    ]
}

// A word is sent: its number, then the word; the next number.
fn send_turn() -> [Form; 3]
    ensures { result ≡ send_turn }
{
    let next = PointedNext(R5);
    [
        Move(Register(R7), ToOutnum),
        Move(next, ToOutdata),
        Calculate(TwoOp::Add, Constant(Konst::One), R7),
    ]
}

/// Each emitted word is sent.
pub fn push_sends(code: &mut Vec<Form>, layout: &Layout) -> Result<(), AllocError>
    ensures { OnOk result (code.new.items ≡ code.old.items ++ send_loop layout.now) }
{
    code.extend_from_slice(&loop_begin(layout.emits().address, 9))?;
    code.extend_from_slice(&send_turn())?;
    code.extend_from_slice(&loop_end(0x400 - 7))
}

/// TAIL := SE, where there are events.
pub fn push_events_taken(code: &mut Vec<Form>, layout: &Layout) -> Result<(), AllocError>
    ensures { OnOk result (code.new.items ≡ code.old.items ++ events_taken layout.now) }
{
    if layout.runtime().events {
        code.push(Move(Fram(SENT_TAIL), ToFram(TAIL)))?;
    }
    Ok(())
}

// CUR := NEXT, BASE := the number behind the last word's, which is SB + EN, GATE := 0.
fn closing(layout: &Layout) -> [Form; 3]
    ensures { result ≡ closing layout.now }
{
    let next_task = Fram(layout.word_place(RuntimeWord::NextTask));
    let current_task = layout.word_place(RuntimeWord::CurrentTask);
    let base = layout.word_place(RuntimeWord::Base);
    let gate = layout.word_place(RuntimeWord::Gate);
    [
        Move(next_task, ToFram(current_task)),
        Move(Register(R7), ToFram(base)),
        Move(Constant(Konst::Zero), ToFram(gate)),
    ]
}

/// The instructions of the commit for a layout; or no memory is left.
///
/// They copy the words of the entries of the commit list, from the first on, send the emitted words, numbered from SB on, and store TAIL, where there
/// are events, CUR, BASE and GATE, in this order; the last one is a branch to the start of an attempt. GATE is 1 until all else is done, so that
/// a boot in between finds it and begins the commit anew. They take 41 words, 44 where there are events, and may stand anywhere.
pub fn commit_code(alloc: Global, layout: &Layout) -> Result<Vec<Form>, AllocError>
    requires { layout.now.boot.address + 16 < 65536 }
    ensures { IfOk result (λ code. code.items ≡ commit_forms layout.now (start_address layout.now.runtime.events layout.now.boot.address)) }
{
    let mut code = Vec::new(alloc);
    code.extend_from_slice(&copies_begin(layout))?;
    push_copies(&mut code, layout)?;
    code.extend_from_slice(&sends_begin(layout))?;
    push_sends(&mut code, layout)?;
    push_events_taken(&mut code, layout)?;
    code.extend_from_slice(&closing(layout))?;
    let start = start_address(layout.runtime().events, layout.boot().address);
    code.push(Branch(start))?;
    Ok(code)
}
