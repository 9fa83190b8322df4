//! Laws of the code of a compiled source. The functions do nothing: their contracts are the laws.

ghost use Rattle.linked_code.specs.Laws.{LinkedIsCode, LinkedStands, LinkedKeepsAbove};
ghost use Rattle.linked_code.specs.Rooms.{LayoutsHaveRoom};

/// Where it has its room, the code is instructions at even addresses, and ends where the layout's code does, at the latest.
#[tactic(auto, using(crate::proofs::Linked::linked_is_code))]
pub fn linked_is_code()
    ensures { LinkedIsCode }
{}

/// Boot, commit and each task's code stand at their places in it, and behind that the code of each function that it reaches.
pub fn linked_code_stands()
    ensures { LinkedStands }
{}

/// The layout of a source that costs no more than it may has room for the code, where each program keeps to the words that the
/// allowance has for its task.
pub fn layouts_have_room()
    ensures { LayoutsHaveRoom }
{}

/// No part of the code names a word of RAM below where its stack begins: boot and commit name none, and a task's code none below its locals.
pub fn linked_code_keeps_above_its_stacks()
    ensures { LinkedKeepsAbove }
{}
