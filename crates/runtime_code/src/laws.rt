//! Laws of layouts, as the runtime sees them. The functions do nothing: their contracts are the laws.

ghost use Rattle.runtime_code.specs.Laws.{PlacesAreInFram, OpeningKeepsTask, HomesLeaveCommit, PrivatesAreWords};

/// In a layout the runtime's words and lists are words of FRAM, and so are private scalars and their copies.
#[tactic(auto, using(crate::proofs::Layouts::places_are_in_fram))]
pub fn layout_is_in_fram()
    ensures places { PlacesAreInFram }
    ensures privates { PrivatesAreWords }
{}

/// The opening of an attempt leaves CUR, and copies to shared words leave what a commit reads.
#[tactic(auto, using(crate::proofs::Layouts::opening_keeps_task, crate::proofs::Layouts::homes_leave_commit))]
pub fn layout_keeps_apart()
    ensures opening { OpeningKeepsTask }
    ensures commit { HomesLeaveCommit }
{}
