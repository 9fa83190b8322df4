//! Laws of the step, said for any bus. The functions do nothing: their contracts are the laws.

ghost use Rattle.msp_step.specs.Laws.{IsDetermined, TakesItsCost, WritesOnce, JumpsBySignedWords, AcceptsAtTheVector};

use crate::bus::Bus;

/// A state steps in one way, so that each `Stop` comes exactly where its cause stands.
#[tactic(auto, using(crate::proofs::Determined::determined))]
pub fn step_is_determined<B: Bus>()
    ensures { IsDetermined B.model }
{}

/// A step that is made takes the cycles that `cost` answers.
#[tactic(auto, using(crate::proofs::Determined::takes_its_cost))]
pub fn step_takes_its_cost<B: Bus>()
    ensures { TakesItsCost B.model }
{}

/// An instruction makes at most two reads, and then at most one write; where the bus refuses an access, it has made
/// reads alone.
#[tactic(auto, using(crate::proofs::Accesses::effect_ends))]
pub fn effect_writes_once<B: Bus>()
    ensures { WritesOnce B.model }
{}

/// The distance of a jump is twice its signed offset, modulo 65536.
pub fn jumps_by_signed_words()
    ensures { JumpsBySignedWords }
{}

/// An acceptance leaves R3 to R15 alone, sets PC to the vector, but for bit 0, takes SP down by two words, and clears GIE and
/// CPUOFF with all of SR.
pub fn accepts_at_the_vector()
    ensures { AcceptsAtTheVector }
{}
