//! Laws of the effects of the MSP430's instructions, said for any bus. The functions do nothing: their contracts are
//! the laws.
#![tactic(auto)]

ghost use Rattle.msp_step.specs.msp_isa.declared.instructions.TwoOp.TheVariants.{Cmp, Bit, Mov, Bic, Bis};
ghost use Rattle.step_laws.specs.Alike.{CarriesAlike};
ghost use Rattle.step_laws.specs.Effects.{ComparesOnly, CopiesKeepStatus, MovesByLength, MovesOnly, RegistersStay, SwapKeepsStatus, StatusIsTheResult};
ghost use Rattle.step_laws.specs.Effects.{StatusStays, StaysValid};

use msp_step::Bus;

/// Two buses that answer alike carry any instruction alike: a step on one is the same step on the other, unless the second
/// refuses an access of it that the caller calls odd.
#[tactic(auto, using(crate::proofs::EffectAlike::carries_alike))]
pub fn effect_is_alike<B: Bus, C: Bus>()
    ensures { CarriesAlike B.model C.model }
{}

/// CMP and BIT write nothing to memory.
#[tactic(auto, using(crate::proofs::Gives::compares_cmp, crate::proofs::Gives::compares_bit))]
pub fn comparisons_write_nothing<B: Bus>()
    ensures cmp { ComparesOnly B.model Cmp }
    ensures bit { ComparesOnly B.model Bit }
{}

/// MOV reads its source alone.
#[tactic(auto, using(crate::proofs::Gives::moves))]
pub fn move_reads_its_source<B: Bus>()
    ensures { MovesOnly B.model }
{}

/// A result that is written to SR stays there, whatever the flags.
#[tactic(auto, using(crate::proofs::Gives::status_written))]
pub fn written_status_beats_flags<B: Bus>()
    ensures { StatusIsTheResult B.model }
{}

/// Jumps, PUSH and CALL change no flag.
#[tactic(auto, using(crate::proofs::Gives::status_stays))]
pub fn flags_stay<B: Bus>()
    ensures { StatusStays B.model }
{}

/// MOV, BIC, BIS and SWPB change no flag, where SR isn't their destination.
#[tactic(auto, using(crate::proofs::Keeps::mov_keeps, crate::proofs::Keeps::bic_keeps, crate::proofs::Keeps::bis_keeps, crate::proofs::Keeps::swap_keeps))]
pub fn copies_keep_flags<B: Bus>()
    ensures mov { CopiesKeepStatus B.model Mov }
    ensures bic { CopiesKeepStatus B.model Bic }
    ensures bis { CopiesKeepStatus B.model Bis }
    ensures swpb { SwapKeepsStatus B.model }
{}

/// An instruction moves PC by its length, where PC isn't its destination; jumps, CALL and RETI write it.
#[tactic(auto, using(crate::proofs::Keeps::moves_by_length))]
pub fn moves_by_its_length<B: Bus>()
    ensures { MovesByLength B.model }
{}

/// An instruction of two operands keeps each register but PC, SR, the one that it raises and the one that it writes.
#[tactic(auto, using(crate::proofs::Others::registers_stay))]
pub fn other_registers_stay<B: Bus>()
    ensures { RegistersStay B.model }
{}

/// PC and SP stay even, SR below 0x200 and R3 0.
#[tactic(auto, using(crate::proofs::Valid::stays_valid))]
pub fn registers_stay_valid<B: Bus>()
    ensures { StaysValid B.model }
{}
