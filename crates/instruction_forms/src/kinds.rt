//! The forms of instructions that the compiler and its runtime write.

use msp_isa::{Condition, Konst, Offset, TwoOp};

/// A register for work.
#[derive(Clone, Copy)]
pub enum WorkRegister {
    R4,
    R5,
    R6,
    R7,
    R8,
    R9,
    R10,
    R11,
    R12,
    R13,
    R14,
    R15,
}

/// A source operand.
#[derive(Clone, Copy)]
pub enum Source {
    Register(WorkRegister),
    /// An immediate.
    Number(u16),
    /// A number that takes no extension word.
    Constant(Konst),
    /// The word of FRAM at an address.
    Fram(u16),
    /// The word of RAM at an address.
    Ram(u16),
    /// The word of FRAM at the register's address.
    Pointed(WorkRegister),
    /// The same, and the register goes up by 2.
    PointedNext(WorkRegister),
    /// The word of FRAM at the register's address plus a number.
    Indexed(WorkRegister, u16),
    /// The word of RAM at SP, which goes up by 2.
    Popped,
    /// The word of RAM at the register's address, and the register goes up by 2.
    StackNext(WorkRegister),
    /// HEAD: the index behind the newest word of the ring.
    Head,
    /// The word of the ring so far behind its first slot as the register says.
    Slot(WorkRegister),
}

/// What MOV writes.
#[derive(Clone, Copy)]
pub enum Target {
    ToRegister(WorkRegister),
    /// The word of FRAM at an address.
    ToFram(u16),
    /// The word of RAM at an address.
    ToRam(u16),
    /// The word of FRAM at the register's address plus a number.
    ToIndexed(WorkRegister, u16),
    /// The word of FRAM at the register's address.
    ToPointed(WorkRegister),
    /// The port that keeps the number of the word that is sent next.
    ToOutnum,
    /// The port at which a word is sent.
    ToOutdata,
}

/// An operation on one register.
#[derive(Clone, Copy)]
pub enum Modification {
    Rrc,
    Rra,
    Swpb,
    Sxt,
}

/// A form of instructions: one on words.
#[derive(Clone, Copy)]
pub enum Form {
    Move(Source, Target),
    /// An operation other than MOV, on a register.
    Calculate(TwoOp, Source, WorkRegister),
    /// CMP with the word of FRAM at an address.
    Compare(Source, u16),
    /// An operation on the word of FRAM at an address, which it writes.
    Update(TwoOp, Source, u16),
    Push(Source),
    Modify(Modification, WorkRegister),
    /// SP becomes a number.
    SetStack(u16),
    /// GIE is set: from here on the CPU accepts interrupts.
    EnableInterrupts,
    /// A reading is taken into a register.
    Sense(WorkRegister),
    Jump(Condition, Offset),
    /// A number is added to PC, which stands behind the instruction here.
    Skip(u16),
    /// PC becomes an address.
    Branch(u16),
    /// PC becomes the word of FRAM at the register's address plus a number.
    BranchIndexed(WorkRegister, u16),
    /// The register's word is added to PC, which stands behind the instruction here.
    SkipBy(WorkRegister),
    /// PC, which stands behind the instruction, is pushed, and becomes an address.
    Call(u16),
    /// PC becomes the word of RAM at SP, which goes up by 2.
    Return,
    /// The register becomes SP.
    KeepStack(WorkRegister),
    /// SP becomes the word of RAM at SP.
    RestoreStack,
}
