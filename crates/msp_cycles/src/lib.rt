//! The cycles that each instruction takes.
#![tactic(auto)]

ghost use Rattle.std.specs.Prelude.{◌≡◌, ◌≤◌};
ghost use Rattle.msp_cycles.specs.Cycles.{cycles_of, operand_cycles, source_cycles, cycle_row};

use msp_isa::{Dst, Instr, OneOp, Operand, Reg, Src};

/// A row of the table of cycles: one column for each source, where a constant counts as a register.
#[derive(Clone, Copy)]
struct CycleRow {
    register: u32,
    indirect: u32,
    increment: u32,
    immediate: u32,
    indexed: u32,
    symbolic: u32,
    absolute: u32,
}

/// Two operands, to a register other than PC.
const TO_REGISTER: CycleRow = CycleRow {
    register: 1,
    indirect: 2,
    increment: 2,
    immediate: 2,
    indexed: 3,
    symbolic: 3,
    absolute: 3,
};

/// Two operands, to PC.
const TO_PC: CycleRow = CycleRow {
    register: 2,
    indirect: 2,
    increment: 3,
    immediate: 3,
    indexed: 3,
    symbolic: 3,
    absolute: 3,
};

/// Two operands, to memory.
const TO_MEMORY: CycleRow = CycleRow {
    register: 4,
    indirect: 5,
    increment: 5,
    immediate: 5,
    indexed: 6,
    symbolic: 6,
    absolute: 6,
};

/// RRC, RRA, SWPB and SXT, which take no immediate.
const READ_MODIFY_WRITE: CycleRow = CycleRow {
    register: 1,
    indirect: 3,
    increment: 3,
    immediate: 0,
    indexed: 4,
    symbolic: 4,
    absolute: 4,
};

const PUSH: CycleRow = CycleRow {
    register: 3,
    indirect: 4,
    increment: 5,
    immediate: 4,
    indexed: 5,
    symbolic: 5,
    absolute: 5,
};

const CALL: CycleRow = CycleRow {
    register: 4,
    indirect: 4,
    increment: 5,
    immediate: 5,
    indexed: 5,
    symbolic: 5,
    absolute: 5,
};

impl CycleRow {
    #[inline(always)]
    fn at_operand(self, operand: Operand) -> u32
        ensures { result ≡ operand_cycles (cycle_row self.register self.indirect self.increment self.immediate self.indexed self.symbolic self.absolute)
            operand }
    {
        match operand {
            Operand::Reg(_) => self.register,
            Operand::Indirect(_) => self.indirect,
            Operand::Increment(_) => self.increment,
            Operand::Indexed(_, _) => self.indexed,
            Operand::Symbolic(_) => self.symbolic,
            Operand::Absolute(_) => self.absolute,
        }
    }

    #[inline(always)]
    fn at_source(self, src: Src) -> u32
        ensures { result ≡ source_cycles (cycle_row self.register self.indirect self.increment self.immediate self.indexed self.symbolic self.absolute) src }
    {
        match src {
            Src::Operand(operand) => self.at_operand(operand),
            Src::Immediate(_) => self.immediate,
            Src::Constant(_) => self.register,
        }
    }
}

/// The cycles of an instruction, 1 to 6, by its form and addressing modes. A jump takes 2, taken or not.
#[inline(always)]
pub fn cycles(instruction: &Instr) -> u32
    ensures value { result ≡ cycles_of instruction.now }
    ensures low { 1 ≤ result }
    ensures high { result ≤ 6 }
{
    match *instruction {
        Instr::Two {
            op: _,
            width: _,
            src,
            dst,
        } => match dst {
            Dst::Reg(Reg::Pc) => TO_PC.at_source(src),
            Dst::Reg(_) => TO_REGISTER.at_source(src),
            _ => TO_MEMORY.at_source(src),
        },
        Instr::One(OneOp::Rrc(_, o) | OneOp::Swpb(o) | OneOp::Rra(_, o) | OneOp::Sxt(o)) => {
            READ_MODIFY_WRITE.at_operand(o)
        }
        Instr::One(OneOp::Push(_, s)) => PUSH.at_source(s),
        Instr::One(OneOp::Call(s)) => CALL.at_source(s),
        Instr::Jump {
            condition: _,
            offset: _,
        } => 2,
        Instr::Reti => 5,
    }
}
