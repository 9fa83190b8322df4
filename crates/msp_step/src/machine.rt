//! One step of the CPU.

ghost use Rattle.std.specs.Prelude.{◌≡◌, ℕ, ◌+◌, ◌*◌, ◌/◌, ◌%◌, ◌<◌, ◌≤◌, length, Some, None, IfOk, IfErr, OnErr, IsTrue};
ghost use Rattle.msp_step.specs.Access.{Completed};
ghost use Rattle.msp_step.specs.Reads.{OnlyReads};
ghost use Rattle.msp_step.specs.Answer.{answer, addressed};
ghost use Rattle.msp_step.specs.Registers.{registers_of};
ghost use Rattle.msp_step.specs.Step.{AreWordsAt, AreCurrentWords, one_operand_effect, effect, IsCurrentInstruction, IsNoInstruction, IsStopped, stop_of};
ghost use Rattle.msp_step.specs.Step.{execution, StepResult, Costs};

use crate::bus::{Bus, Refused};
use crate::cpu::Cpu;
use crate::effect::{
    Modification, call_effect, jump_effect, push_effect, read_modify_write, reti_effect,
    two_operand_effect,
};
use crate::operand::Fault;
use alp_words::Width;
use msp_cycles::cycles;
use msp_decode::{decode, words_of};
use msp_isa::{Instr, OneOp};

/// Why no step was made.
#[derive(Clone, Copy, PartialEq, Eq, Debug)]
pub enum Stop {
    /// CPUOFF is set.
    Off,
    /// The word at PC begins no instruction.
    Illegal { pc: u16, word: u16 },
    /// A fetch at PC, or an access of its instruction, is a bus fault at this address.
    Bus { pc: u16, address: u16 },
    /// The instruction wants a sensor reading and none is left.
    NoReading,
}

/// What a step took, and the address that it wrote to.
#[derive(Clone, Copy, PartialEq, Eq, Debug)]
pub struct Stepped {
    /// Clock cycles, 1 to 6.
    pub cycles: u32,
    /// The byte address of the one write to memory or a port.
    pub wrote: Option<u16>,
}

/// The word at an address, which belongs to the instruction at PC.
#[inline(always)]
fn fetch<B: Bus>(bus: &B, pc: u16, address: u16) -> Result<u16, Stop>
    ensures found { IfOk result (λ w. B.model.fetches bus.now address ≡ Some w) }
    ensures none { IfErr result (λ e. (e ≡ Stop.Bus pc address) × (B.model.fetches bus.now address ≡ None)) }
{
    match bus.fetch(address) {
        Ok(word) => Ok(word),
        Err(_) => Err(Stop::Bus { pc, address }),
    }
}

/// A later word of an instruction, or 0 where it has none.
#[inline(always)]
fn later_word<B: Bus>(bus: &B, pc: u16, address: u16, is_there: bool) -> Result<u16, Stop>
    ensures found { IfOk result (λ w. IsTrue is_there → B.model.fetches bus.now address ≡ Some w) }
    ensures none { IfErr result (λ e. IsTrue is_there × (e ≡ Stop.Bus pc address) × (B.model.fetches bus.now address ≡ None)) }
{
    if is_there {
        fetch(bus, pc, address)
    } else {
        Ok(0)
    }
}

/// The words of an instruction, in order; one that it hasn't is 0.
#[derive(Clone, Copy, PartialEq, Eq, Debug)]
pub struct Words {
    pub first: u16,
    pub second: u16,
    pub third: u16,
}

/// The words of the instruction at an address, or why there is none.
#[inline(always)]
fn words_at<B: Bus>(bus: &B, pc: u16) -> Result<Words, Stop>
    ensures found { IfOk result (λ words. AreWordsAt B.model bus.now pc words) }
    ensures none { IfErr result (λ e. IsNoInstruction B.model bus.now pc e) }
{
    let first = fetch(bus, pc, pc)?;
    let count = match words_of(first) {
        Ok(count) => count,
        Err(_) => return Err(Stop::Illegal { pc, word: first }),
    };
    let behind = pc.wrapping_add(2);
    let second = later_word(bus, pc, behind, count > 1)?;
    let third = later_word(bus, pc, behind.wrapping_add(2), count > 2)?;
    Ok(Words {
        first,
        second,
        third,
    })
}

/// The words of the instruction at PC, or why none is executed. Stops with the causes of `current_instruction`.
#[inline(always)]
pub fn current_words<B: Bus>(cpu: &Cpu, bus: &B) -> Result<Words, Stop>
    ensures found { IfOk result (λ words. AreCurrentWords B.model (registers_of cpu.now) bus.now words) }
    ensures none { IfErr result (λ e. IsStopped B.model (registers_of cpu.now) bus.now e) }
{
    if cpu.word(2) / 0x10 % 2 == 1 {
        return Err(Stop::Off);
    }
    words_at(bus, cpu.word(0))
}

/// The instruction at PC, or why none is executed: `Off` where CPUOFF is set; else a `Bus` fault of the fetch of its
/// first word, `Illegal` where that word begins no instruction, or a `Bus` fault of the fetch of a later word.
pub fn current_instruction<B: Bus>(cpu: &Cpu, bus: &B) -> Result<Instr, Stop>
    ensures found { IfOk result (λ i. IsCurrentInstruction B.model (registers_of cpu.now) bus.now i) }
    ensures none { IfErr result (λ e. IsStopped B.model (registers_of cpu.now) bus.now e) }
{
    let words = current_words(cpu, bus)?;
    match decode(words.first, words.second, words.third) {
        Ok((instruction, _)) => Ok(instruction),
        Err(_) => unreachable!(),
    }
}

/// The effect of an instruction of one operand.
fn perform_one_operand<B: Bus>(cpu: &mut Cpu, bus: &mut B, one: OneOp) -> Result<Option<u16>, Fault>
    ensures { answer (λ a. (registers_of cpu.new, a)) result bus.new ≡ addressed (one_operand_effect B.model one (registers_of cpu.old) bus.old) }
{
    match one {
        OneOp::Rrc(w, p) => read_modify_write(cpu, bus, Modification::Rrc, w, p),
        OneOp::Rra(w, p) => read_modify_write(cpu, bus, Modification::Rra, w, p),
        OneOp::Swpb(p) => read_modify_write(cpu, bus, Modification::Swpb, Width::Word, p),
        OneOp::Sxt(p) => read_modify_write(cpu, bus, Modification::Sxt, Width::Word, p),
        OneOp::Push(w, s) => push_effect(cpu, bus, w, s),
        OneOp::Call(s) => call_effect(cpu, bus, s),
    }
}

/// The effect of an instruction.
#[inline(always)]
#[tactic(auto, unfolding(crate::specs::Step::effect))]
fn perform<B: Bus>(cpu: &mut Cpu, bus: &mut B, i: &Instr) -> Result<Option<u16>, Fault>
    ensures { answer (λ a. (registers_of cpu.new, a)) result bus.new ≡ addressed (effect B.model i.now (registers_of cpu.old) bus.old) }
{
    match *i {
        Instr::Two {
            op,
            width,
            src,
            dst,
        } => two_operand_effect(cpu, bus, op, width, src, dst),
        Instr::Jump { condition, offset } => {
            jump_effect(cpu, condition, offset);
            Ok(None)
        }
        Instr::One(one) => perform_one_operand(cpu, bus, one),
        Instr::Reti => reti_effect(cpu, bus),
    }
}

/// The stop of the instruction at PC whose access the bus refused.
fn stop_of(pc: u16, fault: Fault) -> Stop
    ensures { result ≡ stop_of pc fault.refused fault.address }
{
    match fault.refused {
        Refused::Bus => Stop::Bus {
            pc,
            address: fault.address,
        },
        Refused::NoReading => Stop::NoReading,
    }
}

/// Executes an instruction as the one at PC. It answers the instruction's cycles and the address of its write; or, at
/// the first access that the bus refuses, `Bus` with that address or `NoReading`: then the registers and the memory are
/// as before, and readings that the instruction had taken stay taken.
#[inline(always)]
pub fn execute<B: Bus>(cpu: &mut Cpu, bus: &mut B, instruction: &Instr) -> Result<Stepped, Stop>
    ensures executes { (record { answer = result; registers = registers_of cpu.new; bus = bus.new })
        ≡ execution B.model instruction.now (registers_of cpu.old) bus.old }
    ensures cpu { OnErr result (cpu.new ≡ cpu.old) }
    ensures reads { OnErr result (OnlyReads B.model 2 bus.old bus.new) }
    ensures memory { OnErr result (B.model.memory bus.new ≡ B.model.memory bus.old) }
{
    let pc = cpu.word(0);
    let before = cpu.copy();
    match perform(cpu, bus, instruction) {
        Ok(wrote) => Ok(Stepped {
            cycles: cycles(instruction),
            wrote,
        }),
        Err(fault) => {
            *cpu = before;
            Err(stop_of(pc, fault))
        }
    }
}

/// One step: the instruction at PC is executed. Stops with the causes of `current_instruction`, then with those of
/// `execute`, and leaves the registers and the memory as before.
pub fn step<B: Bus>(cpu: &mut Cpu, bus: &mut B) -> Result<Stepped, Stop>
    ensures steps { StepResult B.model (registers_of cpu.old) bus.old (record { answer = result; registers = registers_of cpu.new; bus = bus.new }) }
    ensures cpu { OnErr result (cpu.new ≡ cpu.old) }
    ensures reads { OnErr result (OnlyReads B.model 2 bus.old bus.new) }
    ensures memory { OnErr result (B.model.memory bus.new ≡ B.model.memory bus.old) }
{
    match current_instruction(cpu, bus) {
        Ok(instruction) => execute(cpu, bus, &instruction),
        Err(stop) => Err(stop),
    }
}

/// The clock cycles of the instruction at PC, 1 to 6. Stops with the causes of `current_instruction`.
pub fn cost<B: Bus>(cpu: &Cpu, bus: &B) -> Result<u32, Stop>
    ensures { Costs B.model (registers_of cpu.now) bus.now result }
{
    match current_instruction(cpu, bus) {
        Ok(instruction) => Ok(cycles(&instruction)),
        Err(stop) => Err(stop),
    }
}
