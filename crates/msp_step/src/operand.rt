//! Where operands are, and how they are read and written.

ghost use Rattle.std.specs.Prelude.{◌≡◌, ℕ, ◌+◌, ◌*◌, ◌/◌, ◌%◌, ◌<◌, ◌≤◌};
ghost use Rattle.msp_step.specs.Access.{read_at, write_at};
ghost use Rattle.msp_step.specs.Answer.{answer, addressed};
ghost use Rattle.msp_step.specs.Registers.{registers_of, with_register};
ghost use Rattle.msp_step.specs.Effect.{load, store, source, operand_location, destination_location, incremented, step_of, register_of, word_sum};
ghost use Rattle.msp_isa.specs.Encoding.{index_number, register_number};
ghost use Rattle.alp_words.specs.Words.{operand};

use crate::bus::{Bus, Refused};
use crate::cpu::Cpu;
use alp_words::Width;
use msp_isa::{Dst, IndexRegister, IndirectRegister, Operand, Reg, SourceRegister, Src};

/// Where an operand is.
#[derive(Clone, Copy)]
pub enum Location {
    Register(Reg),
    Memory(u16),
}

/// An access that the bus can't serve.
#[derive(Clone, Copy)]
pub struct Fault {
    pub refused: Refused,
    pub address: u16,
}

fn register_of(h: SourceRegister) -> Reg
    ensures { result ≡ register_of h }
{
    match h {
        SourceRegister::Pc => Reg::Pc,
        SourceRegister::Sr => Reg::Sr,
        SourceRegister::Index(b) => Reg::Index(b),
    }
}

fn operand(width: Width, w: u16) -> u16
    ensures { result ≡ operand width w }
{
    match width {
        Width::Word => w,
        Width::Byte => w % 0x100,
    }
}

fn index_word(cpu: &Cpu, b: IndexRegister) -> u16
    ensures { result ≡ registers_of cpu.now (index_number b) }
{
    cpu.word(usize::from(b.number()))
}

#[inline(always)]
pub fn operand_location(cpu: &Cpu, ext: u16, p: Operand) -> Location
    ensures { result ≡ operand_location (registers_of cpu.now) ext p }
{
    match p {
        Operand::Reg(h) => Location::Register(register_of(h)),
        Operand::Indexed(b, x) => Location::Memory(index_word(cpu, b).wrapping_add(x)),
        Operand::Symbolic(x) => Location::Memory(ext.wrapping_add(x)),
        Operand::Absolute(a) => Location::Memory(a),
        Operand::Indirect(IndirectRegister::Pc) => Location::Memory(cpu.word(0)),
        Operand::Indirect(IndirectRegister::Index(b)) => Location::Memory(index_word(cpu, b)),
        Operand::Increment(b) => Location::Memory(index_word(cpu, b)),
    }
}

#[inline(always)]
pub fn destination_location(cpu: &Cpu, ext: u16, d: Dst) -> Location
    ensures { result ≡ destination_location (registers_of cpu.now) ext d }
{
    match d {
        Dst::Reg(r) => Location::Register(r),
        Dst::Indexed(b, x) => Location::Memory(index_word(cpu, b).wrapping_add(x)),
        Dst::Symbolic(x) => Location::Memory(ext.wrapping_add(x)),
        Dst::Absolute(a) => Location::Memory(a),
    }
}

#[inline(always)]
pub fn read_at<B: Bus>(bus: &mut B, address: u16, width: Width) -> Result<u16, Fault>
    ensures { answer (λ v. v) result bus.new ≡ read_at B.model address width bus.old }
{
    match bus.read(address, width) {
        Ok(v) => Ok(v),
        Err(refused) => Err(Fault { refused, address }),
    }
}

/// The operand at a location.
#[inline(always)]
pub fn load<B: Bus>(cpu: &Cpu, bus: &mut B, width: Width, at: Location) -> Result<u16, Fault>
    ensures { answer (λ v. v) result bus.new ≡ load B.model (registers_of cpu.now) width at bus.old }
{
    match at {
        Location::Register(r) => Ok(operand(width, cpu.word(usize::from(r.number())))),
        Location::Memory(a) => read_at(bus, a, width),
    }
}

/// The one write; the address, if it goes to memory.
#[inline(always)]
pub fn store<B: Bus>(
    cpu: &mut Cpu,
    bus: &mut B,
    width: Width,
    at: Location,
    v: u16,
) -> Result<Option<u16>, Fault>
    ensures { answer (λ a. (registers_of cpu.new, a)) result bus.new ≡ addressed (store B.model (registers_of cpu.old) width at v bus.old) }
{
    match at {
        Location::Register(r) => {
            cpu.set(usize::from(r.number()), v);
            Ok(None)
        }
        Location::Memory(a) => match bus.write(a, width, v) {
            Ok(()) => Ok(Some(a)),
            Err(refused) => Err(Fault {
                refused,
                address: a,
            }),
        },
    }
}

/// Raises the register of an operand with increment.
#[inline(always)]
pub fn increment(cpu: &mut Cpu, width: Width, p: Operand)
    ensures { registers_of cpu.new ≡ incremented (registers_of cpu.old) width p }
{
    if let Operand::Increment(b) = p {
        let step = match (width, b) {
            (Width::Byte, IndexRegister::Sp) => 2,
            (Width::Byte, _) => 1,
            (Width::Word, _) => 2,
        };
        let word = index_word(cpu, b).wrapping_add(step);
        cpu.set(usize::from(b.number()), word);
    }
}

/// A source operand, with its increment. PC stands behind the operation word.
#[inline(always)]
pub fn source<B: Bus>(cpu: &mut Cpu, bus: &mut B, width: Width, s: Src) -> Result<u16, Fault>
    ensures { answer (λ v. (v, registers_of cpu.new)) result bus.new ≡ source B.model (registers_of cpu.old) width s bus.old }
{
    match s {
        Src::Operand(p) => {
            let at = operand_location(cpu, cpu.word(0), p);
            let v = load(cpu, bus, width, at)?;
            increment(cpu, width, p);
            Ok(v)
        }
        Src::Immediate(n) => Ok(operand(width, n)),
        Src::Constant(k) => Ok(operand(width, k.value())),
    }
}
