//! The effect of each instruction on registers and bus.

ghost use Rattle.std.specs.Prelude.{◌≡◌, ℕ, ◌+◌, ◌*◌, ◌/◌, ◌%◌, ◌<◌, ◌≤◌, length};
ghost use Rattle.msp_step.specs.Access.{Completed, write_at};
ghost use Rattle.msp_step.specs.Answer.{answer, addressed};
ghost use Rattle.msp_step.specs.Registers.{registers_of, with_register};
ghost use Rattle.msp_step.specs.Effect.{load, store, source, destination_location, word_sum, flags_of, status_with, operated, with_flags, reads_destination};
ghost use Rattle.msp_step.specs.Effect.{writes_destination, destination_operand, finish, after_source, two_operand_effect, read_modify_write, written_back};
ghost use Rattle.msp_step.specs.Effect.{modification_of, below_stack, pushed, push_effect, called, call_effect, reti_effect, is_met, distance, jump_effect};
ghost use Rattle.msp_isa.specs.Encoding.{source_row, destination_row};

use crate::bus::Bus;
use crate::cpu::Cpu;
use crate::operand::{
    Fault, Location, destination_location, increment, load, operand_location, read_at, source,
    store,
};
use alp_words::{Flags, Width, add, and, dadd, rra, rrc, sub, swpb, sxt, xor};
use msp_isa::{Condition, Dst, Offset, Operand, Src, TwoOp};

fn flags_of(sr: u16) -> Flags
    ensures { result ≡ flags_of sr }
{
    Flags {
        n: sr / 4 % 2 == 1,
        z: sr / 2 % 2 == 1,
        c: sr % 2 == 1,
        v: sr / 0x100 % 2 == 1,
    }
}

fn status_with(sr: u16, f: Flags) -> u16
    ensures { result ≡ status_with sr f }
{
    u16::from(f.c)
        + 2 * u16::from(f.z)
        + 4 * u16::from(f.n)
        + sr / 8 % 0x20 * 8
        + 0x100 * u16::from(f.v)
}

fn flagged(p: (u16, Flags)) -> (u16, Option<Flags>)
    ensures value { result.0 ≡ p.0 }
    ensures flags { result.1 ≡ Some p.1 }
{
    (p.0, Some(p.1))
}

#[inline(always)]
fn operated(op: TwoOp, width: Width, d: u16, s: u16, f: Flags) -> (u16, Option<Flags>)
    ensures value { result.0 ≡ (operated op width d s f).value }
    ensures flags { result.1 ≡ (operated op width d s f).flags }
{
    match op {
        TwoOp::Mov => (s, None),
        TwoOp::Bic => (d - (d & s), None),
        TwoOp::Bis => (d | s, None),
        TwoOp::Add => flagged(add(width, d, s, false)),
        TwoOp::Addc => flagged(add(width, d, s, f.c)),
        TwoOp::Subc => flagged(sub(width, d, s, f.c)),
        TwoOp::Sub => flagged(sub(width, d, s, true)),
        TwoOp::Cmp => flagged(sub(width, d, s, true)),
        TwoOp::Dadd => flagged(dadd(width, d, s, f)),
        TwoOp::Bit => flagged(and(width, d, s)),
        TwoOp::And => flagged(and(width, d, s)),
        TwoOp::Xor => flagged(xor(width, d, s)),
    }
}

#[inline(always)]
fn destination_operand<B: Bus>(
    op: TwoOp,
    cpu: &Cpu,
    bus: &mut B,
    width: Width,
    at: Location,
) -> Result<u16, Fault>
    ensures { answer (λ v. v) result bus.new ≡ destination_operand (reads_destination op) B.model (registers_of cpu.now) width at bus.old }
{
    match op {
        TwoOp::Mov => Ok(0),
        _ => load(cpu, bus, width, at),
    }
}

fn set_flags(cpu: &mut Cpu, flags: Option<Flags>)
    ensures { registers_of cpu.new ≡ with_flags (registers_of cpu.old) flags }
{
    if let Some(f) = flags {
        let sr = status_with(cpu.word(2), f);
        cpu.set(2, sr);
    }
}

#[inline(always)]
fn finish<B: Bus>(
    op: TwoOp,
    cpu: &mut Cpu,
    bus: &mut B,
    width: Width,
    at: Location,
    v: u16,
) -> Result<Option<u16>, Fault>
    ensures { answer (λ a. (registers_of cpu.new, a)) result bus.new
        ≡ addressed (finish (writes_destination op) B.model (registers_of cpu.old) width at v bus.old) }
{
    match op {
        TwoOp::Cmp | TwoOp::Bit => Ok(None),
        _ => store(cpu, bus, width, at, v),
    }
}

/// What follows the source operand.
#[inline(always)]
fn after_source<B: Bus>(
    cpu: &mut Cpu,
    bus: &mut B,
    op: TwoOp,
    width: Width,
    at: Location,
    s: u16,
) -> Result<Option<u16>, Fault>
    ensures { answer (λ a. (registers_of cpu.new, a)) result bus.new ≡ addressed (after_source B.model op width at s (registers_of cpu.old) bus.old) }
{
    let d = destination_operand(op, cpu, bus, width, at)?;
    let (value, flags) = operated(op, width, d, s, flags_of(cpu.word(2)));
    set_flags(cpu, flags);
    finish(op, cpu, bus, width, at, value)
}

/// An instruction of two operands.
#[inline(always)]
pub fn two_operand_effect<B: Bus>(
    cpu: &mut Cpu,
    bus: &mut B,
    op: TwoOp,
    width: Width,
    src: Src,
    dst: Dst,
) -> Result<Option<u16>, Fault>
    ensures { answer (λ a. (registers_of cpu.new, a)) result bus.new ≡ addressed (two_operand_effect B.model op width src dst (registers_of cpu.old) bus.old) }
{
    let pc = cpu.word(0);
    let first = pc.wrapping_add(2);
    let ext = first.wrapping_add(2 * src.words() as u16);
    let next = ext.wrapping_add(2 * dst.words() as u16);
    cpu.set(0, first);
    let s = source(cpu, bus, width, src)?;
    cpu.set(0, next);
    let at = destination_location(cpu, ext, dst);
    after_source(cpu, bus, op, width, at, s)
}

fn is_met(condition: Condition, f: Flags) -> bool
    ensures { result ≡ is_met condition f }
{
    match condition {
        Condition::NotEqual => !f.z,
        Condition::Equal => f.z,
        Condition::NoCarry => !f.c,
        Condition::Carry => f.c,
        Condition::Negative => f.n,
        Condition::GreaterOrEqual => f.n == f.v,
        Condition::Less => f.n != f.v,
        Condition::Always => true,
    }
}

/// A jump.
#[inline(always)]
pub fn jump_effect(cpu: &mut Cpu, condition: Condition, offset: Offset)
    ensures { registers_of cpu.new ≡ jump_effect condition offset (registers_of cpu.old) }
{
    let next = cpu.word(0).wrapping_add(2);
    let bits = offset.bits();
    let distance = if bits < 0x200 {
        2 * bits
    } else {
        2 * bits + (0xffff - 0x7ff)
    };
    let to = if is_met(condition, flags_of(cpu.word(2))) {
        next.wrapping_add(distance)
    } else {
        next
    };
    cpu.set(0, to);
}

/// The four operations on one place.
#[derive(Clone, Copy)]
pub enum Modification {
    Rrc,
    Rra,
    Swpb,
    Sxt,
}

#[inline(always)]
fn modified(change: Modification, width: Width, v: u16, f: Flags) -> (u16, Option<Flags>)
    ensures value { result.0 ≡ (modification_of change width v f).value }
    ensures flags { result.1 ≡ (modification_of change width v f).flags }
{
    match change {
        Modification::Rrc => flagged(rrc(width, v, f.c)),
        Modification::Rra => flagged(rra(width, v)),
        Modification::Swpb => (swpb(v), None),
        Modification::Sxt => flagged(sxt(v)),
    }
}

/// What follows the load of a place.
#[inline(always)]
fn write_back<B: Bus>(
    cpu: &mut Cpu,
    bus: &mut B,
    change: Modification,
    width: Width,
    at: Location,
    v: u16,
) -> Result<Option<u16>, Fault>
    ensures { answer (λ a. (registers_of cpu.new, a)) result bus.new
        ≡ addressed (written_back B.model (modification_of change) width at v (registers_of cpu.old) bus.old) }
{
    let (value, flags) = modified(change, width, v, flags_of(cpu.word(2)));
    set_flags(cpu, flags);
    store(cpu, bus, width, at, value)
}

/// An operation on one place.
#[inline(always)]
pub fn read_modify_write<B: Bus>(
    cpu: &mut Cpu,
    bus: &mut B,
    change: Modification,
    width: Width,
    p: Operand,
) -> Result<Option<u16>, Fault>
    ensures { answer (λ a. (registers_of cpu.new, a)) result bus.new
        ≡ addressed (read_modify_write B.model (modification_of change) width p (registers_of cpu.old) bus.old) }
{
    let first = cpu.word(0).wrapping_add(2);
    cpu.set(0, first);
    let at = operand_location(cpu, first, p);
    let v = load(cpu, bus, width, at)?;
    increment(cpu, width, p);
    cpu.set(0, first.wrapping_add(2 * p.words() as u16));
    write_back(cpu, bus, change, width, at, v)
}

/// Two below SP.
fn below_stack(cpu: &Cpu) -> u16
    ensures { result ≡ below_stack (registers_of cpu.now) }
{
    cpu.word(1).wrapping_add(0xfffe)
}

/// Writes to the place below SP.
#[inline(always)]
fn write_below<B: Bus>(cpu: &Cpu, bus: &mut B, width: Width, v: u16) -> Result<u16, Fault>
    ensures { answer (λ a. a) result bus.new ≡ write_at B.model (below_stack (registers_of cpu.now)) width v (below_stack (registers_of cpu.now)) bus.old }
{
    let sp = below_stack(cpu);
    match bus.write(sp, width, v) {
        Ok(()) => Ok(sp),
        Err(refused) => Err(Fault {
            refused,
            address: sp,
        }),
    }
}

/// What follows the operand of PUSH.
#[inline(always)]
fn push_word<B: Bus>(cpu: &mut Cpu, bus: &mut B, width: Width, v: u16) -> Result<Option<u16>, Fault>
    ensures { answer (λ a. (registers_of cpu.new, a)) result bus.new ≡ addressed (pushed B.model width v (registers_of cpu.old) bus.old) }
{
    let sp = write_below(cpu, bus, width, v)?;
    cpu.set(1, sp);
    Ok(Some(sp))
}

/// PUSH.
#[inline(always)]
pub fn push_effect<B: Bus>(
    cpu: &mut Cpu,
    bus: &mut B,
    width: Width,
    s: Src,
) -> Result<Option<u16>, Fault>
    ensures { answer (λ a. (registers_of cpu.new, a)) result bus.new ≡ addressed (push_effect B.model width s (registers_of cpu.old) bus.old) }
{
    let first = cpu.word(0).wrapping_add(2);
    cpu.set(0, first);
    let v = source(cpu, bus, width, s)?;
    cpu.set(0, first.wrapping_add(2 * s.words() as u16));
    push_word(cpu, bus, width, v)
}

/// What follows the operand of CALL.
#[inline(always)]
fn call_to<B: Bus>(cpu: &mut Cpu, bus: &mut B, to: u16) -> Result<Option<u16>, Fault>
    ensures { answer (λ a. (registers_of cpu.new, a)) result bus.new ≡ addressed (called B.model to (registers_of cpu.old) bus.old) }
{
    let next = cpu.word(0);
    let sp = write_below(cpu, bus, Width::Word, next)?;
    cpu.set(1, sp);
    cpu.set(0, to);
    Ok(Some(sp))
}

/// CALL.
#[inline(always)]
pub fn call_effect<B: Bus>(cpu: &mut Cpu, bus: &mut B, s: Src) -> Result<Option<u16>, Fault>
    ensures { answer (λ a. (registers_of cpu.new, a)) result bus.new ≡ addressed (call_effect B.model s (registers_of cpu.old) bus.old) }
{
    let first = cpu.word(0).wrapping_add(2);
    cpu.set(0, first);
    let v = source(cpu, bus, Width::Word, s)?;
    cpu.set(0, first.wrapping_add(2 * s.words() as u16));
    call_to(cpu, bus, v)
}

/// RETI.
pub fn reti_effect<B: Bus>(cpu: &mut Cpu, bus: &mut B) -> Result<Option<u16>, Fault>
    ensures { answer (λ a. (registers_of cpu.new, a)) result bus.new ≡ addressed (reti_effect B.model (registers_of cpu.old) bus.old) }
{
    let sp = cpu.word(1);
    let sr = read_at(bus, sp, Width::Word)?;
    let pc = read_at(bus, sp.wrapping_add(2), Width::Word)?;
    cpu.set(1, sp.wrapping_add(4));
    cpu.set(2, sr);
    cpu.set(0, pc);
    Ok(None)
}
