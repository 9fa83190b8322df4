//! The instruction of a form, and how long it is.

ghost use Rattle.std.specs.Prelude.{◌≡◌, ◌*◌, ◌<◌, ◌≤◌};
ghost use Rattle.instruction_forms.specs.Encoding.{index_of, source_operand, target_operand, modification_operand, instruction_of, source_bytes};
ghost use Rattle.instruction_forms.specs.Encoding.{target_bytes, form_bytes};

use crate::kinds::{Form, Modification, Source, Target, WorkRegister};
use address_space::{OUTDATA, OUTNUM, SENSOR};
use event_places::{HEAD, RING};
use msp_isa::{
    Condition, Dst, IndexRegister, IndirectRegister, Instr, Konst, Offset, OneOp, Operand, Reg,
    SourceRegister, Src, TwoOp, Width,
};

// A register among those that an addressing mode can name.
fn index_of(register: WorkRegister) -> IndexRegister
    ensures { result ≡ index_of register }
{
    match register {
        WorkRegister::R4 => IndexRegister::R4,
        WorkRegister::R5 => IndexRegister::R5,
        WorkRegister::R6 => IndexRegister::R6,
        WorkRegister::R7 => IndexRegister::R7,
        WorkRegister::R8 => IndexRegister::R8,
        WorkRegister::R9 => IndexRegister::R9,
        WorkRegister::R10 => IndexRegister::R10,
        WorkRegister::R11 => IndexRegister::R11,
        WorkRegister::R12 => IndexRegister::R12,
        WorkRegister::R13 => IndexRegister::R13,
        WorkRegister::R14 => IndexRegister::R14,
        WorkRegister::R15 => IndexRegister::R15,
    }
}

// The operand of a source.
fn source_operand(source: Source) -> Src
    ensures { result ≡ source_operand source }
{
    let operand = match source {
        Source::Number(number) => return Src::Immediate(number),
        Source::Constant(constant) => return Src::Constant(constant),
        Source::Register(register) => Operand::Reg(SourceRegister::Index(index_of(register))),
        Source::Fram(address) => Operand::Absolute(address),
        Source::Ram(address) => Operand::Absolute(address),
        Source::Pointed(register) => {
            Operand::Indirect(IndirectRegister::Index(index_of(register)))
        }
        Source::PointedNext(register) => Operand::Increment(index_of(register)),
        Source::Indexed(register, offset) => Operand::Indexed(index_of(register), offset),
        Source::Popped => Operand::Increment(IndexRegister::Sp),
        Source::StackNext(register) => Operand::Increment(index_of(register)),
        Source::Head => Operand::Absolute(HEAD),
        Source::Slot(register) => Operand::Indexed(index_of(register), RING),
    };
    Src::Operand(operand)
}

// The operand of a target.
fn target_operand(target: Target) -> Dst
    ensures { result ≡ target_operand target }
{
    match target {
        Target::ToRegister(register) => Dst::Reg(Reg::Index(index_of(register))),
        Target::ToFram(address) => Dst::Absolute(address),
        Target::ToRam(address) => Dst::Absolute(address),
        Target::ToIndexed(register, offset) => Dst::Indexed(index_of(register), offset),
        Target::ToPointed(register) => Dst::Indexed(index_of(register), 0),
        Target::ToOutnum => Dst::Absolute(OUTNUM),
        Target::ToOutdata => Dst::Absolute(OUTDATA),
    }
}

// An operation on one register.
fn modification_operand(change: Modification, register: WorkRegister) -> OneOp
    ensures { result ≡ modification_operand change register }
{
    let operand = Operand::Reg(SourceRegister::Index(index_of(register)));
    match change {
        Modification::Rrc => OneOp::Rrc(Width::Word, operand),
        Modification::Rra => OneOp::Rra(Width::Word, operand),
        Modification::Swpb => OneOp::Swpb(operand),
        Modification::Sxt => OneOp::Sxt(operand),
    }
}

// An operation of two operands on words.
fn two(op: TwoOp, src: Src, dst: Dst) -> Instr
    ensures { result ≡ Instr.Two op Width.Word src dst }
{
    Instr::Two {
        op,
        width: Width::Word,
        src,
        dst,
    }
}

// A register as a destination.
fn to_register(register: WorkRegister) -> Dst
    ensures { result ≡ Dst.Reg (Reg.Index (index_of register)) }
{
    Dst::Reg(Reg::Index(index_of(register)))
}

/// The instruction of a form.
pub fn instruction_of(form: &Form) -> Instr
    ensures { result ≡ instruction_of form.now }
{
    let pc = Dst::Reg(Reg::Pc);
    let stack_pointer = Src::Operand(Operand::Reg(SourceRegister::Index(IndexRegister::Sp)));
    match form {
        Form::Move(x, y) => two(TwoOp::Mov, source_operand(*x), target_operand(*y)),
        Form::Calculate(op, x, register) => two(*op, source_operand(*x), to_register(*register)),
        Form::Compare(x, address) => two(TwoOp::Cmp, source_operand(*x), Dst::Absolute(*address)),
        Form::Update(op, x, address) => two(*op, source_operand(*x), Dst::Absolute(*address)),
        Form::Push(x) => Instr::One(OneOp::Push(Width::Word, source_operand(*x))),
        Form::Modify(change, register) => Instr::One(modification_operand(*change, *register)),
        Form::SetStack(address) => two(
            TwoOp::Mov,
            Src::Immediate(*address),
            Dst::Reg(Reg::Index(IndexRegister::Sp)),
        ),
        Form::EnableInterrupts => two(TwoOp::Bis, Src::Constant(Konst::Eight), Dst::Reg(Reg::Sr)),
        Form::Sense(register) => two(
            TwoOp::Mov,
            Src::Operand(Operand::Absolute(SENSOR)),
            to_register(*register),
        ),
        Form::Jump(condition, offset) => Instr::Jump {
            condition: *condition,
            offset: *offset,
        },
        Form::Skip(bytes) => two(TwoOp::Add, Src::Immediate(*bytes), pc),
        Form::Branch(address) => two(TwoOp::Mov, Src::Immediate(*address), pc),
        Form::BranchIndexed(register, offset) => {
            two(
                TwoOp::Mov,
                source_operand(Source::Indexed(*register, *offset)),
                pc,
            )
        }
        Form::SkipBy(register) => two(TwoOp::Add, source_operand(Source::Register(*register)), pc),
        Form::Call(address) => Instr::One(OneOp::Call(Src::Immediate(*address))),
        Form::Return => two(TwoOp::Mov, source_operand(Source::Popped), pc),
        Form::KeepStack(register) => two(TwoOp::Mov, stack_pointer, to_register(*register)),
        Form::RestoreStack => two(
            TwoOp::Mov,
            source_operand(Source::Popped),
            Dst::Reg(Reg::Index(IndexRegister::Sp)),
        ),
    }
}

// The words of a source: 0 or 1.
fn source_words(source: Source) -> u16
    ensures value { 2 * result ≡ source_bytes source }
    ensures few { result ≤ 1 }
{
    match source {
        Source::Number(_) | Source::Fram(_) | Source::Ram(_) | Source::Indexed(_, _) => 1,
        Source::Head | Source::Slot(_) => 1,
        Source::Register(_) | Source::Constant(_) | Source::Pointed(_) => 0,
        Source::PointedNext(_) | Source::Popped | Source::StackNext(_) => 0,
    }
}

// The words of a target: 0 or 1.
fn target_words(target: Target) -> u16
    ensures value { 2 * result ≡ target_bytes target }
    ensures few { result ≤ 1 }
{
    match target {
        Target::ToRegister(_) => 0,
        Target::ToFram(_) | Target::ToRam(_) | Target::ToIndexed(_, _) => 1,
        Target::ToPointed(_) | Target::ToOutnum | Target::ToOutdata => 1,
    }
}

/// The words of the instruction of a form: 1 to 3.
pub fn form_words(form: &Form) -> u16
    ensures { 2 * result ≡ form_bytes form.now }
{
    match form {
        Form::Move(x, y) => 1 + source_words(*x) + target_words(*y),
        Form::Compare(x, _) | Form::Update(_, x, _) => 2 + source_words(*x),
        Form::Calculate(_, x, _) | Form::Push(x) => 1 + source_words(*x),
        Form::Modify(_, _) | Form::EnableInterrupts => 1,
        Form::Jump(_, _) | Form::SkipBy(_) => 1,
        Form::Return | Form::KeepStack(_) | Form::RestoreStack => 1,
        Form::SetStack(_) | Form::Sense(_) | Form::Skip(_) => 2,
        Form::Branch(_) | Form::BranchIndexed(_, _) | Form::Call(_) => 2,
    }
}

/// A short jump, by the ten bits of its offset.
pub fn jump(condition: Condition, bits: u16) -> Form
    requires { bits < 0x400 }
    ensures { result ≡ Form.Jump condition bits }
{
    Form::Jump(condition, Offset::from_bits(bits))
}
