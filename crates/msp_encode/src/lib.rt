//! The words of an instruction.
#![tactic(auto)]

ghost use Rattle.std.specs.Prelude.{◌≡◌, ◌+◌, ◌<◌, ◌≤◌, ◌++◌, ◌∷◌, []};
ghost use Rattle.std.specs.Option.{option_to_list};
ghost use Rattle.arrayvec.specs.ArrayVec.{array_vec_len};
ghost use Rattle.msp_isa.specs.Encoding.{operand_row, source_row, destination_row, byte_bit, two_encoding, one_encoding, encoding};
ghost use Rattle.msp_encode.specs.Fields.{row_of};

mod fields;

use arrayvec::ArrayVec;
use fields::Fields;
use msp_isa::{Dst, Instr, Konst, OneOp, Operand, Src, Width};

fn operand_fields(operand: Operand) -> Fields
    ensures { row_of result ≡ operand_row operand }
{
    let (mode, register, extension) = match operand {
        Operand::Reg(r) => (0, r.number(), None),
        Operand::Indexed(r, x) => (1, r.number(), Some(x)),
        Operand::Symbolic(x) => (1, 0, Some(x)),
        Operand::Absolute(a) => (1, 2, Some(a)),
        Operand::Indirect(r) => (2, r.number(), None),
        Operand::Increment(r) => (3, r.number(), None),
    };
    Fields {
        mode,
        register,
        extension,
    }
}

fn constant_fields(constant: Konst) -> Fields
    ensures { row_of result ≡ source_row (Src.Constant constant) }
{
    let (mode, register) = match constant {
        Konst::Zero => (0, 3),
        Konst::One => (1, 3),
        Konst::Two => (2, 3),
        Konst::MinusOne => (3, 3),
        Konst::Four => (2, 2),
        Konst::Eight => (3, 2),
    };
    Fields {
        mode,
        register,
        extension: None,
    }
}

fn source_fields(src: Src) -> Fields
    ensures { row_of result ≡ source_row src }
{
    match src {
        Src::Operand(operand) => operand_fields(operand),
        Src::Immediate(n) => Fields {
            mode: 3,
            register: 0,
            extension: Some(n),
        },
        Src::Constant(constant) => constant_fields(constant),
    }
}

fn destination_fields(dst: Dst) -> Fields
    ensures row { row_of result ≡ destination_row dst }
    ensures mode { result.mode < 2 }
{
    let (mode, register, extension) = match dst {
        Dst::Reg(r) => (0, r.number(), None),
        Dst::Indexed(r, x) => (1, r.number(), Some(x)),
        Dst::Symbolic(x) => (1, 0, Some(x)),
        Dst::Absolute(a) => (1, 2, Some(a)),
    };
    Fields {
        mode,
        register,
        extension,
    }
}

fn byte_bit(width: Width) -> u16
    ensures value { result ≡ byte_bit width }
    ensures below { result < 2 }
{
    match width {
        Width::Word => 0,
        Width::Byte => 1,
    }
}

fn push_extension(words: &mut ArrayVec<u16, 3>, extension: Option<u16>)
    requires { array_vec_len words.old < 3 }
    ensures items { words.new.items ≡ words.old.items ++ option_to_list extension }
    ensures len { array_vec_len words.new ≤ array_vec_len words.old + 1 }
{
    if let Some(word) = extension {
        words.push(word);
    }
}

/// The words of an instruction that has no operand.
fn lone(word: u16) -> ArrayVec<u16, 3>
    ensures { result.items ≡ word ∷ [] }
{
    let mut words = ArrayVec::new();
    words.push(word);
    words
}

/// The words of an instruction of one operand; `operation` is the first word without its fields.
fn one(operation: u16, width: Width, operand: Fields) -> ArrayVec<u16, 3>
    requires { operation ≤ 0x1280 }
    ensures { result.items ≡ one_encoding operation width (row_of operand) }
{
    let mut words = ArrayVec::new();
    words.push(operation + byte_bit(width) * 0x40 + operand.mode * 0x10 + operand.register);
    push_extension(&mut words, operand.extension);
    words
}

/// The words of an instruction of two operands.
fn two(opcode: u16, width: Width, src: Fields, dst: Fields) -> ArrayVec<u16, 3>
    requires opcode { opcode < 16 }
    requires mode { dst.mode < 2 }
    ensures { result.items ≡ two_encoding opcode width (row_of src) (row_of dst) }
{
    let mut words = ArrayVec::new();
    words.push(
        opcode * 0x1000
            + src.register * 0x100
            + dst.mode * 0x80
            + byte_bit(width) * 0x40
            + src.mode * 0x10
            + dst.register,
    );
    push_extension(&mut words, src.extension);
    push_extension(&mut words, dst.extension);
    words
}

/// The words of an instruction of one operand.
fn one_words(instruction: OneOp) -> ArrayVec<u16, 3>
    ensures { result.items ≡ encoding (Instr.One instruction) }
{
    match instruction {
        OneOp::Rrc(width, o) => one(0x1000, width, operand_fields(o)),
        OneOp::Swpb(o) => one(0x1080, Width::Word, operand_fields(o)),
        OneOp::Rra(width, o) => one(0x1100, width, operand_fields(o)),
        OneOp::Sxt(o) => one(0x1180, Width::Word, operand_fields(o)),
        OneOp::Push(width, s) => one(0x1200, width, source_fields(s)),
        OneOp::Call(s) => one(0x1280, Width::Word, source_fields(s)),
    }
}

/// The words of an instruction, one to three: the only ones that decode to it.
pub fn encode(instruction: &Instr) -> ArrayVec<u16, 3>
    ensures { result.items ≡ encoding instruction.now }
{
    match *instruction {
        Instr::Two {
            op,
            width,
            src,
            dst,
        } => two(
            op.opcode(),
            width,
            source_fields(src),
            destination_fields(dst),
        ),
        Instr::One(one) => one_words(one),
        Instr::Jump { condition, offset } => {
            lone(0x2000 + condition.number() * 0x400 + offset.bits())
        }
        Instr::Reti => lone(0x1300),
    }
}
