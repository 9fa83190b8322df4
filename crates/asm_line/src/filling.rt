//! Values put into an instruction.
ghost use Rattle.std.specs.Prelude.{◌≡◌, ℕ, ◌<◌, Some, IfSome};
ghost use Rattle.asm_line.specs.Filling.{words_on, relative, fill_operand, fill_source, fill_destination, fill_one, fill, jump_target, distance, offset_to};

use msp_isa::{Dst, Instr, Offset, OneOp, Operand, Src};

fn words_on(words: usize, address: u16) -> u16
    requires { words < 4 }
    ensures { result ≡ words_on words address }
{
    address.wrapping_add(2 * words as u16)
}

fn relative(address: u16, value: u16) -> u16
    ensures { result ≡ relative address value }
{
    value.wrapping_sub(address)
}

fn fill_operand(address: u16, value: u16, operand: Operand) -> Operand
    ensures { result ≡ fill_operand address value operand }
{
    match operand {
        Operand::Indexed(r, _) => Operand::Indexed(r, value),
        Operand::Symbolic(_) => Operand::Symbolic(relative(address, value)),
        Operand::Absolute(_) => Operand::Absolute(value),
        Operand::Reg(_) | Operand::Indirect(_) | Operand::Increment(_) => operand,
    }
}

fn fill_source(address: u16, value: u16, src: Src) -> Src
    ensures { result ≡ fill_source address value src }
{
    match src {
        Src::Operand(o) => Src::Operand(fill_operand(address, value, o)),
        Src::Immediate(_) => Src::Immediate(value),
        Src::Constant(_) => src,
    }
}

fn fill_destination(address: u16, value: u16, dst: Dst) -> Dst
    ensures { result ≡ fill_destination address value dst }
{
    match dst {
        Dst::Reg(_) => dst,
        Dst::Indexed(r, _) => Dst::Indexed(r, value),
        Dst::Symbolic(_) => Dst::Symbolic(relative(address, value)),
        Dst::Absolute(_) => Dst::Absolute(value),
    }
}

fn fill_one(address: u16, value: u16, op: OneOp) -> OneOp
    ensures { result ≡ fill_one address value op }
{
    match op {
        OneOp::Rrc(width, o) => OneOp::Rrc(width, fill_operand(address, value, o)),
        OneOp::Swpb(o) => OneOp::Swpb(fill_operand(address, value, o)),
        OneOp::Rra(width, o) => OneOp::Rra(width, fill_operand(address, value, o)),
        OneOp::Sxt(o) => OneOp::Sxt(fill_operand(address, value, o)),
        OneOp::Push(width, s) => OneOp::Push(width, fill_source(address, value, s)),
        OneOp::Call(s) => OneOp::Call(fill_source(address, value, s)),
    }
}

/// The instruction at an address with the values of its source and its destination operand in place. An operand that takes
/// no extension word stays, and a symbolic one becomes relative to its extension word.
pub fn fill(address: u16, source: u16, destination: u16, instr: Instr) -> Instr
    ensures { result ≡ fill address source destination instr }
{
    match instr {
        Instr::Two {
            op,
            width,
            src,
            dst,
        } => Instr::Two {
            op,
            width,
            src: fill_source(words_on(1, address), source, src),
            dst: fill_destination(words_on(1 + src.words(), address), destination, dst),
        },
        Instr::One(op) => Instr::One(fill_one(words_on(1, address), source, op)),
        Instr::Jump {
            condition: _,
            offset: _,
        }
        | Instr::Reti => instr,
    }
}

/// The offset of a jump at an address to a target: the only one from -512 to 511 that reaches it, and nothing where none does.
#[tactic(auto, unfolding(crate::specs::Filling::offset_to))]
pub fn offset_to(address: u16, target: u16) -> Option<Offset>
    ensures value { result ≡ offset_to address target }
    ensures found { IfSome result (λ bits. jump_target address bits ≡ target) }
    ensures only { (bits : ℕ) → bits < 0x400 → jump_target address bits ≡ target → result ≡ Some bits }
{
    let distance = target.wrapping_sub(address).wrapping_sub(2);
    if distance % 2 == 0 && (distance < 0x400 || distance >= 0xFC00) {
        Some(Offset::from_bits(distance / 2 % 0x400))
    } else {
        None
    }
}
