//! Instructions as texts.
ghost use Rattle.std.specs.Prelude.{◌≡◌, ◌≤◌, ◌<◌, ◌+◌, ◌%◌, ◌*◌, ◌++◌, [], length};
ghost use Rattle.arrayvec.specs.ArrayVec.{array_vec_len};
ghost use Rattle.asm_line.specs.Filling.{words_on, jump_target};
ghost use Rattle.msp_isa.specs.Encoding.{source_row};
ghost use Rattle.msp_asm.specs.Written.{number_text, index_text, readable_text, pointer_text, register_text, indexed_text, operand_text, source_text};
ghost use Rattle.msp_asm.specs.Written.{destination_text, two_text, condition_text, width_text, one_text, instr_text};

use arrayvec::ArrayVec;
use msp_isa::{
    Condition, Dst, IndexRegister, IndirectRegister, Instr, Offset, OneOp, Operand, Reg,
    SourceRegister, Src, TwoOp, Width,
};
use text_parts::upper_hex;

/// A line that is being written.
pub type Text = ArrayVec<u8, 64>;

/// Writes bytes behind those that there are.
pub fn push_text(out: &mut Text, piece: &[u8])
    requires { array_vec_len out.old + length piece.now ≤ 64 }
    ensures text { out.new.items ≡ out.old.items ++ piece.now }
    ensures len { array_vec_len out.new ≡ array_vec_len out.old + length piece.now }
{
    out.try_extend_from_slice(piece).unwrap();
}

/// Writes a word as `0x` and four upper-case digits.
#[tactic(auto, unfolding(crate::specs::Written::number_text, image_text::specs::Text::upper_hex4))]
pub fn push_number(out: &mut Text, w: u16)
    requires { array_vec_len out.old + 6 ≤ 64 }
    ensures text { out.new.items ≡ out.old.items ++ number_text w }
    ensures len { array_vec_len out.new ≡ array_vec_len out.old + 6 }
{
    push_text(out, b"0x");
    push_text(out, &upper_hex((w / 256) as u8));
    push_text(out, &upper_hex((w % 256) as u8));
}

fn index_text(r: IndexRegister) -> &'static [u8]
    ensures text { result.now ≡ index_text r }
    ensures short { length result.now ≤ 3 }
{
    match r {
        IndexRegister::Sp => b"sp",
        IndexRegister::R4 => b"r4",
        IndexRegister::R5 => b"r5",
        IndexRegister::R6 => b"r6",
        IndexRegister::R7 => b"r7",
        IndexRegister::R8 => b"r8",
        IndexRegister::R9 => b"r9",
        IndexRegister::R10 => b"r10",
        IndexRegister::R11 => b"r11",
        IndexRegister::R12 => b"r12",
        IndexRegister::R13 => b"r13",
        IndexRegister::R14 => b"r14",
        IndexRegister::R15 => b"r15",
    }
}

fn readable_text(r: SourceRegister) -> &'static [u8]
    ensures text { result.now ≡ readable_text r }
    ensures short { length result.now ≤ 3 }
{
    match r {
        SourceRegister::Pc => b"pc",
        SourceRegister::Sr => b"sr",
        SourceRegister::Index(r) => index_text(r),
    }
}

fn pointer_text(r: IndirectRegister) -> &'static [u8]
    ensures text { result.now ≡ pointer_text r }
    ensures short { length result.now ≤ 3 }
{
    match r {
        IndirectRegister::Pc => b"pc",
        IndirectRegister::Index(r) => index_text(r),
    }
}

fn register_text(r: Reg) -> &'static [u8]
    ensures text { result.now ≡ register_text r }
    ensures short { length result.now ≤ 3 }
{
    match r {
        Reg::Pc => b"pc",
        Reg::Sr => b"sr",
        Reg::R3 => b"r3",
        Reg::Index(r) => index_text(r),
    }
}

fn push_indexed(out: &mut Text, x: u16, r: IndexRegister)
    requires { array_vec_len out.old + 11 ≤ 64 }
    ensures text { out.new.items ≡ out.old.items ++ indexed_text x r }
    ensures len { array_vec_len out.new ≤ array_vec_len out.old + 11 }
{
    push_number(out, x);
    push_text(out, b"(");
    push_text(out, index_text(r));
    push_text(out, b")");
}

// Writes an operand whose extension word, if it has one, stands at an address.
#[tactic(auto, unfolding(crate::specs::Written::operand_text))]
fn push_operand(out: &mut Text, address: u16, operand: Operand)
    requires { array_vec_len out.old + 11 ≤ 64 }
    ensures text { out.new.items ≡ out.old.items ++ operand_text address operand }
    ensures len { array_vec_len out.new ≤ array_vec_len out.old + 11 }
{
    match operand {
        Operand::Reg(r) => push_text(out, readable_text(r)),
        Operand::Indexed(r, x) => push_indexed(out, x, r),
        Operand::Symbolic(x) => push_number(out, address.wrapping_add(x)),
        Operand::Absolute(a) => {
            push_text(out, b"&");
            push_number(out, a);
        }
        Operand::Indirect(r) => {
            push_text(out, b"@");
            push_text(out, pointer_text(r));
        }
        Operand::Increment(r) => {
            push_text(out, b"@");
            push_text(out, index_text(r));
            push_text(out, b"+");
        }
    }
}

fn push_source(out: &mut Text, address: u16, src: Src)
    requires { array_vec_len out.old + 11 ≤ 64 }
    ensures text { out.new.items ≡ out.old.items ++ source_text address src }
    ensures len { array_vec_len out.new ≤ array_vec_len out.old + 11 }
{
    match src {
        Src::Operand(o) => push_operand(out, address, o),
        Src::Immediate(n) => {
            push_text(out, b"#");
            push_number(out, n);
        }
        Src::Constant(constant) => {
            push_text(out, b"#");
            push_number(out, constant.value());
        }
    }
}

#[tactic(auto, unfolding(crate::specs::Written::destination_text))]
fn push_destination(out: &mut Text, address: u16, dst: Dst)
    requires { array_vec_len out.old + 11 ≤ 64 }
    ensures text { out.new.items ≡ out.old.items ++ destination_text address dst }
    ensures len { array_vec_len out.new ≤ array_vec_len out.old + 11 }
{
    match dst {
        Dst::Reg(r) => push_text(out, register_text(r)),
        Dst::Indexed(r, x) => push_indexed(out, x, r),
        Dst::Symbolic(x) => push_number(out, address.wrapping_add(x)),
        Dst::Absolute(a) => {
            push_text(out, b"&");
            push_number(out, a);
        }
    }
}

fn two_text(op: TwoOp) -> &'static [u8]
    ensures text { result.now ≡ two_text op }
    ensures short { length result.now ≤ 4 }
{
    match op {
        TwoOp::Mov => b"mov",
        TwoOp::Add => b"add",
        TwoOp::Addc => b"addc",
        TwoOp::Subc => b"subc",
        TwoOp::Sub => b"sub",
        TwoOp::Cmp => b"cmp",
        TwoOp::Dadd => b"dadd",
        TwoOp::Bit => b"bit",
        TwoOp::Bic => b"bic",
        TwoOp::Bis => b"bis",
        TwoOp::Xor => b"xor",
        TwoOp::And => b"and",
    }
}

fn condition_text(condition: Condition) -> &'static [u8]
    ensures text { result.now ≡ condition_text condition }
    ensures short { length result.now ≤ 3 }
{
    match condition {
        Condition::NotEqual => b"jne",
        Condition::Equal => b"jeq",
        Condition::NoCarry => b"jnc",
        Condition::Carry => b"jc",
        Condition::Negative => b"jn",
        Condition::GreaterOrEqual => b"jge",
        Condition::Less => b"jl",
        Condition::Always => b"jmp",
    }
}

fn width_text(width: Width) -> &'static [u8]
    ensures text { result.now ≡ width_text width }
    ensures short { length result.now ≤ 2 }
{
    match width {
        Width::Word => b"",
        Width::Byte => b".b",
    }
}

// Writes the name of an operation, its suffix and a blank.
fn push_name(out: &mut Text, name: &[u8], width: Width)
    requires room { array_vec_len out.old + 7 ≤ 64 }
    requires short { length name.now ≤ 4 }
    ensures text { out.new.items ≡ out.old.items ++ name.now ++ width_text width ++ (32 ∷ []) }
    ensures len { array_vec_len out.new ≤ array_vec_len out.old + 7 }
{
    push_text(out, name);
    push_text(out, width_text(width));
    push_text(out, b" ");
}

ghost use Rattle.std.specs.Prelude.{◌∷◌};

fn push_one(out: &mut Text, address: u16, op: OneOp)
    requires { array_vec_len out.old + 18 ≤ 64 }
    ensures text { out.new.items ≡ out.old.items ++ one_text address op }
    ensures len { array_vec_len out.new ≤ array_vec_len out.old + 18 }
{
    match op {
        OneOp::Rrc(width, o) => {
            push_name(out, b"rrc", width);
            push_operand(out, address, o);
        }
        OneOp::Swpb(o) => {
            push_text(out, b"swpb ");
            push_operand(out, address, o);
        }
        OneOp::Rra(width, o) => {
            push_name(out, b"rra", width);
            push_operand(out, address, o);
        }
        OneOp::Sxt(o) => {
            push_text(out, b"sxt ");
            push_operand(out, address, o);
        }
        OneOp::Push(width, s) => {
            push_name(out, b"push", width);
            push_source(out, address, s);
        }
        OneOp::Call(s) => {
            push_text(out, b"call ");
            push_source(out, address, s);
        }
    }
}

fn words_on(words: usize, address: u16) -> u16
    requires { words < 4 }
    ensures { result ≡ words_on words address }
{
    address.wrapping_add(2 * words as u16)
}

fn jump_target(address: u16, offset: Offset) -> u16
    requires { offset < 0x400 }
    ensures { result ≡ jump_target address offset }
{
    let bits = offset.bits();
    let back = if bits < 0x200 { 0 } else { 0xF800 };
    address
        .wrapping_add(2)
        .wrapping_add(2 * bits)
        .wrapping_add(back)
}

fn push_two(out: &mut Text, address: u16, src: Src, dst: Dst)
    requires { array_vec_len out.old + 23 ≤ 64 }
    ensures text { out.new.items ≡ out.old.items ++ source_text (words_on 1 address) src ++ (44 ∷ [])
        ++ destination_text (words_on (1 + length (source_row src).extension) address) dst }
    ensures len { array_vec_len out.new ≤ array_vec_len out.old + 23 }
{
    push_source(out, words_on(1, address), src);
    push_text(out, b",");
    push_destination(out, words_on(1 + src.words(), address), dst);
}

fn push_jump(out: &mut Text, address: u16, condition: Condition, offset: Offset)
    requires room { array_vec_len out.old + 10 ≤ 64 }
    requires offset { offset < 0x400 }
    ensures text { out.new.items ≡ out.old.items ++ condition_text condition ++ (32 ∷ []) ++ number_text (jump_target address offset) }
    ensures len { array_vec_len out.new ≤ array_vec_len out.old + 10 }
{
    push_text(out, condition_text(condition));
    push_text(out, b" ");
    push_number(out, jump_target(address, offset));
}

/// Writes the text of an instruction at an address, at most 30 bytes.
#[tactic(auto, unfolding(crate::specs::Written::instr_text))]
pub fn push_instr(out: &mut Text, address: u16, instr: Instr)
    requires room { array_vec_len out.old + 30 ≤ 64 }
    requires fits { IsInstruction instr }
    ensures text { out.new.items ≡ out.old.items ++ instr_text address instr }
    ensures len { array_vec_len out.new ≤ array_vec_len out.old + 30 }
{
    match instr {
        Instr::Two {
            op,
            width,
            src,
            dst,
        } => {
            push_name(out, two_text(op), width);
            push_two(out, address, src, dst);
        }
        Instr::One(op) => push_one(out, words_on(1, address), op),
        Instr::Jump { condition, offset } => push_jump(out, address, condition, offset),
        Instr::Reti => push_text(out, b"reti"),
    }
}

ghost use Rattle.msp_isa.specs.Encoding.{IsInstruction};
