//! Tests of encoder, decoder and cycle table against words and counts from outside.
use msp_cycles::cycles;
use msp_decode::{Illegal, decode, words_of};
use msp_encode::encode;
use msp_isa::{
    Condition, Dst, IndexRegister, Instr, Konst, Offset, OneOp, Operand, Reg, SourceRegister, Src,
    TwoOp, Width,
};
use std::process::Abort;

/// The instruction has these words and cycles, and the words decode to it.
fn check(rt: &impl Abort, instruction: Instr, words: &[u16], count: u32) {
    let w0 = words.get(0).copied().unwrap_or(0);
    let w1 = words.get(1).copied().unwrap_or(0);
    let w2 = words.get(2).copied().unwrap_or(0);
    assert_eq!(rt; encode(&instruction).as_slice(), words);
    assert_eq!(rt; cycles(&instruction), count);
    assert_eq!(rt; words_of(w0), Ok(words.len()));
    assert_eq!(rt; decode(w0, w1, w2), Ok((instruction, words.len())));
}

fn two(op: TwoOp, src: Src, dst: Dst) -> Instr {
    Instr::Two {
        op,
        width: Width::Word,
        src,
        dst,
    }
}

#[test]
fn two_operands(rt: HostRuntime) {
    let r4 = Dst::Reg(Reg::Index(IndexRegister::R4));
    let r12 = Dst::Reg(Reg::Index(IndexRegister::R12));
    let sensor = Src::Operand(Operand::Absolute(0x0200));
    let top = Src::Operand(Operand::Increment(IndexRegister::Sp));
    let indexed = Src::Operand(Operand::Indexed(IndexRegister::R5, 4));
    check(&rt, two(TwoOp::Mov, Src::Immediate(5), r4), &[0x4034, 5], 2);
    check(
        &rt,
        two(TwoOp::Mov, Src::Constant(Konst::One), r4),
        &[0x4314],
        1,
    );
    check(&rt, two(TwoOp::Mov, sensor, r12), &[0x421c, 0x0200], 3);
    check(&rt, two(TwoOp::Mov, top, Dst::Reg(Reg::Pc)), &[0x4130], 3);
    check(
        &rt,
        two(TwoOp::Add, indexed, Dst::Absolute(0x4400)),
        &[0x5592, 4, 0x4400],
        6,
    );
}

#[test]
fn one_operand_and_jumps(rt: HostRuntime) {
    let r4 = Operand::Reg(SourceRegister::Index(IndexRegister::R4));
    let back = Instr::Jump {
        condition: Condition::Always,
        offset: Offset::from_words(-1),
    };
    check(
        &rt,
        Instr::One(OneOp::Push(Width::Word, Src::Constant(Konst::Four))),
        &[0x1222],
        3,
    );
    check(
        &rt,
        Instr::One(OneOp::Call(Src::Immediate(0x4400))),
        &[0x12b0, 0x4400],
        5,
    );
    check(&rt, Instr::One(OneOp::Rra(Width::Byte, r4)), &[0x1144], 1);
    check(&rt, back, &[0x3fff], 2);
    check(&rt, Instr::Reti, &[0x1300], 5);
    assert_eq!(rt; Offset::from_words(-1).words(), -1);
    assert_eq!(rt; Konst::MinusOne.value(), 0xffff);
}

#[test]
fn each_first_word_decodes_or_is_illegal(rt: HostRuntime) {
    for w in 0..=u16::MAX {
        match (words_of(w), decode(w, 0x1234, 0x5678)) {
            (Ok(n), Ok((instruction, length))) => {
                assert_eq!(rt; n, length);
                assert_eq!(rt; encode(&instruction).as_slice(), &[w, 0x1234, 0x5678][..n]);
            }
            (words, decoded) => {
                assert_eq!(rt; words, Err(Illegal(w)));
                assert_eq!(rt; decoded, Err(Illegal(w)));
            }
        }
    }
}

/// How many first words begin instructions of this length.
fn count_of(length: usize) -> usize {
    (0..=u16::MAX)
        .filter(|&w| words_of(w) == Ok(length))
        .count()
}

#[test]
fn first_words_by_length(rt: HostRuntime) {
    assert_eq!(rt; count_of(1), 27021);
    assert_eq!(rt; count_of(2), 23562);
    assert_eq!(rt; count_of(3), 5760);
}
