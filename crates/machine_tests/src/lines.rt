//! Each call once.
use asm_line::{fill, offset_to};
use msp_isa::{Dst, IndexRegister, Instr, Konst, Reg, Src, TwoOp, Width};

#[test]
fn values_and_offsets(rt: HostRuntime) {
    let r4 = Dst::Reg(Reg::Index(IndexRegister::R4));
    let one = Instr::Two {
        op: TwoOp::Mov,
        width: Width::Word,
        src: Src::Constant(Konst::One),
        dst: r4,
    };
    assert_eq!(rt; fill(0x4400, 7, 7, one), one);
    assert_eq!(rt; offset_to(0x4400, 0x4800).map(|o| o.words()), Some(511));
    assert_eq!(rt; offset_to(0x4400, 0x4802), None);
    assert_eq!(rt; offset_to(0x0200, 0xFE02).map(|o| o.words()), Some(-512));
    assert_eq!(rt; offset_to(0x4400, 0x4401), None);
}
