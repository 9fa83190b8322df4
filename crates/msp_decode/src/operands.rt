//! The operands that the fields of a first word stand for.

ghost use Rattle.std.specs.Prelude.{◌≡◌, ◌<◌, [], ◌∷◌, IfSome, IfNone};
ghost use Rattle.msp_isa.specs.Encoding.{operand_row, source_row, destination_row, HasFields, IsPrefix};

use msp_isa::{Dst, IndexRegister, IndirectRegister, Konst, Operand, Reg, SourceRegister, Src};

/// The source operand of As and a register's number; `word` is its extension word, if it takes one.
#[inline(always)]
pub fn source_at(mode: u16, register: u16, word: u16) -> Src
    requires mode { mode < 4 }
    requires register { register < 16 }
    ensures found { HasFields (source_row result) mode register × IsPrefix (source_row result).extension (word ∷ []) }
    ensures only { (p : Src) → HasFields (source_row p) mode register → IsPrefix (source_row p).extension (word ∷ []) → result ≡ p }
{
    match register {
        0 => match mode {
            0 => Src::Operand(Operand::Reg(SourceRegister::Pc)),
            1 => Src::Operand(Operand::Symbolic(word)),
            2 => Src::Operand(Operand::Indirect(IndirectRegister::Pc)),
            _ => Src::Immediate(word),
        },
        2 => match mode {
            0 => Src::Operand(Operand::Reg(SourceRegister::Sr)),
            1 => Src::Operand(Operand::Absolute(word)),
            2 => Src::Constant(Konst::Four),
            _ => Src::Constant(Konst::Eight),
        },
        3 => Src::Constant(match mode {
            0 => Konst::Zero,
            1 => Konst::One,
            2 => Konst::Two,
            _ => Konst::MinusOne,
        }),
        _ => {
            let r = IndexRegister::from_number(register);
            Src::Operand(match mode {
                0 => Operand::Reg(SourceRegister::Index(r)),
                1 => Operand::Indexed(r, word),
                2 => Operand::Indirect(IndirectRegister::Index(r)),
                _ => Operand::Increment(r),
            })
        }
    }
}

/// The same for an operation that takes no immediate and no constant.
#[inline(always)]
pub fn operand_at(mode: u16, register: u16, word: u16) -> Option<Operand>
    requires mode { mode < 4 }
    requires register { register < 16 }
    ensures found { IfSome result (λ p. HasFields (operand_row p) mode register × IsPrefix (operand_row p).extension (word ∷ [])) }
    ensures only { (p : Operand) → HasFields (operand_row p) mode register → IsPrefix (operand_row p).extension (word ∷ []) → result ≡ Some p }
    ensures none { IfNone result ((p : Operand) → HasFields (operand_row p) mode register → ⊥) }
{
    match source_at(mode, register, word) {
        Src::Operand(operand) => Some(operand),
        _ => None,
    }
}

/// The destination operand of Ad and a register's number; none for R3 in memory.
#[inline(always)]
pub fn destination_at(mode: u16, register: u16, word: u16) -> Option<Dst>
    requires mode { mode < 2 }
    requires register { register < 16 }
    ensures found { IfSome result (λ p. HasFields (destination_row p) mode register × IsPrefix (destination_row p).extension (word ∷ [])) }
    ensures only { (p : Dst) → HasFields (destination_row p) mode register → IsPrefix (destination_row p).extension (word ∷ []) → result ≡ Some p }
    ensures none { IfNone result ((p : Dst) → HasFields (destination_row p) mode register → ⊥) }
{
    if mode == 0 {
        return Some(Dst::Reg(Reg::from_number(register)));
    }
    match register {
        0 => Some(Dst::Symbolic(word)),
        2 => Some(Dst::Absolute(word)),
        3 => None,
        _ => Some(Dst::Indexed(IndexRegister::from_number(register), word)),
    }
}
