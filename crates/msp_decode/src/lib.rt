//! The instruction that words begin with.
#![tactic(auto)]

ghost use Rattle.std.specs.Prelude.{◌≡◌, ℕ, ◌*◌, ◌/◌, ◌%◌, ◌<◌, ◌≤◌, List, [], ◌∷◌, length, IfSome, IfNone, IfOk, IfErr, slice_index};
ghost use Rattle.msp_isa.specs.Encoding.{source_row, byte_bit, encoding, first_word, IsPrefix, IsInstruction, IsIllegal, BeginsWith};

mod operands;

use msp_isa::{Condition, Instr, Offset, OneOp, Src, TwoOp, Width};
use operands::{destination_at, operand_at, source_at};

/// A word that begins no instruction.
#[derive(Clone, Copy, PartialEq, Eq, Debug)]
pub struct Illegal(pub u16);

fn width_at(w0: u16) -> Width
    ensures { byte_bit result ≡ w0 / 0x40 % 2 }
{
    if w0 / 0x40 % 2 == 0 {
        Width::Word
    } else {
        Width::Byte
    }
}

#[inline(always)]
fn jump_at(w0: u16) -> Instr
    requires low { 0x2000 ≤ w0 }
    requires below { w0 < 0x4000 }
    ensures fits { IsInstruction result }
    ensures found { encoding result ≡ w0 ∷ [] }
    ensures only { (i : Instr) → IsInstruction i → first_word i ≡ w0 → result ≡ i }
{
    Instr::Jump {
        condition: Condition::from_number(w0 / 0x400 % 8),
        offset: Offset::from_bits(w0 % 0x400),
    }
}

/// The word after the source's extension word, if it has one.
fn word_after(src: Src, w1: u16, w2: u16) -> u16
    ensures { result ≡ slice_index (w1 ∷ w2 ∷ []) (length (source_row src).extension) }
{
    if src.words() == 0 { w1 } else { w2 }
}

#[inline(always)]
fn two_at(w0: u16, w1: u16, w2: u16) -> Option<Instr>
    requires { 0x4000 ≤ w0 }
    ensures fits { IfSome result IsInstruction }
    ensures found { IfSome result (λ i. IsPrefix (encoding i) (w0 ∷ w1 ∷ w2 ∷ [])) }
    ensures only { (i : Instr) → IsInstruction i → IsPrefix (encoding i) (w0 ∷ w1 ∷ w2 ∷ []) → result ≡ Some i }
    ensures illegal { IfNone result (IsIllegal w0) }
{
    let op = TwoOp::from_opcode(w0 / 0x1000);
    let width = width_at(w0);
    let src = source_at(w0 / 0x10 % 4, w0 / 0x100 % 16, w1);
    let after = word_after(src, w1, w2);
    match destination_at(w0 / 0x80 % 2, w0 % 16, after) {
        None => None,
        Some(dst) => Some(Instr::Two {
            op,
            width,
            src,
            dst,
        }),
    }
}

/// An instruction of one operand, or RETI.
#[inline(always)]
#[tactic(auto, using(crate::proofs::Fields::one_fields, crate::proofs::Fields::same_width))]
fn one_at(w0: u16, w1: u16) -> Option<Instr>
    requires low { 0x1000 ≤ w0 }
    requires below { w0 < 0x2000 }
    ensures fits { IfSome result IsInstruction }
    ensures found { IfSome result (λ i. (w2 : ℕ) → IsPrefix (encoding i) (w0 ∷ w1 ∷ w2 ∷ [])) }
    ensures only { (i : Instr) (w2 : ℕ) → IsInstruction i → IsPrefix (encoding i) (w0 ∷ w1 ∷ w2 ∷ []) → result ≡ Some i }
    ensures illegal { IfNone result (IsIllegal w0) }
{
    let width = width_at(w0);
    let mode = w0 / 0x10 % 4;
    let register = w0 % 16;
    match w0 / 0x80 {
        0x20 => match operand_at(mode, register, w1) {
            Some(o) => Some(Instr::One(OneOp::Rrc(width, o))),
            None => None,
        },
        0x21 => match (width, operand_at(mode, register, w1)) {
            (Width::Word, Some(o)) => Some(Instr::One(OneOp::Swpb(o))),
            _ => None,
        },
        0x22 => match operand_at(mode, register, w1) {
            Some(o) => Some(Instr::One(OneOp::Rra(width, o))),
            None => None,
        },
        0x23 => match (width, operand_at(mode, register, w1)) {
            (Width::Word, Some(o)) => Some(Instr::One(OneOp::Sxt(o))),
            _ => None,
        },
        0x24 => Some(Instr::One(OneOp::Push(width, source_at(mode, register, w1)))),
        0x25 => match width {
            Width::Word => Some(Instr::One(OneOp::Call(source_at(mode, register, w1)))),
            Width::Byte => None,
        },
        0x26 => {
            if w0 == 0x1300 {
                Some(Instr::Reti)
            } else {
                None
            }
        }
        _ => None,
    }
}

#[inline(always)]
#[tactic(auto, using(crate::proofs::Fields::first_low, crate::proofs::Fields::prefix_first))]
fn instruction_at(w0: u16, w1: u16, w2: u16) -> Option<Instr>
    ensures fits { IfSome result IsInstruction }
    ensures found { IfSome result (λ i. IsPrefix (encoding i) (w0 ∷ w1 ∷ w2 ∷ [])) }
    ensures only { (i : Instr) → IsInstruction i → IsPrefix (encoding i) (w0 ∷ w1 ∷ w2 ∷ []) → result ≡ Some i }
    ensures illegal { IfNone result (IsIllegal w0) }
{
    if w0 >= 0x4000 {
        two_at(w0, w1, w2)
    } else if w0 >= 0x2000 {
        Some(jump_at(w0))
    } else if w0 >= 0x1000 {
        one_at(w0, w1)
    } else {
        None
    }
}

/// The instruction that these three words begin with, and how many of them it takes; the words behind those are ignored.
/// `Illegal` has the first word, and comes exactly where that begins no instruction.
#[tactic(auto, using(crate::proofs::Fields::prefix_first))]
pub fn decode(w0: u16, w1: u16, w2: u16) -> Result<(Instr, usize), Illegal>
    // The instruction's own words begin these, and no other instruction's do.
    ensures found { IfOk result (λ r. BeginsWith (w0 ∷ w1 ∷ w2 ∷ []) r.0 r.1) }
    ensures only { (i : Instr) → IsInstruction i → IsPrefix (encoding i) (w0 ∷ w1 ∷ w2 ∷ []) → result ≡ Ok (i, length (encoding i)) }
    ensures fits { IfOk result (λ r. IsInstruction r.0) }
    ensures short { IfOk result (λ r. (1 ≤ r.1) × (r.1 < 4)) }
    ensures first { IfOk result (λ r. first_word r.0 ≡ w0) }
    ensures illegal { IfErr result (λ e. (e ≡ record { 0 = w0 }) × IsIllegal w0) }
{
    match instruction_at(w0, w1, w2) {
        Some(instruction) => {
            let n = instruction.words();
            Ok((instruction, n))
        }
        None => Err(Illegal(w0)),
    }
}

/// The instruction of two operands that these three words begin with.
#[inline(always)]
pub fn two_operand_instruction(w0: u16, w1: u16, w2: u16) -> Instr
    requires form { 0x4000 ≤ w0 }
    requires legal { (i : Instr) × IsInstruction i × (first_word i ≡ w0) }
    ensures fits { IsInstruction result }
    ensures found { IsPrefix (encoding result) (w0 ∷ w1 ∷ w2 ∷ []) }
{
    match two_at(w0, w1, w2) {
        Some(instruction) => instruction,
        None => unreachable!(),
    }
}

/// The instruction of one operand, or RETI, that these two words begin with.
#[inline(always)]
pub fn one_operand_instruction(w0: u16, w1: u16) -> Instr
    requires low { 0x1000 ≤ w0 }
    requires below { w0 < 0x2000 }
    requires legal { (i : Instr) × IsInstruction i × (first_word i ≡ w0) }
    ensures fits { IsInstruction result }
    ensures found { (w2 : ℕ) → IsPrefix (encoding result) (w0 ∷ w1 ∷ w2 ∷ []) }
{
    match one_at(w0, w1) {
        Some(instruction) => instruction,
        None => unreachable!(),
    }
}

/// The jump that this word is.
#[inline(always)]
pub fn jump_instruction(w0: u16) -> Instr
    requires low { 0x2000 ≤ w0 }
    requires below { w0 < 0x4000 }
    ensures fits { IsInstruction result }
    ensures found { (w1 w2 : ℕ) → IsPrefix (encoding result) (w0 ∷ w1 ∷ w2 ∷ []) }
{
    jump_at(w0)
}

/// How many words the instructions have that begin with this word: 1 to 3. `Illegal` has the word, and comes exactly where
/// it begins no instruction.
#[inline(always)]
pub fn words_of(w0: u16) -> Result<usize, Illegal>
    ensures short { IfOk result (λ n. (1 ≤ n) × (n < 4)) }
    ensures found { IfOk result (λ n. (i : Instr) × IsInstruction i × (first_word i ≡ w0) × (length (encoding i) ≡ n)) }
    ensures only { (i : Instr) → IsInstruction i → first_word i ≡ w0 → result ≡ Ok (length (encoding i)) }
    ensures illegal { IfErr result (λ e. (e ≡ record { 0 = w0 }) × IsIllegal w0) }
{
    match instruction_at(w0, 0, 0) {
        Some(instruction) => Ok(instruction.words()),
        None => Err(Illegal(w0)),
    }
}

/// Words begin at most one instruction.
#[tactic(auto, using(crate::proofs::Unique::is_unique))]
pub fn one_instruction()
    ensures { (i j : Instr) (ws : List ℕ) → IsInstruction i → IsInstruction j → IsPrefix (encoding i) ws → IsPrefix (encoding j) ws → i ≡ j }
{}
