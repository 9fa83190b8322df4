//! The names of operations.
ghost use Rattle.std.specs.Prelude.{◌≡◌, map, option_map};
ghost use Rattle.asm_line.specs.Values.{look_up};
ghost use Rattle.asm_line.specs.Tables.{two_named, one_named, condition_named, emulated_named};
ghost use Rattle.asm_line.specs.TableViews.{core_text_of, row_of};

use OperandText::{Fixed, Written};
use msp_isa::{Condition, TwoOp};

/// An operation of one operand.
#[derive(Clone, Copy)]
pub enum OneName {
    Rrc,
    Swpb,
    Rra,
    Sxt,
    Push,
    Call,
}

/// An operand of a core text.
#[derive(Clone, Copy)]
pub enum OperandText {
    /// The operand that is written behind the emulated operation.
    Written,
    Fixed(&'static [u8]),
}

/// The core text of an emulated operation.
#[derive(Clone, Copy)]
pub struct CoreText {
    pub op: TwoOp,
    pub source: OperandText,
    pub destination: OperandText,
}

/// The operations of two operands.
static TWO: [(&[u8], TwoOp); 12] = [
    (b"mov", TwoOp::Mov),
    (b"add", TwoOp::Add),
    (b"addc", TwoOp::Addc),
    (b"subc", TwoOp::Subc),
    (b"sub", TwoOp::Sub),
    (b"cmp", TwoOp::Cmp),
    (b"dadd", TwoOp::Dadd),
    (b"bit", TwoOp::Bit),
    (b"bic", TwoOp::Bic),
    (b"bis", TwoOp::Bis),
    (b"xor", TwoOp::Xor),
    (b"and", TwoOp::And),
];

/// The operations of one operand.
static ONE: [(&[u8], OneName); 6] = [
    (b"rrc", OneName::Rrc),
    (b"swpb", OneName::Swpb),
    (b"rra", OneName::Rra),
    (b"sxt", OneName::Sxt),
    (b"push", OneName::Push),
    (b"call", OneName::Call),
];

/// The jumps.
static CONDITIONS: [(&[u8], Condition); 12] = [
    (b"jne", Condition::NotEqual),
    (b"jnz", Condition::NotEqual),
    (b"jeq", Condition::Equal),
    (b"jz", Condition::Equal),
    (b"jnc", Condition::NoCarry),
    (b"jlo", Condition::NoCarry),
    (b"jc", Condition::Carry),
    (b"jhs", Condition::Carry),
    (b"jn", Condition::Negative),
    (b"jge", Condition::GreaterOrEqual),
    (b"jl", Condition::Less),
    (b"jmp", Condition::Always),
];

/// The emulated operations, each with its core text: an operation, its source and its destination.
static EMULATED: [(&[u8], (TwoOp, OperandText, OperandText)); 24] = [
    (b"adc", (TwoOp::Addc, Fixed(b"#0"), Written)),
    (b"br", (TwoOp::Mov, Written, Fixed(b"pc"))),
    (b"clr", (TwoOp::Mov, Fixed(b"#0"), Written)),
    (b"clrc", (TwoOp::Bic, Fixed(b"#1"), Fixed(b"sr"))),
    (b"clrz", (TwoOp::Bic, Fixed(b"#2"), Fixed(b"sr"))),
    (b"clrn", (TwoOp::Bic, Fixed(b"#4"), Fixed(b"sr"))),
    (b"dadc", (TwoOp::Dadd, Fixed(b"#0"), Written)),
    (b"dec", (TwoOp::Sub, Fixed(b"#1"), Written)),
    (b"decd", (TwoOp::Sub, Fixed(b"#2"), Written)),
    (b"dint", (TwoOp::Bic, Fixed(b"#8"), Fixed(b"sr"))),
    (b"eint", (TwoOp::Bis, Fixed(b"#8"), Fixed(b"sr"))),
    (b"inc", (TwoOp::Add, Fixed(b"#1"), Written)),
    (b"incd", (TwoOp::Add, Fixed(b"#2"), Written)),
    (b"inv", (TwoOp::Xor, Fixed(b"#-1"), Written)),
    (b"nop", (TwoOp::Mov, Fixed(b"#0"), Fixed(b"r3"))),
    (b"pop", (TwoOp::Mov, Fixed(b"@sp+"), Written)),
    (b"ret", (TwoOp::Mov, Fixed(b"@sp+"), Fixed(b"pc"))),
    (b"rla", (TwoOp::Add, Written, Written)),
    (b"rlc", (TwoOp::Addc, Written, Written)),
    (b"sbc", (TwoOp::Subc, Fixed(b"#0"), Written)),
    (b"setc", (TwoOp::Bis, Fixed(b"#1"), Fixed(b"sr"))),
    (b"setz", (TwoOp::Bis, Fixed(b"#2"), Fixed(b"sr"))),
    (b"setn", (TwoOp::Bis, Fixed(b"#4"), Fixed(b"sr"))),
    (b"tst", (TwoOp::Cmp, Fixed(b"#0"), Written)),
];

/// What stands at a name in a table, whose names are in lower case; the name may be in either case.
pub fn look_up<T: Copy>(table: &[(&[u8], T)], name: &[u8]) -> Option<T>
    ensures { result ≡ look_up (map row_of table.now) name.now }
{
    for (known, meant) in table {
        if name.eq_ignore_ascii_case(known) {
            return Some(*meant);
        }
    }
    None
}

/// The operation of two operands of this name, in either case.
#[tactic(auto, unfolding(crate::specs::Tables::two_named))]
pub fn two_named(name: &[u8]) -> Option<TwoOp>
    ensures { result ≡ two_named name.now }
{
    look_up(TWO.as_slice(), name)
}

/// The operation of one operand of this name.
#[tactic(auto, unfolding(crate::specs::Tables::one_named))]
pub fn one_named(name: &[u8]) -> Option<OneName>
    ensures { result ≡ one_named name.now }
{
    look_up(ONE.as_slice(), name)
}

/// The condition of the jump of this name.
#[tactic(auto, unfolding(crate::specs::Tables::condition_named))]
pub fn condition_named(name: &[u8]) -> Option<Condition>
    ensures { result ≡ condition_named name.now }
{
    look_up(CONDITIONS.as_slice(), name)
}

/// The core text of the emulated operation of this name.
pub fn emulated_named(name: &[u8]) -> Option<CoreText>
    ensures { option_map core_text_of result ≡ emulated_named name.now }
{
    let (op, source, destination) = look_up(EMULATED.as_slice(), name)?;
    Some(CoreText {
        op,
        source,
        destination,
    })
}
