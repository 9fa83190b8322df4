//! Operations on bits, with their flags.

ghost use Rattle.std.specs.Prelude.{◌≡◌};
ghost use Rattle.alp_words.specs.Words.{and_of, xor_of, rra_of, rrc_of, swapped, sxt_of, shifted, logic_flags, operand};

use crate::{Flags, Width};

/// The flags of a result: C is not Z.
fn logic_flags(width: Width, r: u16, v: bool) -> Flags
    ensures { result ≡ logic_flags width r v }
{
    Flags {
        n: width.is_negative(r),
        z: r == 0,
        c: r != 0,
        v,
    }
}

/// The bits that d and s share, as AND and BIT give it; C is not Z, V is clear.
#[inline(always)]
pub fn and(width: Width, d: u16, s: u16) -> (u16, Flags)
    ensures { result ≡ and_of width d s }
{
    let r = width.operand(d & s);
    (r, logic_flags(width, r, false))
}

/// The bits in which d and s differ, as XOR gives it; C is not Z, V says that both are negative.
#[inline(always)]
pub fn xor(width: Width, d: u16, s: u16) -> (u16, Flags)
    ensures { result ≡ xor_of width d s }
{
    let r = width.operand(d ^ s);
    let v = width.is_negative(d) && width.is_negative(s);
    (r, logic_flags(width, r, v))
}

/// The operand shifted right by one, with this bit at the top; C is the bit that falls out, V is clear.
#[inline(always)]
fn shift(width: Width, d: u16, top: bool) -> (u16, Flags)
    ensures { result ≡ shifted width d top }
{
    let weight = if top { width.sign_weight() } else { 0 };
    let r = width.operand(d) / 2 + weight;
    let flags = Flags {
        n: width.is_negative(r),
        z: r == 0,
        c: d % 2 == 1,
        v: false,
    };
    (r, flags)
}

/// The operand shifted right by one with its top bit kept, as RRA gives it; C is the bit that falls out, V is clear.
#[inline(always)]
pub fn rra(width: Width, d: u16) -> (u16, Flags)
    ensures { result ≡ rra_of width d }
{
    shift(width, d, width.is_negative(d))
}

/// The operand shifted right by one with the carry at the top, as RRC gives it; C is the bit that falls out, V is clear.
#[inline(always)]
pub fn rrc(width: Width, d: u16, carry: bool) -> (u16, Flags)
    ensures { result ≡ rrc_of width d carry }
{
    shift(width, d, carry)
}

/// Bit 7 copied into bits 8 to 15, as SXT gives it; C is not Z, V is clear.
pub fn sxt(d: u16) -> (u16, Flags)
    ensures { result ≡ sxt_of d }
{
    let low = d % 0x100;
    let r = if low >= 0x80 { low + 0xff00 } else { low };
    (r, logic_flags(Width::Word, r, false))
}

/// The two bytes exchanged, as SWPB gives it; no flag changes.
pub fn swpb(d: u16) -> u16
    ensures { result ≡ swapped d }
{
    (d & 0xff) << 8 | d >> 8
}
