//! Sums and differences of binary and of decimal numbers, with their flags.

ghost use Rattle.std.specs.Prelude.{◌≡◌, ◌<◌};
ghost use Rattle.alp_words.specs.Words.{sum_of, difference_of, decimal_digit, decimal_of, bcd_sum, digit_count};

use crate::{Flags, Width};

/// The sum d + s + carry in this width, as ADD (carry false) and ADDC give it, with all four flags.
#[inline(always)]
pub fn add(width: Width, d: u16, s: u16, carry: bool) -> (u16, Flags)
    ensures { result ≡ sum_of width d s carry }
{
    let m = width.modulus();
    let total = u32::from(width.operand(d)) + u32::from(width.operand(s)) + u32::from(carry);
    let r = (total % m) as u16;
    let negative = width.is_negative(d);
    let n = width.is_negative(r);
    let flags = Flags {
        n,
        z: r == 0,
        c: total >= m,
        v: negative == width.is_negative(s) && n != negative,
    };
    (r, flags)
}

/// The difference d + not s + carry in this width, as SUB and CMP (carry true) and SUBC give it, with all four flags.
#[inline(always)]
pub fn sub(width: Width, d: u16, s: u16, carry: bool) -> (u16, Flags)
    ensures { result ≡ difference_of width d s carry }
{
    let m = width.modulus();
    let complement = m - 1 - u32::from(width.operand(s));
    let total = u32::from(width.operand(d)) + complement + u32::from(carry);
    let no_borrow = total >= m;
    let r = (total % m) as u16;
    let negative = width.is_negative(s);
    let n = width.is_negative(r);
    let flags = Flags {
        n,
        z: r == 0,
        c: no_borrow,
        v: width.is_negative(d) != negative && n == negative,
    };
    (r, flags)
}

/// One digit of a decimal sum, and the carry to the next.
fn digit(a: u16, b: u16, carry: bool) -> (u16, bool)
    requires a { a < 16 }
    requires b { b < 16 }
    ensures value { result ≡ decimal_digit a b carry }
    ensures below { result.0 < 16 }
{
    let t = a + b + u16::from(carry);
    if t >= 10 {
        ((t + 6) % 16, true)
    } else {
        (t, false)
    }
}

/// The sum of the two or four digits, and the last carry.
fn decimal_sum(width: Width, d: u16, s: u16, carry: bool) -> (u16, bool)
    ensures { result ≡ bcd_sum (digit_count width) d s carry }
{
    let (d0, c0) = digit(d % 16, s % 16, carry);
    let (d1, c1) = digit(d / 16 % 16, s / 16 % 16, c0);
    match width {
        Width::Byte => (d0 + 16 * d1, c1),
        Width::Word => {
            let (d2, c2) = digit(d / 256 % 16, s / 256 % 16, c1);
            let (d3, c3) = digit(d / 4096 % 16, s / 4096 % 16, c2);
            (d0 + 16 * (d1 + 16 * (d2 + 16 * d3)), c3)
        }
    }
}

/// The decimal sum of d, s and the carry of `before`, digit by digit as DADD gives it; V stays as before.
pub fn dadd(width: Width, d: u16, s: u16, before: Flags) -> (u16, Flags)
    ensures { result ≡ decimal_of width d s before }
{
    let (r, c) = decimal_sum(width, d, s, before.c);
    let flags = Flags {
        n: width.is_negative(r),
        z: r == 0,
        c,
        v: before.v,
    };
    (r, flags)
}
