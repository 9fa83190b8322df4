//! Arithmetic of the source language's 16-bit numbers, without flags.

ghost use Rattle.std.specs.Prelude.{◌≡◌, ◌*◌, ◌/◌, ◌%◌, ◌^◌, ◌<◌, ◌↔◌, IsTrue, nat_lt, pos, ◌<ℤ◌};
ghost use Rattle.std.specs.Int.{int_div_euclid};
ghost use Rattle.alp_words.specs.Words.{word_product, quotient, remainder, arithmetic_shift, biased, signed_value};

use crate::Width;

/// The product modulo 65536.
pub fn mul16(a: u16, b: u16) -> u16
    ensures { result ≡ word_product a b }
{
    a.wrapping_mul(b)
}

/// The unsigned quotient; 65535 where b is 0.
pub fn div16(a: u16, b: u16) -> u16
    ensures { result ≡ quotient a b }
{
    if b == 0 { 0xffff } else { a / b }
}

/// The unsigned remainder; a where b is 0.
pub fn rem16(a: u16, b: u16) -> u16
    ensures { result ≡ remainder a b }
{
    if b == 0 { a } else { a % b }
}

/// Shifted left by count bits, from 0 to 15; zeros come in.
pub fn shl16(a: u16, count: u8) -> u16
    requires { count < 16 }
    ensures { result ≡ word_product a (2 ^ count) }
{
    a << count
}

/// Shifted right by count bits, from 0 to 15; zeros come in.
pub fn shr16(a: u16, count: u8) -> u16
    requires { count < 16 }
    ensures { result ≡ a / 2 ^ count }
{
    a >> count
}

/// Shifted right by count bits, from 0 to 15; copies of the top bit come in.
pub fn sar16(a: u16, count: u8) -> u16
    requires { count < 16 }
    ensures value { result ≡ arithmetic_shift a count }

    // The signed value divided by the power of two, rounded down.
    ensures signed { signed_value Width.Word result ≡ int_div_euclid (signed_value Width.Word a) (pos (2 ^ count)) }
{
    if a >= 0x8000 {
        !(!a >> count)
    } else {
        a >> count
    }
}

/// Whether a is below b as signed words.
pub fn less_signed(a: u16, b: u16) -> bool
    ensures value { result ≡ nat_lt (biased a) (biased b) }
    ensures signed { IsTrue result ↔ (signed_value Width.Word a <ℤ signed_value Width.Word b) }
{
    a.wrapping_add(0x8000) < b.wrapping_add(0x8000)
}
