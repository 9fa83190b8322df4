//! Numbers of any length, modulo 65536.
ghost use Rattle.std.specs.Prelude.{◌≡◌, ℕ, ◌<◌, ◌≤◌, ◌+◌, ◌*◌, option_map, IfSome};
ghost use Rattle.asm_line.specs.Numbers.{digit, number_after, reduced, numeral_of, number_of};

use text_parts::hex_digit;

/// A number of any length.
#[derive(Clone, Copy)]
pub struct Numeral {
    /// The number modulo 65536.
    pub residue: u16,
    /// Whether it is 65536 or more.
    pub large: bool,
}

#[tactic(auto, unfolding(crate::specs::Numbers::digit))]
fn digit(base: u8, b: u8) -> Option<u8>
    ensures value { result ≡ digit base b }
    ensures below { IfSome result (λ v. v < 16) }
{
    let v = hex_digit(b)?;
    if v < base { Some(v) } else { None }
}

// A number with one digit more.
fn with_digit(number: Numeral, base: u8, digit: u8) -> Numeral
    requires base { base ≤ 16 }
    requires some { 1 ≤ base }
    requires digit { digit < 16 }
    ensures { (n : ℕ) → number ≡ reduced n → result ≡ reduced (n * base + digit) }
{
    let next = number.residue as u32 * base as u32 + digit as u32;
    Numeral {
        residue: (next % 65536) as u16,
        large: number.large || next >= 65536,
    }
}

fn number(base: u8, digits: &[u8]) -> Option<Numeral>
    requires base { base ≤ 16 }
    requires some { 1 ≤ base }
    ensures { result ≡ option_map reduced (number_after base 0 digits.now) }
{
    let mut so_far = Numeral {
        residue: 0,
        large: false,
    };
    for b in digits {
        so_far = with_digit(so_far, base, digit(base, *b)?);
    }
    Some(so_far)
}

#[tactic(auto, unfolding(crate::specs::Numbers::numeral_of))]
fn numeral_of(base: u8, digits: &[u8]) -> Option<Numeral>
    requires base { base ≤ 16 }
    requires some { 1 ≤ base }
    ensures { result ≡ numeral_of base digits.now }
{
    if digits.is_empty() {
        return None;
    }
    number(base, digits)
}

/// The number that a text spells: decimal digits, or hexadecimal ones in either case behind `0x`; nothing for another text.
#[tactic(auto, unfolding(crate::specs::Numbers::number_of))]
pub fn number_of(text: &[u8]) -> Option<Numeral>
    ensures { result ≡ number_of text.now }
{
    match text.strip_prefix(b"0x") {
        Some(digits) => numeral_of(16, digits),
        None => numeral_of(10, text),
    }
}
