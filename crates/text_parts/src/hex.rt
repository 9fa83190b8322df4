//! Hexadecimal digits.
ghost use Rattle.std.specs.Prelude.{◌≡◌, ◌<◌, IfSome};
ghost use Rattle.text_parts.specs.Hex.{upper_digit, upper_hex, hex_digit};

/// The value of a hexadecimal digit in either case; nothing for another byte.
#[tactic(auto, unfolding(crate::specs::Hex::hex_digit))]
pub fn hex_digit(b: u8) -> Option<u8>
    ensures value { result ≡ hex_digit b }
    ensures digit { IfSome result (λ v. v < 16) }
{
    match b {
        b'0'..=b'9' => Some(b - b'0'),
        b'A'..=b'F' => Some(b - b'A' + 10),
        b'a'..=b'f' => Some(b - b'a' + 10),
        _ => None,
    }
}

fn upper_digit(d: u8) -> u8
    requires { d < 16 }
    ensures { result ≡ upper_digit d }
{
    if d < 10 { b'0' + d } else { b'A' + (d - 10) }
}

/// Two upper-case hexadecimal digits.
#[tactic(auto, unfolding(crate::specs::Hex::upper_hex))]
pub fn upper_hex(b: u8) -> [u8; 2]
    ensures { result ≡ upper_hex b }
{
    [upper_digit(b / 16), upper_digit(b % 16)]
}
