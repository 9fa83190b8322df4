//! What the fields of one line say.
ghost use Rattle.std.specs.Prelude.{◌≡◌, ◌≤◌, ◌<◌, ◌^◌, ◌++◌, Some, None, IfOk, IfSome, MatchBool, option_map, length};
ghost use Rattle.text_parts.specs.Fields.{fields};
ghost use Rattle.image_text.specs.Line.{byte_of, bytes_of, hex_value, address_of};

use std::alloc::AllocError;
use text_parts::{hex_digit, next_field};

fn byte_of(field: &[u8]) -> Option<u8>
    ensures { result ≡ byte_of field.now }
{
    let [high, low] = field else { return None };
    let high = hex_digit(*high)?;
    let low = hex_digit(*low)?;
    Some(16 * high + low)
}

/// Adds the bytes of a line, and says whether each of its fields is one.
pub fn add_bytes(line: &[u8], into: &mut Vec<u8>) -> Result<bool, AllocError>
    ensures { IfOk result (λ fine. MatchBool fine
        (Some into.new.items ≡ option_map (λ bs. into.old.items ++ bs) (bytes_of (fields line.now)))
        (bytes_of (fields line.now) ≡ None)) }
{
    let mut rest = line;
    while let Some((field, behind)) = next_field(rest) {
        let Some(b) = byte_of(field) else {
            return Ok(false);
        };
        into.push(b)?;
        rest = behind;
    }
    Ok(true)
}

fn hex_value(digits: &[u8]) -> Option<u32>
    requires { length digits.now ≤ 8 }
    ensures { result ≡ hex_value 0 digits.now }
{
    let mut value = 0;
    for d in digits {
        value = 16 * value + hex_digit(*d)? as u32;
    }
    Some(value)
}

/// The address that one to eight hexadecimal digits write; nothing for other bytes.
pub fn address_of(digits: &[u8]) -> Option<u32>
    ensures { result ≡ address_of digits.now }
{
    if digits.is_empty() || digits.len() > 8 {
        return None;
    }
    hex_value(digits)
}
