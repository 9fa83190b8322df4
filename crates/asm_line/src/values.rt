//! Values and labels.
ghost use Rattle.std.specs.Prelude.{◌≡◌, Some, option_map};
ghost use Rattle.std.specs.List.{list_all};
ghost use Rattle.asm_line.specs.Numbers.{number_of};
ghost use Rattle.asm_line.specs.Pieces.{Located};
ghost use Rattle.asm_line.specs.Values.{is_digit, is_letter, is_name_byte, is_label, unsigned, negative, value_of};
ghost use Rattle.asm_line.specs.Views.{located};
ghost use Rattle.asm_line.specs.ValueViews.{meaning_of};

use crate::numbers::number_of;
use crate::piece::Piece;
use crate::registers::register_named;

/// A value as it is written.
#[derive(Clone, Copy)]
pub enum Value<'a> {
    /// A number from -32768 to 65535, modulo 65536.
    Number(u16),
    /// Another number, modulo 65536.
    OutOfRange(u16),
    /// The address of a label.
    Label(Piece<'a>),
    /// `$`, the address of the instruction or the item in which it stands.
    Here,
}

#[tactic(auto, unfolding(crate::specs::Values::is_letter))]
fn is_letter(b: u8) -> bool
    ensures { result ≡ is_letter b }
{
    b.is_ascii_alphabetic() || b == b'_'
}

#[tactic(auto, unfolding(crate::specs::Values::is_digit))]
fn is_digit(b: u8) -> bool
    ensures { result ≡ is_digit b }
{
    b.is_ascii_digit()
}

#[tactic(auto, unfolding(crate::specs::Values::is_name_byte))]
fn is_name_byte(b: u8) -> bool
    ensures { result ≡ is_name_byte b }
{
    is_letter(b) || is_digit(b)
}

fn are_name_bytes(text: &[u8]) -> bool
    ensures { result ≡ list_all is_name_byte text.now }
{
    text.iter().all(|b| is_name_byte(*b))
}

/// Whether a text is a label: a name of at most 31 bytes that is no register's.
#[tactic(auto, unfolding(crate::specs::Values::is_label))]
pub fn is_label(text: &[u8]) -> bool
    ensures { result ≡ is_label text.now }
{
    let Some(first) = text.first() else {
        return false;
    };
    is_letter(*first) && text.len() <= 31 && are_name_bytes(text) && register_named(text).is_none()
}

fn unsigned<'a>(text: &[u8]) -> Option<Value<'a>>
    ensures { option_map meaning_of result ≡ unsigned (number_of text.now) }
{
    let n = number_of(text)?;
    if n.large {
        Some(Value::OutOfRange(n.residue))
    } else {
        Some(Value::Number(n.residue))
    }
}

fn negative<'a>(text: &[u8]) -> Option<Value<'a>>
    ensures { option_map meaning_of result ≡ negative (number_of text.now) }
{
    let n = number_of(text)?;
    let residue = n.residue.wrapping_neg();
    if n.large || n.residue > 32768 {
        Some(Value::OutOfRange(residue))
    } else {
        Some(Value::Number(residue))
    }
}

/// The value that a piece writes; nothing where it writes none.
#[tactic(auto, unfolding(crate::specs::Values::value_of))]
pub fn value_of(piece: Piece<'_>) -> Option<Value<'_>>
    ensures { option_map meaning_of result ≡ value_of (located piece.entry) }
{
    match piece.text {
        [] => None,
        [b'$'] => Some(Value::Here),
        [b'-', digits @ ..] => negative(digits),
        [first, ..] => {
            if is_digit(*first) {
                unsigned(piece.text)
            } else if is_label(piece.text) {
                Some(Value::Label(piece))
            } else {
                None
            }
        }
    }
}
