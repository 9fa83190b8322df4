//! What the fields of one line say.
ghost use Rattle.std.specs.Prelude.{◌≡◌, ◌^◌};
ghost use Rattle.alp_text.specs.Numbers.{number_of, limited};
ghost use Rattle.text_parts.specs.Fields.{fields};
ghost use Rattle.radio_link.specs.Line.{named, entry_of};

use crate::entry::Entry;
use alp_text::number;
use text_parts::next_field;

fn number32(field: &[u8]) -> Option<u32>
    ensures { result ≡ limited (2 ^ 32) (number_of field.now) }
{
    match number(field) {
        Ok(n) if n < 4294967296 => Some(n as u32),
        _ => None,
    }
}

fn named(letter: &[u8], n: u32) -> Option<Entry>
    ensures { result ≡ named letter.now n }
{
    if letter == b"a".as_slice() {
        Some(Entry::StepsOfA(n))
    } else if letter == b"b".as_slice() {
        Some(Entry::StepsOfB(n))
    } else if letter == b"d".as_slice() {
        Some(Entry::BringPacket(n))
    } else if letter == b"k".as_slice() {
        Some(Entry::BringAcknowledgement(n))
    } else if letter == b"x".as_slice() {
        Some(Entry::Rounds(n))
    } else {
        None
    }
}

/// The entry of a line with this first field and what stands behind it; nothing where they are none.
pub fn entry_of(letter: &[u8], behind: &[u8]) -> Option<Entry>
    ensures { result ≡ entry_of letter.now (fields behind.now) }
{
    let (n, rest) = next_field(behind)?;
    if next_field(rest).is_some() {
        return None;
    }
    named(letter, number32(n)?)
}
