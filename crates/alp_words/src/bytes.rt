//! The bytes of a word in memory: its low byte, then its high byte.

ghost use Rattle.std.specs.Prelude.{◌≡◌};
ghost use Rattle.alp_words.specs.Words.{word_bytes, word_of_bytes};

use byteorder::{ByteOrder, LittleEndian};

/// The low byte of a word, then its high byte.
pub fn to_bytes(w: u16) -> [u8; 2]
    ensures value { result ≡ word_bytes w }
    ensures inverse { word_of_bytes result ≡ w }
{
    let mut bytes = [0; 2];
    LittleEndian::write_u16(&mut bytes, w);
    bytes
}

/// The word of a low byte and a high byte.
pub fn from_bytes(b: [u8; 2]) -> u16
    ensures value { result ≡ word_of_bytes b }
    ensures inverse { word_bytes result ≡ b }
{
    LittleEndian::read_u16(&b)
}
