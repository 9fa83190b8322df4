//! Names of variables and tasks.
ghost use Rattle.std.specs.Prelude.{◌≡◌, ◌<◌, ◌≤◌, ◌==◌, ◌||◌, ◌&&◌, length, nat_le, true};
ghost use Rattle.std.specs.List.{list_all};
ghost use Rattle.image_map.specs.Names.{is_name_byte, is_name, name_of};

use arrayvec::ArrayVec;
use std::marker::Model;

/// A name: 1 to 31 letters, digits and `_`, of which the first is no digit.
#[derive(Drop)]
pub struct Name {
    bytes: ArrayVec<u8, 31>,
}

impl Model for Name {
    ghost use Rattle.std.specs.Prelude.{◌≡◌, ℕ, List, true};
    ghost use Rattle.image_map.specs.Names.{is_name};

    ghost Value = { List ℕ };

    ghost view = { λ n. n.bytes.items };

    ghost invariant = { λ n. is_name n.bytes.items ≡ true };
}

fn is_name_byte(b: u8) -> bool
    ensures { result ≡ is_name_byte b }
{
    b.is_ascii_alphanumeric() || b == b'_'
}

fn all_name_bytes(text: &[u8]) -> bool
    ensures { result ≡ list_all is_name_byte text.now }
{
    text.iter().all(|b| is_name_byte(*b))
}

fn is_name(text: &[u8]) -> bool
    ensures { result ≡ is_name text.now }
{
    match text {
        [] => false,
        [first, ..] => text.len() <= 31 && !first.is_ascii_digit() && all_name_bytes(text),
    }
}

fn copied(text: &[u8]) -> ArrayVec<u8, 31>
    requires { length text.now ≤ 31 }
    ensures { result.items ≡ text.now }
{
    let mut bytes = ArrayVec::new();
    for b in text {
        bytes.push(*b);
    }
    bytes
}

impl Name {
    /// The name that a text is; nothing where it is none.
    pub fn of(text: &[u8]) -> Option<Name>
        ensures { result ≡ name_of text.now }
    {
        if is_name(text) {
            Some(Name {
                bytes: copied(text),
            })
        } else {
            None
        }
    }

    /// The bytes of the name.
    pub fn as_bytes(&self) -> &[u8]
        ensures value { result.now ≡ self.now }
        ensures name { is_name self.now ≡ true }
    {
        self.bytes.as_slice()
    }
}
