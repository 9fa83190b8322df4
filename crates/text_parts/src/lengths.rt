//! How far a text goes before a byte.
ghost use Rattle.std.specs.Prelude.{◌≡◌, ◌≤◌, ◌==◌, length};
ghost use Rattle.text_parts.specs.Lengths.{len_before};

/// How many bytes stand before the first one of this value, or how many there are.
pub fn len_before(mark: u8, bytes: &[u8]) -> usize
    ensures value { result ≡ len_before (λ b. b == mark) bytes.now }
    ensures within { result ≤ length bytes.now }
{
    for (i, b) in bytes.iter().enumerate() {
        if *b == mark {
            return i;
        }
    }
    bytes.len()
}
