//! Files that are read to their end, but for so many bytes at most.
ghost use Rattle.std.specs.Prelude.{◌≡◌, ◌+◌, ◌<◌, ◌≤◌, ◌++◌, ℕ, List, [], IfOk, OnOk, OnErr, IsErrOf, length};
ghost use Rattle.std.specs.Io.{ReadsAtMost};
ghost use Rattle.std.specs.Io.KnownBytes.{Consumes, IsAtEnd, Keeps, ReadConsumes};

use crate::shelf::ReadFault;
use std::alloc::AllocError;
use std::io;
use std::io::{ErrorKind, Read};

// A read asks for no more bytes than these.
const MOST_A_READ: usize = 8192;

// Reads into a piece, and tries again where a signal interrupts that.
fn read_some<F: Read>(file: &mut F, piece: &mut [u8]) -> io::Result<usize>
    ensures bound { ReadsAtMost result piece.new }
    ensures bytes { ReadConsumes (F.remaining file.old) (F.remaining file.new) result piece.new }
    ensures room { length piece.new ≡ length piece.old }
{
    for _ in 0..u64::MAX {
        match file.read(piece) {
            Err(error) if error.kind() == ErrorKind::Interrupted => {}
            read => return read,
        }
    }
    Err(io::Error::from(ErrorKind::Interrupted))
}

// Adds the next bytes of a file, at most so many, and says how many they are: none only at its end. Memory for them is
// taken first, so that none that was read is lost.
fn read_more<F: Read>(file: &mut F, most: usize, into: &mut Vec<u8>) -> Result<usize, ReadFault>
    requires { 0 < most }
    ensures taken { (got : List ℕ) × Consumes (F.remaining file.old) (F.remaining file.new) got
        × (into.new.items ≡ into.old.items ++ got) × (length got ≤ most) × IfOk result (λ n. length got ≡ n) }
    ensures end { IfOk result (λ n. n ≡ 0 → IsAtEnd (F.remaining file.new)) }
    ensures fault { (IsErrOf result ReadFault.Missing → ⊥) × (IsErrOf result ReadFault.TooLong → ⊥) }
{
    let most = most.min(MOST_A_READ);
    if let Err(AllocError) = into.reserve(most) {
        return Err(ReadFault::NoMemory);
    }
    let mut piece = [0; MOST_A_READ];
    match read_some(file, &mut piece[..most]) {
        Ok(count) => {
            into.extend_from_slice(&piece[..count]).unwrap();
            Ok(count)
        }
        Err(error) if error.kind() == ErrorKind::OutOfMemory => Err(ReadFault::NoMemory),
        Err(_) => Err(ReadFault::Failed),
    }
}

/// Reads a file to its end, and takes no more than `limit + 1` bytes of it, whatever the answer: a byte behind the limit
/// is enough to know that the file is too long.
pub fn read_within<F: Read>(file: &mut F, limit: usize, into: &mut Vec<u8>) -> Result<(), ReadFault>
    requires { into.old.items ≡ [] }
    ensures taken { Consumes (F.remaining file.old) (F.remaining file.new) into.new.items }
    ensures most { length into.new.items ≤ limit + 1 }
    ensures fits { OnOk result (length into.new.items ≤ limit) }
    ensures end { OnOk result (IsAtEnd (F.remaining file.new)) }
    ensures too_long { IsErrOf result ReadFault.TooLong → length into.new.items ≡ limit + 1 }
    ensures not_missing { IsErrOf result ReadFault.Missing → ⊥ }
{
    while into.len() <= limit {
        let most = (limit - into.len()).saturating_add(1);
        if read_more(file, most, into)? == 0 {
            return Ok(());
        }
    }
    Err(ReadFault::TooLong)
}
