//! The file that a command puts.
ghost use Rattle.std.specs.Prelude.{IfOk, IfErr};
ghost use Rattle.alp_io.specs.Shelf.{NeverFall, Told, Sets};
ghost use Rattle.command_answers.specs.Outcomes.{FailsPutting};

use crate::failure::Failure;
use alp_io::{PutFault, Shelf};
use std::alloc::Global;

/// Puts a file.
///
/// # Errors
/// `Put` with the file's name where the put failed, and the file may hold anything or be absent; `Memory` where memory was
/// refused, and no file is changed.
pub fn put_file<'t, H: Shelf>(
    alloc: Global,
    shelf: &mut H,
    file: &'t str,
    bytes: &[u8],
) -> Result<(), Failure<'t>>
    ensures counts { NeverFall (H.counts shelf.old) (H.counts shelf.new) }
    ensures put { IfOk result (λ _. Told (H.files shelf.old) (H.files shelf.new) (Sets file.now bytes.now)) }
    ensures failure { IfErr result (λ e. FailsPutting e file.now
        (record { old = H.files shelf.old; new = H.files shelf.new; counts_old = H.counts shelf.old; counts_new = H.counts shelf.new })) }
{
    match shelf.put(alloc, file, bytes) {
        Ok(()) => Ok(()),
        Err(PutFault::Failed) => Err(Failure::Put(file)),
        Err(PutFault::NoMemory) => Err(Failure::Memory),
    }
}
