//! The files of a command, read in order.
ghost use Rattle.std.specs.Prelude.{◌≡◌, ◌≤◌, ◌∷◌, [], IfOk, IfErr, IfSome, length, Some};
ghost use Rattle.alp_io.specs.Shelf.{NeverFall};
ghost use Rattle.command_answers.specs.InputFiles.{AreHeld, IsUnread};

use alp_io::{ReadFault, Shelf};
use std::alloc::Global;

/// Why the files of a command weren't read, and the name of the one that it was.
#[derive(Clone, Copy)]
pub enum Unread<'n> {
    /// The file is missing, or its read failed.
    Unreadable(&'n str),
    /// The file has more than 1,048,576 bytes.
    TooLong(&'n str),
    /// Memory was refused.
    Memory,
}

const MOST_BYTES: usize = 1_048_576;

/// The bytes of a command's two files, in the order of its words.
#[derive(Drop)]
pub struct Texts {
    pub first: Vec<u8>,
    pub second: Vec<u8>,
}

/// The bytes of a command's three files, in the order of its words.
#[derive(Drop)]
pub struct ThreeTexts {
    pub first: Vec<u8>,
    pub second: Vec<u8>,
    pub third: Vec<u8>,
}

/// Reads a file of at most 1,048,576 bytes.
///
/// # Errors
/// `Unreadable` or `TooLong` with the name of the file; `Memory` where memory was refused.
pub fn read_file<'n, H: Shelf>(
    alloc: Global,
    shelf: &mut H,
    name: &'n str,
) -> Result<Vec<u8>, Unread<'n>>
    ensures same { H.files shelf.new ≡ H.files shelf.old }
    ensures counts { NeverFall (H.counts shelf.old) (H.counts shelf.new) }
    ensures held { IfOk result (λ v. IfSome (H.files shelf.old) (λ f. f name.now ≡ Some v.items)) }
    ensures fits { IfOk result (λ v. length v.items ≤ 1048576) }
    ensures unread { IfErr result (λ e. IsUnread e (H.files shelf.old) (name.now ∷ []) (H.counts shelf.old) (H.counts shelf.new)) }
{
    let mut bytes = Vec::new(alloc);
    match shelf.read(alloc, name, MOST_BYTES, &mut bytes) {
        Ok(()) => Ok(bytes),
        Err(ReadFault::NoMemory) => Err(Unread::Memory),
        Err(ReadFault::Failed) => Err(Unread::Unreadable(name)),
        Err(ReadFault::Missing) => Err(Unread::Unreadable(name)),
        Err(ReadFault::TooLong) => Err(Unread::TooLong(name)),
    }
}

/// Reads both files, in order, of at most 1,048,576 bytes each.
///
/// # Errors
/// `Unreadable` or `TooLong` with the name of the first that gave no bytes; `Memory` where memory was refused.
pub fn read_texts<'n, H: Shelf>(
    alloc: Global,
    shelf: &mut H,
    first: &'n str,
    second: &'n str,
) -> Result<Texts, Unread<'n>>
    ensures same { H.files shelf.new ≡ H.files shelf.old }
    ensures counts { NeverFall (H.counts shelf.old) (H.counts shelf.new) }
    ensures held { IfOk result (λ t. IfSome (H.files shelf.old) (λ f.
        AreHeld f (first.now ∷ second.now ∷ []) (t.first.items ∷ t.second.items ∷ []))) }
    ensures first_fits { IfOk result (λ t. length t.first.items ≤ 1048576) }
    ensures second_fits { IfOk result (λ t. length t.second.items ≤ 1048576) }
    ensures unread { IfErr result (λ e. IsUnread e (H.files shelf.old) (first.now ∷ second.now ∷ [])
        (H.counts shelf.old) (H.counts shelf.new)) }
{
    let first = read_file(alloc, shelf, first)?;
    let second = read_file(alloc, shelf, second)?;
    Ok(Texts { first, second })
}

/// Reads all three files, in order, of at most 1,048,576 bytes each.
///
/// # Errors
/// `Unreadable` or `TooLong` with the name of the first that gave no bytes; `Memory` where memory was refused.
pub fn read_three_texts<'n, H: Shelf>(
    alloc: Global,
    shelf: &mut H,
    first: &'n str,
    second: &'n str,
    third: &'n str,
) -> Result<ThreeTexts, Unread<'n>>
    ensures same { H.files shelf.new ≡ H.files shelf.old }
    ensures counts { NeverFall (H.counts shelf.old) (H.counts shelf.new) }
    ensures held { IfOk result (λ t. IfSome (H.files shelf.old) (λ f.
        AreHeld f (first.now ∷ second.now ∷ third.now ∷ []) (t.first.items ∷ t.second.items ∷ t.third.items ∷ []))) }
    ensures first_fits { IfOk result (λ t. length t.first.items ≤ 1048576) }
    ensures second_fits { IfOk result (λ t. length t.second.items ≤ 1048576) }
    ensures third_fits { IfOk result (λ t. length t.third.items ≤ 1048576) }
    ensures unread { IfErr result (λ e. IsUnread e (H.files shelf.old) (first.now ∷ second.now ∷ third.now ∷ [])
        (H.counts shelf.old) (H.counts shelf.new)) }
{
    let first = read_file(alloc, shelf, first)?;
    let second = read_file(alloc, shelf, second)?;
    let third = read_file(alloc, shelf, third)?;
    Ok(ThreeTexts {
        first,
        second,
        third,
    })
}
