//! Files that are put whole: a new file is written beside the old one, and then renamed over it.
ghost use Rattle.std.specs.Prelude.{OnOk};
ghost use Rattle.std.specs.Io.KnownBytes.{Appends};

use crate::shelf::PutFault;
use std::alloc::{AllocError, Global};
use std::fs::{Metadata, OpenFile, OpenOptions, Permissions};
use std::io::{ErrorKind, Write};
use std::os::unix::fs::{MetadataExt, PermissionsExt};
use std::path::PathBuf;
use std::rt::Files;
use std::{fs, io};

// A name that leads through more links than these stands for no file.
const MOST_LINKS: u32 = 40;

// The name under which the system has standard output.
const OUTPUT: &'static str = "/dev/stdout";

// The bits of a mode by which a file is run as its owner or its group.
const SET_IDS: u32 = 0o6000;

// Writes every byte.
fn put_all<W: Write>(file: &mut W, bytes: &[u8]) -> io::Result<()>
    ensures { OnOk result (Appends (W.contents file.old) (W.contents file.new) bytes.now) }
{
    file.write_all(bytes)
}

// Fills a new file, and waits until the medium has it: some tell of a full disk only then.
fn fill<F: Write + OpenFile>(
    file: &mut F,
    permissions: Option<Permissions>,
    bytes: &[u8],
) -> io::Result<()>
    ensures { OnOk result (Appends (F.contents file.old) (F.contents file.new) bytes.now) }
{
    if let Some(permissions) = permissions {
        file.set_permissions(permissions)?;
    }
    put_all(file, bytes)?;
    file.sync_all()
}

// Whether a link stands at a place.
fn is_link<R: Files>(files: &R, place: &PathBuf) -> Result<bool, PutFault> {
    match fs::symlink_metadata(files, place) {
        Ok(standing) => Ok(standing.is_symlink()),
        Err(error) if error.kind() == ErrorKind::NotFound => Ok(false),
        Err(_) => Err(PutFault::Failed),
    }
}

// Goes through the link at a place. One whose target the library can't tell, as where its bytes are no UTF-8, leads nowhere.
fn follow<R: Files>(files: &R, alloc: Global, place: &mut PathBuf) -> Result<(), PutFault> {
    match files.read_link(alloc, place.as_str()) {
        Ok(target) => {
            place.pop();
            place.push(&target).map_err(|_| PutFault::NoMemory)
        }
        Err(error) if error.kind() == ErrorKind::OutOfMemory => Err(PutFault::NoMemory),
        Err(_) => Err(PutFault::Failed),
    }
}

// Where the file of a name stands: behind the links that the name leads through.
fn place_of<R: Files>(files: &R, alloc: Global, name: &str) -> Result<PathBuf, PutFault> {
    let Ok(mut place) = PathBuf::from_str(alloc, name) else {
        return Err(PutFault::NoMemory);
    };
    for _ in 0..=MOST_LINKS {
        if !is_link(files, &place)? {
            return Ok(place);
        }
        follow(files, alloc, &mut place)?;
    }
    Err(PutFault::Failed)
}

// Makes a file with a name of its own in the folder of a place.
fn create_beside<R: Files>(
    files: &R,
    alloc: Global,
    place: &PathBuf,
) -> Result<(PathBuf, R::File), PutFault> {
    for n in 0..u32::MAX {
        let Ok(beside) = name_beside(alloc, place, n) else {
            return Err(PutFault::NoMemory);
        };
        let mut options = OpenOptions::new();
        options.write(true).create_new(true);
        match options.open(files, &beside) {
            Ok(file) => return Ok((beside, file)),
            Err(error) if error.kind() == ErrorKind::AlreadyExists => {}
            Err(_) => return Err(PutFault::Failed),
        }
    }
    Err(PutFault::Failed)
}

fn name_beside(alloc: Global, place: &PathBuf, n: u32) -> Result<PathBuf, AllocError> {
    let name = format!(in alloc; ".alpaca-{n}.tmp")?;
    place.as_path().with_file_name(alloc, name.as_str())
}

// Writes a file beside the place and renames it over what stands there. A failure leaves nothing behind.
fn replace<R: Files>(
    files: &R,
    alloc: Global,
    place: &PathBuf,
    permissions: Option<Permissions>,
    bytes: &[u8],
) -> Result<(), PutFault> {
    let (beside, mut file) = create_beside(files, alloc, place)?;
    let filled = fill(&mut file, permissions, bytes);
    drop(file);
    let put = match filled {
        Ok(()) => fs::rename(files, &beside, place),
        Err(error) => Err(error),
    };
    if put.is_err() {
        let _ = fs::remove_file(files, &beside);
    }
    put.map_err(|_| PutFault::Failed)
}

// Writes into what a name stands for, as it is.
fn write_through<R: Files>(files: &R, name: &str, bytes: &[u8]) -> io::Result<()> {
    let mut file = fs::create(files, name)?;
    put_all(&mut file, bytes)
}

// Whether both are of one file.
fn are_of_one(one: &Metadata, other: &Metadata) -> bool {
    one.dev() == other.dev() && one.ino() == other.ino()
}

// Whether standard output goes into this file. A new file in its place would leave what is told without a name.
fn is_output<R: Files>(files: &R, old: &Metadata) -> bool {
    match fs::metadata(files, OUTPUT) {
        Ok(output) => are_of_one(&output, old),
        Err(_) => false,
    }
}

fn may_be_written<R: Files>(files: &R, place: &PathBuf) -> bool {
    let mut options = OpenOptions::new();
    options.write(true);
    options.open(files, place).is_ok()
}

// Whether this file stands at a place and may be replaced there.
fn may_be_replaced<R: Files>(files: &R, place: &PathBuf, old: &Metadata) -> bool {
    match fs::symlink_metadata(files, place) {
        Ok(standing) if are_of_one(&standing, old) => {
            !is_output(files, old) && may_be_written(files, place)
        }
        _ => false,
    }
}

// The permissions of a new file in place of this one: what was allowed to be run as its owner is another file.
fn permissions_behind(old: &Metadata) -> Permissions {
    Permissions::from_mode(old.permissions().mode() & !SET_IDS)
}

/// Sets what stands under a name. After `Failed`, and wherever the program is ended, that is the old file or the new one,
/// whole. The new file has the permissions of the old one, but for setuid and setgid, and one that may not be written, or into
/// which standard output goes, is not replaced. Links stay: the file that they lead to is replaced; through a link whose target
/// can't be told nothing is put. What is no plain file, as a device or a pipe, is written as it is. `NoMemory` changes nothing.
pub fn put_file<R: Files>(
    files: &R,
    alloc: Global,
    name: &str,
    bytes: &[u8],
) -> Result<(), PutFault> {
    let place = place_of(files, alloc, name)?;
    match fs::metadata(files, name) {
        Ok(old) if !old.is_file() => {
            write_through(files, name, bytes).map_err(|_| PutFault::Failed)
        }
        Ok(old) if !may_be_replaced(files, &place, &old) => Err(PutFault::Failed),
        Ok(old) => replace(files, alloc, &place, Some(permissions_behind(&old)), bytes),
        Err(error) if error.kind() == ErrorKind::NotFound => {
            replace(files, alloc, &place, None, bytes)
        }
        Err(_) => Err(PutFault::Failed),
    }
}
