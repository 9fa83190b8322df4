//! Calls of the crates below that the program doesn't make, or makes over files in memory alone here.
use alpaca_cli::{
    Board, DirShelf, Meaning, Shelf, accept, compile, parse_image, parse_trace, print_image,
    print_trace,
};
use anyhow::Result;
use std::alloc::Global;
use std::fs;

// A text has no more bytes than these.
const LIMIT: usize = 1_048_576;

/// Whether a trace is printed so.
pub fn is_printed(alloc: Global, text: &[u8], printed: &[u8]) -> Result<bool> {
    if text.len() > LIMIT {
        return Ok(false);
    }
    let trace = parse_trace(alloc, text)?;
    let found = print_trace(alloc, &trace)?;
    Ok(found.as_slice() == printed)
}

/// Whether an image is printed so.
pub fn is_image_printed(alloc: Global, text: &[u8], printed: &[u8]) -> Result<bool> {
    if text.len() > LIMIT {
        return Ok(false);
    }
    let image = parse_image(alloc, text)?;
    let found = print_image(alloc, &image)?;
    Ok(found.as_slice() == printed)
}

/// Whether a source has this image.
pub fn is_compiled(alloc: Global, source: &[u8], image: &[u8]) -> Result<bool> {
    if source.len() > LIMIT {
        return Ok(false);
    }
    let compiled = compile(alloc, source)?;
    let found = print_image(alloc, &compiled)?;
    Ok(found.as_slice() == image)
}

// The word `i` of a source's shared variable `v`, both counted from 0, before its first transition.
fn first_word(alloc: Global, source: &[u8], v: u16, i: u16) -> Result<u32> {
    if source.len() > LIMIT {
        return Ok(0);
    }
    let accepted = accept(alloc, source)?;
    let meaning = Meaning::new(alloc, &accepted)?;
    Ok(meaning.word(v, i))
}

/// Whether a word of a source before its first transition is printed so: `V I`, its variable and its place in it, from 0.
pub fn is_first_word(alloc: Global, source: &[u8], place: &str, word: &[u8]) -> Result<bool> {
    let (v, i) = place.split_once(" ").unwrap_or((place, ""));
    match (v.parse::<u16>(), i.parse::<u16>()) {
        (Ok(v), Ok(i)) => {
            let found = first_word(alloc, source, v, i)?;
            Ok(format!(in alloc; "{found}\n")?.as_bytes() == word)
        }
        _ => Ok(false),
    }
}

// Where each compiled image has GATE, and the first word of its FRAM.
const GATE: u16 = 0x4404;

const FRAM: u16 = 0x4400;

// A word of FRAM right behind the first decide of a source's image, in one charge without readings; nothing where none comes within
// a million steps.
fn word_decided(alloc: Global, source: &[u8], address: u16) -> Result<Option<u16>> {
    if source.len() > LIMIT {
        return Ok(None);
    }
    let image = compile(alloc, source)?;
    let mut board = Board::new(alloc, &image, &[], &[])?;
    for _ in 0..1_000_000u32 {
        if board.word(GATE) == Some(1) {
            return Ok(board.word(address));
        }
        if board.accepted() == u64::MAX {
            return Ok(None);
        }
        if board.repeats() == u64::MAX {
            return Ok(None);
        }
        if board.step().is_err() {
            return Ok(None);
        }
    }
    Ok(None)
}

/// Whether a word of FRAM, by its number from 0, is printed so right behind the first decide of a source's image.
pub fn is_word_decided(alloc: Global, source: &[u8], number: &str, word: &[u8]) -> Result<bool> {
    match number.parse::<u16>() {
        Ok(n) if n < 0x5e00 => match word_decided(alloc, source, FRAM + 2 * n)? {
            Some(found) => Ok(format!(in alloc; "{found}\n")?.as_bytes() == word),
            None => Ok(false),
        },
        _ => Ok(false),
    }
}

/// Whether a file of the operating system takes these bytes and gives them back; it is removed then.
pub fn is_kept(rt: HostRuntime, name: &str, bytes: &[u8]) -> Result<bool> {
    let alloc = rt.alloc();
    let mut shelf = DirShelf::new(rt);
    shelf.put(alloc, name, bytes)?;
    let mut found = Vec::new(alloc);
    shelf.read(alloc, name, LIMIT, &mut found)?;
    fs::remove_file(&rt, name)?;
    Ok(found.as_slice() == bytes)
}
