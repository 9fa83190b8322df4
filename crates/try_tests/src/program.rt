//! The program, run on texts in memory.
use alpaca_cli::{MemShelf, MemSink, Shelf, Status, alpaca};
use std::alloc::Global;
use std::test::Fail;

/// The bytes that a report of these tests has at most.
const ROOM: usize = 40_000;

/// What a run answered and wrote, and what stands under its last word then.
#[derive(Drop)]
pub struct Answer {
    pub status: Status,
    pub out: Vec<u8>,
    pub last: Vec<u8>,
}

/// A trace: the charges, then the readings.
pub fn trace(alloc: Global, charges: &str, readings: &[u16]) -> Result<String, Fail> {
    let mut text = format!(in alloc; "{charges}r")?;
    for reading in readings {
        text.push_str(&format!(in alloc; " {reading}")?)?;
    }
    text.push_str("\n")?;
    Ok(text)
}

/// Runs the program on these words, with these files there and ample memory.
pub fn run(alloc: Global, words: &[&str], files: &[(&str, &[u8])]) -> Result<Answer, Fail> {
    let mut shelf = MemShelf::new(Vec::new(alloc), Vec::new(alloc), Vec::new(alloc));
    for (name, bytes) in files {
        shelf.put(alloc, name, bytes)?;
    }
    let mut line = Vec::new(alloc);
    for word in words {
        line.push(String::from_str(alloc, word)?)?;
    }
    let mut out = MemSink::new(alloc, ROOM, Vec::new(alloc))?;
    let mut err = MemSink::new(alloc, ROOM, Vec::new(alloc))?;
    let status = alpaca(alloc, &line, &mut shelf, &mut out, &mut err);
    let last = shelf
        .file(words.last().copied().unwrap_or(""))
        .unwrap_or(b"");
    Ok(Answer {
        status,
        out: out.bytes().to_vec(alloc)?,
        last: last.to_vec(alloc)?,
    })
}

// What a command that compiles a source and runs its image answers on a source and a trace.
fn runs(alloc: Global, command: &str, source: &str, trace: &str) -> Result<Answer, Fail> {
    run(
        alloc,
        &[command, "s", "t", "i"],
        &[("s", source.as_bytes()), ("t", trace.as_bytes())],
    )
}

/// What `try` answers on a source and a trace.
pub fn tries(alloc: Global, source: &str, trace: &str) -> Result<Answer, Fail> {
    runs(alloc, "try", source, trace)
}

/// What `undo` answers on them.
pub fn undoes(alloc: Global, source: &str, trace: &str) -> Result<Answer, Fail> {
    runs(alloc, "undo", source, trace)
}

/// What `mean` answers on them.
pub fn means(alloc: Global, source: &str, trace: &[u8]) -> Result<Answer, Fail> {
    run(
        alloc,
        &["mean", "s", "t"],
        &[("s", source.as_bytes()), ("t", trace)],
    )
}
