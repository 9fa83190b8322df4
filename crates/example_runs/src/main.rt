//! Runs programs under their traces, and says which print the report that stands beside them, of which an audit says yes; or that it can't say,
//! where the source takes events.
//!
//! Of each NAME in its words it runs `alpaca try NAME.alp NAME.trace NAME.img`, and compares what that prints with NAME.report;
//! and it runs `alpaca audit NAME.alp NAME.report NAME.trace`.
#![tactic(auto)]

use alpaca_cli::{
    DirShelf, Failed, MemSink, NoMemory, ReadFault, Shelf, Sink, Status, StdSink, alpaca,
    write_pieces,
};
use std::alloc::{AllocError, Global};
use std::env;
use std::process::ExitCode;
use thiserror::Error;

/// The most bytes of a report, as it stands or as it is printed.
const ROOM: usize = 65_536;

/// Why the examples weren't run to their end.
#[derive(Clone, Copy, Debug, Error)]
enum Fault {
    #[error("out of memory")]
    Memory,
    #[error("a report can't be read")]
    Report,
    #[error("a write failed")]
    Write,
}

impl From<AllocError> for Fault {
    fn from(_: AllocError) -> Fault {
        Fault::Memory
    }
}

impl From<NoMemory> for Fault {
    fn from(_: NoMemory) -> Fault {
        Fault::Memory
    }
}

impl From<ReadFault> for Fault {
    fn from(_: ReadFault) -> Fault {
        Fault::Report
    }
}

impl From<Failed> for Fault {
    fn from(_: Failed) -> Fault {
        Fault::Write
    }
}

// The words of a command on the files of an example.
fn words_of(
    alloc: Global,
    command: &str,
    name: &str,
    endings: [&str; 3],
) -> Result<Vec<String>, AllocError> {
    let mut words = Vec::new(alloc);
    words.push(String::from_str(alloc, command)?)?;
    for ending in endings {
        words.push(format!(in alloc; "{name}{ending}")?)?;
    }
    Ok(words)
}

// Whether an audit of its report says yes, or refuses the source since it takes events.
fn is_told<H: Shelf>(alloc: Global, shelf: &mut H, name: &str) -> Result<bool, Fault> {
    let mut out = MemSink::new(alloc, ROOM, Vec::new(alloc))?;
    let mut err = MemSink::new(alloc, ROOM, Vec::new(alloc))?;
    let words = words_of(alloc, "audit", name, [".alp", ".report", ".trace"])?;
    let status = alpaca(alloc, &words, shelf, &mut out, &mut err);
    Ok(match status {
        Status::Done => out.bytes().starts_with(b"yes ") && err.bytes().is_empty(),
        Status::Refused => err.bytes().ends_with(b" Events\n"),
        _ => false,
    })
}

// Whether an example ends with status 0, and prints its report and nothing else.
fn agrees<H: Shelf>(alloc: Global, shelf: &mut H, name: &str) -> Result<bool, Fault> {
    let mut report = Vec::new(alloc);
    let report_name = format!(in alloc; "{name}.report")?;
    shelf.read(alloc, &report_name, ROOM, &mut report)?;
    let mut out = MemSink::new(alloc, ROOM, Vec::new(alloc))?;
    let mut err = MemSink::new(alloc, ROOM, Vec::new(alloc))?;
    let words = words_of(alloc, "try", name, [".alp", ".trace", ".img"])?;
    let status = alpaca(alloc, &words, shelf, &mut out, &mut err);
    Ok(status == Status::Done && out.bytes() == report.as_slice() && err.bytes().is_empty())
}

// Tells of each example whether it agrees and an audit says yes, and answers whether all do.
fn tell_all<H: Shelf, O: Sink>(
    alloc: Global,
    names: &[String],
    shelf: &mut H,
    out: &mut O,
) -> Result<bool, Fault> {
    let mut all = true;
    for name in names {
        let same = agrees(alloc, shelf, name)? && is_told(alloc, shelf, name)?;
        let told: &[u8] = if same { b" agrees\n" } else { b" differs\n" };
        write_pieces(out, &[name.as_bytes(), told])?;
        all = all && same;
    }
    Ok(all)
}

fn main(rt: HostRuntime) -> ExitCode {
    let alloc = rt.alloc();
    let mut out = StdSink::new(rt.stdout());
    let names: Vec<String> = match env::args(&rt) {
        Ok(args) => match args.skip(1).collect(alloc) {
            Ok(names) => names,
            Err(_) => return ExitCode::from(5),
        },
        Err(_) => return ExitCode::from(2),
    };
    let mut shelf = DirShelf::new(rt);
    match tell_all(alloc, &names, &mut shelf, &mut out) {
        Ok(true) => ExitCode::from(0),
        Ok(false) => ExitCode::from(1),
        Err(_) => ExitCode::from(3),
    }
}
