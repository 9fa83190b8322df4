//! Calls the program as files of rows say, over files and outputs in memory, and prints each answer that differs.
//!
//! A file of rows has these lines; `#` begins one that says nothing.
//!
//! - `row TITLE`: what follows begins anew, with no file, and no call of the outside fails.
//! - `failing KIND N ..`: of KIND `reads`, `puts`, `writes` (to the output) or `tells` (to standard error) these fail, and no
//!   others, counted from 0: reads and puts over the row, the puts of its own files among them, and writes and tells over a
//!   call. Those of reads and puts come before the row's files.
//! - `file NAME`: a file with the text that follows.
//! - `call WORD ..`: the program is called with these words, and with those of the text that follows.
//! - `each WORD ..`: the same, and before that again and again over the same files, where each read, put and write fails in turn,
//!   by itself and with each write to standard error, as `turns` says.
//! - `failed READS PUTS WRITES TELLS`: so many calls failed by themselves, and each was answered as it has to be.
//! - `with NAME WORD ..`: a series of calls with these words, each over another text under this name, behind the text that follows.
//! - `refused NAME LINE FAULT ..`, `fault KIND ..`, `end KIND ..`, `accepted`: a call of the series over the text that follows. It
//!   tells this line, and nothing else: of a text that is refused with status 1, of a fault of the machine with status 6, of the
//!   end of a run with status 0; or it ends well, and what it writes isn't said.
//! - `usage WORD ..`: the program is called with these words, which are no line: it tells how it is called, with status 2.
//! - `status N`: what it answers; 0 where none is said.
//! - `out` and `err`: what it writes, the text that follows; nothing where none is said.
//! - `begins`: what it writes to the output begins with the text that follows.
//! - `ends N`: what it writes to the output has N lines, and ends with the text that follows.
//! - `keep NAME`: what it writes to the output is put under a name.
//! - `holds NAME`, `has NAME`, `lacks NAME`, `like NAME NAME`: the text that follows stands under a name, some text, none, and the
//!   same under both.
//! - `shows NAME`: the text that follows stands somewhere in the one under a name.
//! - `size NAME N`: a text of N bytes stands under a name.
//! - `prints NAME`, `prints image NAME`, `compiles NAME NAME`, `word V I NAME`, `decides N NAME`, `real NAME`: calls that the
//!   program doesn't make, as `calls` says.
//!
//! A text is made of lines `| TEXT`, which end with a line feed, and of `- TEXT` and `N * TEXT`, which don't; the last comes N
//! times. In it `\HH` is the byte of two hexadecimal digits, `\#` the number of the turn, from 1, and `\@` the same from 0;
//! `\(N TEXT\)` is TEXT as often as N says, with turns of its own.
#![tactic(auto)]

mod bench;
mod calls;
mod parts;
mod series;
mod turns;

use anyhow::Result;
use bench::Bench;
use parts::parts_of;
use std::{env, fs};

// How many parts differ from what is found; each is printed.
fn differing(rt: &HostRuntime, rows: &str, bench: &mut Bench) -> Result<u64> {
    let mut differ = 0u64;
    for part in &parts_of(rt.alloc(), rows)? {
        if let Some(found) = bench.take(part)? {
            differ = differ.saturating_add(1);
            println!(rt; "by line {}: {found}", part.line)?;
        }
    }
    if let Some(found) = bench.unsaid()? {
        differ = differ.saturating_add(1);
        println!(rt; "at the end: {found}")?;
    }
    Ok(differ)
}

fn main(rt: HostRuntime) -> Result<()> {
    for name in env::args(&rt)?.skip(1) {
        let rows = fs::read_to_string(&rt, name.as_str())?;
        let mut bench = Bench::new(rt);
        let differ = differing(&rt, rows.as_str(), &mut bench)?;
        println!(rt; "{name}: {} calls, {differ} differ", bench.calls)?;
    }
    Ok(())
}
