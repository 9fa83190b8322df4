//! Texts read as schedules.
ghost use Rattle.std.specs.Prelude.{◌≡◌, ◌≤◌, ◌<◌, Some, OnOk, length};
ghost use Rattle.text_parts.specs.Lines.{lines};
ghost use Rattle.radio_link.specs.Line.{line_says, entry};
ghost use Rattle.radio_link.specs.Reading.{Gives, step, schedule_of};
ghost use Rattle.radio_link.specs.Meaning.{IsMeaningOf};

use crate::entry::Entry;
use crate::fault::ScheduleFault;
use crate::line::entry_of;
use crate::schedule::Schedule;
use std::alloc::Global;
use text_parts::{cut_line, next_field, uncommented};

fn add_entry(more: Entry, n: u32, into: &mut Vec<Entry>) -> Result<(), ScheduleFault>
    requires { length into.old.items ≤ 65536 }
    ensures value { Gives (λ _. into.new.items) result (step n into.old.items (Some (entry more))) }
    ensures limit { OnOk result (length into.new.items ≤ 65536) }
{
    if into.len() >= 65_536 {
        return Err(ScheduleFault::TooMany { line: n });
    }
    into.push(more)?;
    Ok(())
}

#[tactic(auto, unfolding(crate::specs::Line::line_says))]
fn add_line(line: &[u8], n: u32, into: &mut Vec<Entry>) -> Result<(), ScheduleFault>
    requires { length into.old.items ≤ 65536 }
    ensures value { Gives (λ _. into.new.items) result (step n into.old.items (line_says line.now)) }
    ensures limit { OnOk result (length into.new.items ≤ 65536) }
{
    let Some((letter, behind)) = next_field(uncommented(b'#', line)) else {
        return Ok(());
    };
    match entry_of(letter, behind) {
        Some(more) => add_entry(more, n, into),
        None => Err(ScheduleFault::BadLine { line: n }),
    }
}

/// The schedule that a text is, or its first fault: the one of the least line, and within a line `BadLine` before `TooMany`.
///
/// LF and CRLF end a line; `#` begins a comment; fields stand between blanks; a number is decimal or behind `0x`, and below 2^32.
/// `a N` and `b N` are N steps of a board; `d K` brings packet K to B and `k K` acknowledgement K to A, counted from 0; `x N` are N
/// rounds. `TooMany` comes with the 65,537th of these. `Memory` is want of memory, and says nothing of the text.
pub fn parse_schedule(alloc: Global, text: &[u8]) -> Result<Schedule, ScheduleFault>
    requires { length text.now < 4294967295 }
    ensures value { Gives (λ s. s) result (schedule_of text.now) }
    ensures meaning { IsMeaningOf (lines text.now) result }
{
    let mut into = Vec::new(alloc);
    let mut n = 1;
    let mut rest = text;
    while let Some((line, behind)) = cut_line(rest) {
        add_line(line, n, &mut into)?;
        n += 1;
        rest = behind;
    }
    Ok(Schedule::of(into))
}
