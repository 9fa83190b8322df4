//! Schedules written as texts.
ghost use Rattle.std.specs.Prelude.{◌≡◌, ◌++◌, ◌∷◌, [], All, Ok, OnOk, IfOk, map};
ghost use Rattle.text_parts.specs.Printed.{spaced, printed};
ghost use Rattle.radio_link.specs.Text.{entry_words, text_of, IsEntry, letter, number_in};
ghost use Rattle.radio_link.specs.Reading.{schedule_of};

use crate::entry::Entry;
use crate::schedule::Schedule;
use alp_text::print_u64;
use std::alloc::{AllocError, Global};

// The letter with its space, and the number, of an entry.
fn words_of(entry: Entry) -> (&'static [u8], u32)
    ensures letter { result.0.now ≡ letter entry ++ 32 ∷ [] }
    ensures number { result.1 ≡ number_in entry }
    ensures range { IsEntry entry }
{
    match entry {
        Entry::StepsOfA(n) => (b"a ", n),
        Entry::StepsOfB(n) => (b"b ", n),
        Entry::BringPacket(k) => (b"d ", k),
        Entry::BringAcknowledgement(k) => (b"k ", k),
        Entry::Rounds(n) => (b"x ", n),
    }
}

fn push_entry(out: &mut Vec<u8>, entry: &Entry) -> Result<(), AllocError>
    ensures text { OnOk result (out.new.items ≡ out.old.items ++ (spaced (entry_words entry.now) ++ 10 ∷ [])) }
    ensures range { OnOk result (IsEntry entry.now) }
{
    let (letter, number) = words_of(*entry);
    out.extend_from_slice(letter)?;
    out.extend_from_slice(print_u64(number as u64).as_bytes())?;
    out.extend_from_slice(b"\n")
}

#[tactic(auto, unfolding(text_parts::specs::Printed::printed))]
fn push_entries(out: &mut Vec<u8>, entries: &[Entry]) -> Result<(), AllocError>
    ensures text { OnOk result (out.new.items ≡ out.old.items ++ printed (map entry_words entries.now)) }
    ensures ranges { OnOk result (All IsEntry entries.now) }
{
    for entry in entries {
        push_entry(out, entry)?;
    }
    Ok(())
}

/// The text of a schedule: a line for each entry, its letter and its number in decimal. It reads back as the schedule.
#[tactic(auto, using(crate::proofs::Back::printed_back))]
pub fn print_schedule(alloc: Global, schedule: &Schedule) -> Result<Vec<u8>, AllocError>
    ensures text { IfOk result (λ v. v.items ≡ text_of schedule.now) }
    ensures reads_back { IfOk result (λ v. schedule_of v.items ≡ Ok schedule.now) }
{
    let mut out = Vec::new(alloc);
    push_entries(&mut out, schedule.entries())?;
    Ok(out)
}
