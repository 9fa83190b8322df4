//! The parts of a need that are beside a task's own code.

ghost use Rattle.std.specs.Prelude.{◌≡◌, ◌≤◌, ◌^◌, ◌+◌, ◌-◌, ◌*◌, min};
ghost use Rattle.memory_map.specs.MemoryMap.{with_events};
ghost use Rattle.runtime_code.specs.Counted.{if_any};
ghost use Rattle.undo_runtime.specs.Listing.{recovery_cycles};
ghost use Rattle.task_needs.specs.Needs.{boot_time, start_time, commit_time};

use memory_map::Logging;

// So much where there are events.
fn with_events(events: bool, more: u64) -> u64
    ensures value { result ≡ with_events events more }
    ensures low { result ≤ more }
{
    if events { more } else { 0 }
}

// So much where there is any.
fn if_any(count: u64, once: u64) -> u64
    ensures value { result ≡ if_any count once }
    ensures low { result ≤ once }
{
    if count == 0 { 0 } else { once }
}

// So many entries put back.
fn recovery_need(entries: u64) -> u64
    requires { entries ≤ 2 ^ 32 }
    ensures value { result ≡ recovery_cycles entries }
    ensures low { result ≤ 12 + 15 * entries }
{
    10 + (if_any(entries, 2) + 15 * entries)
}

/// A boot, up to the start of an attempt; under undo with so many entries put back.
pub fn boot_need(logging: Logging, events: bool, entries: u64) -> u64
    requires { entries ≤ 2 ^ 32 }
    ensures value { result ≡ boot_time logging events entries }
    ensures low { result ≤ 21 + 15 * entries }
{
    let found = with_events(events, 3) + 6;
    match logging {
        Logging::Redo => found,
        Logging::Undo => found + recovery_need(entries),
    }
}

/// The start of an attempt, with so many version words cleared and so many words of private scalars copied, or listed under undo.
pub fn start_need(logging: Logging, events: bool, versions: u64, privates: u64) -> u64
    requires versions { versions ≤ 2 ^ 32 }
    requires privates { privates ≤ 1024 }
    ensures value { result ≡ start_time logging events versions privates }
    ensures low { result ≤ 15404 + 8 * versions }
{
    let cleared = 9 + (if_any(versions, 2) + 8 * versions);
    match logging {
        Logging::Redo => 30
            + with_events(events, 4)
            + cleared
            + (if_any(privates, 3) + 6 * privates),
        Logging::Undo => 26
            + with_events(events, 4)
            + cleared
            + (if_any(privates, 3) + 15 * privates),
    }
}

/// A commit of so many entries, which name so many words, and of so many words that are sent; under undo nothing is brought home.
pub fn commit_need(logging: Logging, events: bool, entries: u64, words: u64, emits: u64) -> u64
    requires entries { entries ≤ 2 ^ 32 }
    requires words { words ≤ 2 ^ 32 }
    requires emits { emits ≤ 2 ^ 32 }
    ensures value { result ≡ commit_time logging events entries words emits }
    ensures low { result ≤ 42 + 14 * entries + 9 * words + 13 * emits }
{
    let sent = if_any(emits, 2) + 13 * emits;
    match logging {
        Logging::Redo => {
            let copied = if_any(entries, 2) + 14 * entries + 9 * words;
            32 + with_events(events, 6) + copied + sent
        }
        Logging::Undo => 30 + with_events(events, 6) + sent,
    }
}

/// The dearest way, but no more than the table leaves for it.
pub fn path_need(most: u64, table: u64, beside: u64) -> u64
    ensures value { result ≡ min most (table - beside) }
    ensures low { result ≤ table }
{
    most.min(table.saturating_sub(beside))
}
