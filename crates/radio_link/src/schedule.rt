//! The type of schedules.
ghost use Rattle.std.specs.Prelude.{◌≡◌, ◌≤◌, length};

use crate::entry::Entry;
use std::marker::Model;

/// At most 65,536 entries, in order.
#[derive(Drop)]
pub struct Schedule {
    entries: Vec<Entry>,
}

impl Model for Schedule {
    ghost use Rattle.std.specs.Prelude.{◌≤◌, List, length};
    ghost use Rattle.radio_link.specs.declared.entry.Entry.{Entry};

    ghost Value = { List Entry };

    ghost view = { λ s. s.entries.items };

    ghost invariant = { λ s. length s.entries.items ≤ 65536 };
}

impl Schedule {
    /// The schedule of these entries, at most 65,536.
    pub fn of(entries: Vec<Entry>) -> Schedule
        requires { length entries.items ≤ 65536 }
        ensures { result ≡ entries.items }
    {
        Schedule { entries }
    }

    /// The entries, in order.
    pub fn entries(&self) -> &[Entry]
        ensures value { result.now ≡ self.now }
        ensures few { length result.now ≤ 65536 }
    {
        self.entries.as_slice()
    }
}
