//! What one side sent over the radio.
ghost use Rattle.std.specs.Prelude.{◌≡◌, IfOk, IfSome, Contains, false, slice_get};
ghost use Rattle.radio_link.specs.Sent.{nothing_sent, with_sent, with_brought, newest};

use std::alloc::{AllocError, Global};
use std::marker::Model;

/// How many of a kind the air takes.
const ROOM: usize = 1_000_000;

/// All that one side sent, at most 1,000,000, in the order of sending, and whether the newest wasn't brought to the other side yet.
/// It is lost or brought, once or often, in any order; nothing else is brought.
#[derive(Drop)]
pub struct Sent<T> {
    items: Vec<T>,
    newest_waits: bool,
}

impl<T> Model for Sent<T> {
    ghost use Rattle.std.specs.Prelude.{◌≤◌, vec_capacity};
    ghost use Rattle.radio_link.specs.Sent.{SentValue};

    ghost Value = { SentValue T };

    ghost view = { λ s. record { items = s.items.items; newest_waits = s.newest_waits } };

    ghost invariant = { λ s. 1000000 ≤ vec_capacity s.items };
}

impl<T: Copy> Sent<T> {
    /// Nothing sent yet. Takes memory for 1,000,000 now, and no more later.
    pub fn new(alloc: Global) -> Result<Sent<T>, AllocError>
        ensures { IfOk result (λ s. s ≡ nothing_sent) }
    {
        Ok(Sent {
            items: Vec::with_capacity(alloc, ROOM)?,
            newest_waits: false,
        })
    }

    /// Sends one more. The one past 1,000,000 is lost, and nothing changes.
    pub fn send(&mut self, item: T)
        ensures { self.new ≡ with_sent self.old item }
    {
        if self.items.len() < ROOM {
            self.items.push(item).unwrap();
            self.newest_waits = true;
        }
    }

    /// Brings the one of place `k`, counted from 0; nothing where there is none. The newest, once brought, waits no more.
    pub fn bring(&mut self, k: u32) -> Option<T>
        ensures value { result ≡ slice_get self.old.items k }
        ensures left { self.new ≡ with_brought self.old k }
        ensures sent { IfSome result (λ x. Contains self.old.items x) }
    {
        let k = k as usize;
        if k + 1 == self.items.len() {
            self.newest_waits = false;
        }
        self.items.as_slice().get(k).copied()
    }

    /// Brings the newest, where it waits; it waits no more.
    pub fn bring_newest(&mut self) -> Option<T>
        ensures value { result ≡ newest self.old }
        ensures left { self.new ≡ record { items = self.old.items; newest_waits = false } }
        ensures sent { IfSome result (λ x. Contains self.old.items x) }
    {
        if !self.newest_waits {
            return None;
        }
        self.newest_waits = false;
        self.items.as_slice().last().copied()
    }
}
