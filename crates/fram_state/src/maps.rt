//! Whether two maps are the same.
ghost use Rattle.std.specs.Prelude.{◌≡◌, ◌↔◌, IsTrue, length, take};

use image_text::{Map, Name, Task, Variable};

/// What can be told apart from another of its kind.
trait Same {
    /// Whether both are the same value.
    fn is_same(&self, other: &Self) -> bool
        ensures { IsTrue result ↔ (self.now ≡ other.now) };
}

impl Same for Name {
    fn is_same(&self, other: &Name) -> bool {
        self.as_bytes() == other.as_bytes()
    }
}

impl Same for Variable {
    fn is_same(&self, other: &Variable) -> bool {
        self.name.is_same(&other.name)
            && self.value_type == other.value_type
            && self.address == other.address
            && self.length == other.length
    }
}

impl Same for Task {
    fn is_same(&self, other: &Task) -> bool {
        self.name().is_same(other.name()) && are_same(self.privates(), other.privates())
    }
}

// Whether lists are the same, item by item.
#[tactic(auto, using(crate::proofs::Items::same_more, crate::proofs::Items::same_item))]
fn are_same<T: Same>(items: &[T], others: &[T]) -> bool
    ensures { IsTrue result ↔ (items.now ≡ others.now) }
{
    if items.len() != others.len() {
        return false;
    }
    for i in 0..items.len() {
        if !items[i].is_same(&others[i]) {
            return false;
        }
    }
    true
}

/// Whether two maps are the same: a map that says where no copies are isn't one that says nothing of them; a map with a ring isn't one without.
pub fn are_same_maps(map: &Map, other: &Map) -> bool
    ensures { IsTrue result ↔ (map.now ≡ other.now) }
{
    map.bound() == other.bound()
        && map.words() == other.words()
        && map.list() == other.list()
        && map.emits() == other.emits()
        && map.versions() == other.versions()
        && map.copies() == other.copies()
        && map.ring() == other.ring()
        && are_same(map.variables(), other.variables())
        && are_same(map.tasks(), other.tasks())
}
