//! The words that a map names.
ghost use Rattle.std.specs.Prelude.{◌≡◌, IfSome, IfNone, false};
ghost use Rattle.fram_state.specs.Stretch.{held_until, AllUpTo};
ghost use Rattle.fram_state.specs.Named.{list_words, place_words, copies_words, variable_words, runtime_words, buffers, is_shared, shared_until};
ghost use Rattle.fram_state.specs.Named.{ring_parts, ring_until, is_named};

use crate::stretch::Stretch;
use image_map::RING_WORDS;
use image_text::{Map, Place, RingPlaces, RuntimeWords, Variable};

/// The words of the commit list, three for an entry.
pub fn list_words(place: Place) -> Stretch
    ensures { result ≡ list_words place }
{
    Stretch::of_words(place.address, 3 * place.capacity as u64)
}

/// The words of a place that has a word for an item.
pub fn place_words(place: Place) -> Stretch
    ensures { result ≡ place_words place }
{
    Stretch::of_words(place.address, place.capacity as u64)
}

/// The words of the private copies; none where the map doesn't say where they are.
pub fn copies_words(copies: Option<Place>) -> Stretch
    ensures { result ≡ copies_words copies }
{
    match copies {
        None => Stretch { from: 0, to: 0 },
        Some(place) => place_words(place),
    }
}

fn variable_words(v: &Variable) -> Stretch
    ensures { result ≡ variable_words v.now }
{
    Stretch::of_words(v.address, v.words() as u64)
}

fn runtime_words(words: RuntimeWords) -> [Stretch; 8]
    ensures { result ≡ runtime_words words }
{
    [
        Stretch::of_words(words.current_task, 1),
        Stretch::of_words(words.next_task, 1),
        Stretch::of_words(words.gate, 1),
        Stretch::of_words(words.list_length, 1),
        Stretch::of_words(words.emit_count, 1),
        Stretch::of_words(words.base, 1),
        Stretch::of_words(words.sent_base, 1),
        Stretch::of_words(words.version, 1),
    ]
}

fn buffers(map: &Map) -> [Stretch; 4]
    ensures { result ≡ buffers map.now }
{
    [
        list_words(map.list()),
        place_words(map.emits()),
        place_words(map.versions()),
        copies_words(map.copies()),
    ]
}

fn ring_parts(ring: RingPlaces) -> [Stretch; 6]
    ensures { result ≡ ring_parts ring }
{
    [
        Stretch::of_words(ring.head, 1),
        Stretch::of_words(ring.tail, 1),
        Stretch::of_words(ring.event_count, 1),
        Stretch::of_words(ring.sent_tail, 1),
        Stretch::of_words(ring.answer, 1),
        Stretch::of_words(ring.slots, RING_WORDS as u64),
    ]
}

/// Whether one of these variables has the word at an address.
pub fn is_shared(variables: &[Variable], address: u64) -> bool
    ensures { result ≡ is_shared variables.now address }
{
    variables.iter().any(|v| variable_words(v).holds(address))
}

// The end of the first of these stretches that has an address.
fn held_until(stretches: &[Stretch], address: u64) -> Option<u64>
    ensures { result ≡ held_until stretches.now address }
{
    stretches
        .iter()
        .find(|stretch| stretch.holds(address))
        .map(|stretch| stretch.to)
}

// The end of the first part of a ring that has an address, if there is a ring.
fn ring_until(ring: Option<RingPlaces>, address: u64) -> Option<u64>
    ensures { result ≡ ring_until ring address }
{
    match ring {
        None => None,
        Some(places) => held_until(&ring_parts(places), address),
    }
}

// The end of the first of these variables that has the word at an address.
fn shared_until(variables: &[Variable], address: u64) -> Option<u64>
    ensures { result ≡ shared_until variables.now address }
{
    variables
        .iter()
        .find(|v| variable_words(*v).holds(address))
        .map(|v| variable_words(v).to)
}

/// An address behind this one, such that the map names all from this one up to there; nothing where it doesn't name this one.
#[tactic(auto, using(crate::proofs::Stretches::named_by_places))]
pub fn named_until(map: &Map, address: u64) -> Option<u64>
    ensures some { IfSome result (AllUpTo (is_named map.now) address) }
    ensures none { IfNone result (is_named map.now address ≡ false) }
{
    if let Some(end) = held_until(&runtime_words(map.words()), address) {
        return Some(end);
    }
    if let Some(end) = held_until(&buffers(map), address) {
        return Some(end);
    }
    if let Some(end) = ring_until(map.ring(), address) {
        return Some(end);
    }
    shared_until(map.variables(), address)
}
