//! The rules of sound states.
ghost use Rattle.std.specs.Prelude.{◌≡◌, IfSome, length, find, not};
ghost use Rattle.image_text.specs.address_space.Limits.{fram_words};
ghost use Rattle.image_text.specs.image_map.MapValue.{IsRing};
ghost use Rattle.fram_state.specs.Sound as sound;
ghost use Rattle.fram_state.specs.Sound.{entries_of, is_pending, is_base, first_broken};

use crate::entry::Entry;
use crate::fault::Rule;
use crate::named::{copies_words, is_shared, list_words, place_words};
use crate::runtime::{Ring, Runtime, ring_of, runtime_of, words_from};
use crate::stretch::Stretch;
use image_map::RING_WORDS;
use image_text::{Map, RingPlaces, Variable};

/// The rules, in the order in which they are looked at.
const RULES: [Rule; 10] = [
    Rule::Gate,
    Rule::CurrentTask,
    Rule::Versions,
    Rule::Base,
    Rule::ListLength,
    Rule::EmitCount,
    Rule::NextTask,
    Rule::SentBase,
    Rule::List,
    Rule::Ring,
];

// Whether so many words from an address on are all shared ones.
#[tactic(auto, using(crate::proofs::Entries::shared_more, crate::proofs::Entries::shared_stop, crate::proofs::Entries::shared_end))]
fn are_shared(variables: &[Variable], words: u16, address: u16) -> bool
    ensures { result ≡ sound.are_shared variables.now words address }
{
    for i in 0..words {
        if !is_shared(variables, address as u64 + 2 * i as u64) {
            return false;
        }
    }
    true
}

// Whether an entry has a word at least, and goes from copies to shared words.
fn is_entry(map: &Map, entry: Entry) -> bool
    ensures { result ≡ sound.is_entry map.now entry }
{
    let copies = Stretch::of_words(entry.copy, entry.words as u64);
    entry.words >= 1
        && entry.copy % 2 == 0
        && copies.lies_in(copies_words(map.copies()))
        && entry.home % 2 == 0
        && are_shared(map.variables(), entry.words, entry.home)
}

// Whether the entries that words are go from copies to shared words, and have at most as many words as the list has room for entries.
#[tactic(auto, using(crate::proofs::Entries::entry_by_entry))]
fn are_entries(map: &Map, list: &[u16]) -> bool
    ensures { result ≡ sound.are_entries map.now (entries_of list.now) map.now.list.capacity }
{
    let mut room = map.list().capacity;
    let mut left = list;
    while let [home, copy, words, rest @ ..] = left {
        let entry = Entry {
            home: *home,
            copy: *copy,
            words: *words,
        };
        let Some(behind) = room.checked_sub(entry.words as u32) else {
            return false;
        };
        if !is_entry(map, entry) {
            return false;
        }
        room = behind;
        left = rest;
    }
    true
}

fn is_pending(runtime: Runtime) -> bool
    ensures { result ≡ is_pending runtime }
{
    runtime.gate == 1
}

fn is_base(runtime: Runtime, number: u16) -> bool
    ensures { result ≡ is_base runtime number }
{
    if is_pending(runtime) {
        runtime.base == runtime.sent_base
            || runtime.base == runtime.sent_base.wrapping_add(runtime.emit_count)
    } else {
        runtime.base == number
    }
}

fn are_at_most(words: &[u16], top: u16) -> bool
    ensures { result ≡ sound.are_at_most words.now top }
{
    words.iter().all(|w| *w <= top)
}

// Whether the version words are in the FRAM, and none is above VER.
fn are_versions(map: &Map, words: &[u16], version: u16) -> bool
    ensures { result ≡ sound.are_versions map.now words.now version }
{
    map.rules();
    let place = map.versions();
    place_words(place).fits_fram()
        && are_at_most(
            words_from(words, place.address, place.capacity as usize),
            version,
        )
}

// Whether the copies are in the FRAM, and the entries of the commit list go from them to shared words, with at most its capacity of words.
fn is_list(map: &Map, words: &[u16], list_length: u16) -> bool
    ensures { result ≡ sound.is_list map.now words.now list_length }
{
    map.rules();
    let place = map.list();
    copies_words(map.copies()).fits_fram()
        && are_entries(
            map,
            words_from(words, place.address, 3 * list_length as usize),
        )
}

// Whether no more words wait in a ring than it has slots, and a pending commit takes none but these.
fn is_ring(ring: Ring, pending: bool) -> bool
    ensures { result ≡ sound.is_ring ring pending }
{
    ring.waiting <= RING_WORDS && (!pending || ring.taken <= ring.waiting)
}

// The same of the ring that a map may have.
fn is_ring_at(ring: Option<RingPlaces>, words: &[u16], pending: bool) -> bool
    requires all { length words.now ≡ fram_words }
    requires places { IfSome ring IsRing }
    ensures { result ≡ sound.is_ring_at ring words.now pending }
{
    match ring {
        None => true,
        Some(places) => is_ring(ring_of(places, words), pending),
    }
}

// Whether a state keeps a rule: one with this map, these words of the FRAM, of which the runtime's hold this, and this number.
#[tactic(auto, unfolding(crate::specs::Sound::keeps))]
fn keeps(map: &Map, words: &[u16], runtime: Runtime, number: u16, rule: Rule) -> bool
    requires { length words.now ≡ fram_words }
    ensures { result ≡ sound.keeps map.now words.now runtime number rule }
{
    map.rules();
    let pending = is_pending(runtime);
    match rule {
        Rule::Gate => runtime.gate <= 1,
        Rule::CurrentTask => (runtime.current_task as usize) < map.tasks().len(),
        Rule::Versions => are_versions(map, words, runtime.version),
        Rule::Base => is_base(runtime, number),
        Rule::ListLength => {
            list_words(map.list()).fits_fram() && runtime.list_length as u32 <= map.list().capacity
        }
        Rule::EmitCount => {
            place_words(map.emits()).fits_fram()
                && runtime.emit_count as u32 <= map.emits().capacity
        }
        Rule::NextTask => !pending || (runtime.next_task as usize) < map.tasks().len(),
        Rule::SentBase => !pending || number.wrapping_sub(runtime.sent_base) <= runtime.emit_count,
        Rule::List => !pending || is_list(map, words, runtime.list_length),
        Rule::Ring => is_ring_at(map.ring(), words, pending),
    }
}

// The first of these rules that such a state breaks.
fn first_failed(
    rules: &[Rule],
    map: &Map,
    words: &[u16],
    runtime: Runtime,
    number: u16,
) -> Option<Rule>
    requires { length words.now ≡ fram_words }
    ensures { result ≡ find (λ r. not (sound.keeps map.now words.now runtime number r)) rules.now }
{
    for rule in rules {
        if !keeps(map, words, runtime, number, *rule) {
            return Some(*rule);
        }
    }
    None
}

/// The first rule that a state with this map breaks: one of these words of the FRAM, whose receiver takes this number next.
pub fn first_broken(map: &Map, words: &[u16], number: u16) -> Option<Rule>
    requires { length words.now ≡ fram_words }
    ensures { result ≡ first_broken map.now words.now number }
{
    map.rules();
    let runtime = runtime_of(map.words(), words);
    first_failed(&RULES, map, words, runtime, number)
}
