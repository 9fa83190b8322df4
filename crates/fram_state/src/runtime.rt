//! What the words of a FRAM hold.
ghost use Rattle.std.specs.Prelude.{◌≡◌, ◌≤◌, ◌*◌, ◌/◌, ◌-◌, length};
ghost use Rattle.image_text.specs.address_space.Limits.{IsFramWord, fram_words};
ghost use Rattle.image_text.specs.image_map.MapValue.{AreFramWords, IsRing};
ghost use Rattle.fram_state.specs.Runtime.{word_in, words_from, runtime_of, ring_of};

use image_text::address_space::fram_index;
use image_text::{RingPlaces, RuntimeWords};

/// What the words of the runtime hold.
#[derive(Clone, Copy)]
pub struct Runtime {
    pub current_task: u16,
    pub next_task: u16,
    pub gate: u16,
    pub list_length: u16,
    pub emit_count: u16,
    pub base: u16,
    pub sent_base: u16,
    pub version: u16,
}

/// How many words of a ring of events wait, from TAIL up to HEAD, and how many a commit takes, up to SE.
#[derive(Clone, Copy)]
pub struct Ring {
    pub waiting: u16,
    pub taken: u16,
}

/// The word at an address.
pub fn word_in(words: &[u16], address: u16) -> u16
    requires all { length words.now ≡ fram_words }
    requires address { IsFramWord address }
    ensures { result ≡ word_in words.now address }
{
    words[fram_index(address)]
}

/// So many words from an address on, as far as the FRAM goes.
#[tactic(auto, using(crate::proofs::Parts::take_min, crate::proofs::Parts::drop_min))]
pub fn words_from(words: &[u16], address: u16, count: usize) -> &[u16]
    requires { IsFramWord address }
    ensures { result.now ≡ words_from words.now address count }
{
    let first = fram_index(address).min(words.len());
    let rest = &words[first..];
    &rest[..count.min(rest.len())]
}

/// What the words of the runtime hold.
pub fn runtime_of(places: RuntimeWords, words: &[u16]) -> Runtime
    requires all { length words.now ≡ fram_words }
    requires places { AreFramWords places }
    ensures { result ≡ runtime_of places words.now }
{
    Runtime {
        current_task: word_in(words, places.current_task),
        next_task: word_in(words, places.next_task),
        gate: word_in(words, places.gate),
        list_length: word_in(words, places.list_length),
        emit_count: word_in(words, places.emit_count),
        base: word_in(words, places.base),
        sent_base: word_in(words, places.sent_base),
        version: word_in(words, places.version),
    }
}

/// What waits in a ring.
pub fn ring_of(places: RingPlaces, words: &[u16]) -> Ring
    requires all { length words.now ≡ fram_words }
    requires places { IsRing places }
    ensures { result ≡ ring_of places words.now }
{
    let tail = word_in(words, places.tail);
    Ring {
        waiting: word_in(words, places.head).wrapping_sub(tail),
        taken: word_in(words, places.sent_tail).wrapping_sub(tail),
    }
}
