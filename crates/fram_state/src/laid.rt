//! The words of a new edition's FRAM, which are written over those of its image.
ghost use Rattle.std.specs.Prelude.{◌≡◌, ◌≤◌, ◌+◌, ◌<◌, ◌^◌, IfOk, OnOk, length};
ghost use Rattle.image_text.specs.address_space.Limits.{IsFramWord, fram_words};
ghost use Rattle.image_text.specs.image_map.MapValue.{IsRing, IsVariable};
ghost use Rattle.image_text.specs.ImageValue.{place_of};
ghost use Rattle.fram_state.specs.Suits.{line_of, declared_line};
ghost use Rattle.fram_state.specs.Kept.{shared_names};
ghost use Rattle.fram_state.specs.Migrated as spec;
ghost use Rattle.fram_state.specs.Migrated.{rows_of, row_of};
ghost use Rattle.fram_state.specs.Laid.{with_row, with_rows, with_word, with_ring, with_kept_ring, migrated_words};
ghost use Rattle.fram_state.specs.Editions.{edition_of, HasNumbers, IsEdition};

use crate::edition::Edition;
use crate::kept::{Numbers, kept_from};
use crate::runtime::{word_in, words_from};
use image_map::RING_WORDS;
use image_text::address_space::fram_index;
use image_text::{RingPlaces, Variable};
use source_meaning::initial_words;
use source_report::spelled;
use std::alloc::{AllocError, Global};
use task_ast::SharedDeclaration;

// Writes a row over words, from a place on.
fn put_row(words: &mut [u16], place: usize, row: &[u16])
    requires { place + length row.now ≤ length words.old }
    ensures row { words.new ≡ with_row place row.now words.old }
    ensures len { length words.new ≡ length words.old }
{
    for i in 0..row.len() {
        words[place + i] = row[i];
    }
}

// Writes a word at an address.
fn put_word(words: &mut [u16], address: u16, word: u16)
    requires all { length words.old ≡ fram_words }
    requires address { IsFramWord address }
    ensures word { words.new ≡ with_word words.old address word }
    ensures len { length words.new ≡ fram_words }
{
    words[fram_index(address)] = word;
}

// The words of the variable of a number in the FRAM of an edition.
fn words_of<'a>(edition: &Edition<'a>, number: usize) -> &'a [u16]
    ensures { result.now ≡ spec.words_of (edition_of edition.now) number }
{
    edition.map.rules();
    match edition.map.variables().get(number) {
        None => &[],
        Some(v) => words_from(edition.words, v.address, v.words() as usize),
    }
}

// Writes the words that a new variable goes on with over those at its place.
fn put_variable<'a>(
    alloc: Global,
    old: &Edition<'a>,
    numbers: &Numbers<'a>,
    text: &'a [u8],
    declaration: &SharedDeclaration,
    v: &Variable,
    words: &mut [u16],
) -> Result<(), AllocError>
    requires old { IsEdition (edition_of old.now) }
    requires names { HasNumbers (shared_names old.now.text.now old.now.source.now.shared.items) numbers.now }
    requires place { IsVariable v.now }
    requires line { line_of v.now ≡ declared_line text.now declaration.now }
    requires all { length words.old ≡ fram_words }
    ensures row { OnOk result (words.new ≡ with_row (place_of v.now.address) (row_of (edition_of old.now) text.now declaration.now) words.old) }
    ensures len { length words.new ≡ fram_words }
{
    let place = fram_index(v.address);
    let name = spelled(text, declaration.name);
    let shared = old.source.shared.as_slice();
    match kept_from(old.text, shared, numbers, name, declaration) {
        Some(from) => put_row(words, place, words_of(old, from)),
        None => {
            let row = initial_words(alloc, declaration.extent)?;
            put_row(words, place, &row)
        }
    }
    Ok(())
}

// Writes the words that the new variables go on with, those of the first over all others.
fn put_variables<'a>(
    alloc: Global,
    old: &Edition<'a>,
    numbers: &Numbers<'a>,
    new: &Edition<'a>,
    words: &mut [u16],
) -> Result<(), AllocError>
    requires old { IsEdition (edition_of old.now) }
    requires new { IsEdition (edition_of new.now) }
    requires names { HasNumbers (shared_names old.now.text.now old.now.source.now.shared.items) numbers.now }
    requires all { length words.old ≡ fram_words }
    ensures rows { OnOk result (words.new ≡ with_rows new.now.map.now.variables (rows_of (edition_of old.now) (edition_of new.now)) words.old) }
    ensures len { length words.new ≡ fram_words }
{
    let shared = new.source.shared.as_slice();
    let variables = new.map.variables();
    for k in (0..shared.len()).rev() {
        put_variable(
            alloc,
            old,
            numbers,
            new.text,
            &shared[k],
            &variables[k],
            words,
        )?;
    }
    Ok(())
}

// Writes the slots, TAIL and HEAD of an old ring over those of a new one.
#[tactic(auto, using(crate::proofs::Ring::slots_fit))]
fn put_ring(new: RingPlaces, old: RingPlaces, from: &[u16], words: &mut [u16])
    requires new { IsRing new }
    requires old { IsRing old }
    requires from { length from.now ≡ fram_words }
    requires all { length words.old ≡ fram_words }
    ensures ring { words.new ≡ with_ring new old from.now words.old }
    ensures len { length words.new ≡ fram_words }
{
    let slots = words_from(from, old.slots, RING_WORDS as usize);
    put_row(words, fram_index(new.slots), slots);
    put_word(words, new.tail, word_in(from, old.tail));
    put_word(words, new.head, word_in(from, old.head));
}

// The same where both editions have a ring.
fn put_kept_ring<'a>(old: &Edition<'a>, new: &Edition<'a>, words: &mut [u16])
    requires old { IsEdition (edition_of old.now) }
    requires all { length words.old ≡ fram_words }
    ensures ring { words.new ≡ with_kept_ring new.now.map.now.ring old.now.map.now.ring old.now.words.now words.old }
    ensures len { length words.new ≡ fram_words }
{
    old.map.rules();
    new.map.rules();
    if let (Some(places), Some(old_places)) = (new.map.ring(), old.map.ring()) {
        put_ring(places, old_places, old.words, words);
    }
}

/// The words of the new FRAM: those of the new image, with the words that the new variables go on with, the ring that goes on where
/// both have one, BASE as the old state has it, and CUR as the number of this task.
pub fn migrated_words<'a>(
    alloc: Global,
    old: &Edition<'a>,
    numbers: &Numbers<'a>,
    new: &Edition<'a>,
    task: usize,
) -> Result<Vec<u16>, AllocError>
    requires old { IsEdition (edition_of old.now) }
    requires new { IsEdition (edition_of new.now) }
    requires names { HasNumbers (shared_names old.now.text.now old.now.source.now.shared.items) numbers.now }
    requires task { task < 2 ^ 16 }
    ensures { IfOk result (λ v. v.items ≡ migrated_words (edition_of old.now) (edition_of new.now) task) }
{
    old.map.rules();
    new.map.rules();
    let places = new.map.words();
    let base = word_in(old.words, old.map.words().base);
    let mut words = new.words.to_vec(alloc)?;
    put_variables(alloc, old, numbers, new, &mut words)?;
    put_kept_ring(old, new, &mut words);
    put_word(&mut words, places.base, base);
    put_word(&mut words, places.current_task, task as u16);
    Ok(words)
}
