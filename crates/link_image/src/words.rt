//! The words of the FRAM.
ghost use Rattle.std.specs.Prelude.{◌≡◌, ◌+◌, ◌-◌, ◌*◌, ◌/◌, ◌%◌, ◌==◌, ◌≤◌, ℕ, All, length, map, if◌then◌else◌, slice_index};
ghost use Rattle.address_space.specs.Limits.{fram_first, fram_words, reset_vector};
ghost use Rattle.image_text.specs.ImageValue.{zeros};
ghost use Rattle.machine_effects.specs.Machine.{IsFram, fram_of};
ghost use Rattle.source_values.specs.Runs.{initial_words};
ghost use Rattle.memory_map.specs.MemoryMap.{word_place};
ghost use Rattle.memory_map.specs.declared.words.RuntimeWord.TheVariants.{CurrentTask};
ghost use Rattle.memory_map.specs.Places.{end_of, home_region, AreInOrder};
ghost use Rattle.compiled_model.specs.View.{is_within, shared_word};
ghost use Rattle.source_maps.specs.Placing.{IsOfKind, ArePlacesOf};
ghost use Rattle.link_image.specs.Initial.{initial_put};
ghost use Rattle.image_laws.specs.Words.{AreWords, with_handler};

use address_space::EVENT_VECTOR;
use event_handler::handler_words;
use event_places::HANDLER;
use image_text::Image;
use memory_map::{Layout, RESET_VECTOR, RuntimeWord, VariablePlace};
use task_ast::{Extent, SharedDeclaration};

// Puts a word at an even address of the FRAM.
fn put_word(image: &mut Image, at: u16, word: u16)
    requires even { at % 2 ≡ 0 }
    requires low { fram_first ≤ at }
    ensures each { (a : ℕ) → IsFram a → fram_of image.new.words a ≡ (if a == at then word else fram_of image.old.words a) }
    ensures are_words { AreWords image.old.words → AreWords image.new.words }
    ensures same_map { image.new.map ≡ image.old.map }
{
    // An image has 24,064 words.
    let _ = image.words();
    image.set(at, word);
}

// Puts the initial words of a shared scalar. The words of arrays begin with 0.
fn put_initial(image: &mut Image, extent: Extent, place: VariablePlace)
    requires kind { IsOfKind extent place }
    requires even { (home_region place).address % 2 ≡ 0 }
    requires low { fram_first ≤ (home_region place).address }
    requires high { end_of (home_region place) ≤ reset_vector }
    ensures each { (a : ℕ) → IsFram a → fram_of image.new.words a ≡ initial_put extent place a (fram_of image.old.words a) }
    ensures are_words { AreWords image.old.words → AreWords image.new.words }
    ensures same_map { image.new.map ≡ image.old.map }
{
    match (extent, place) {
        (Extent::Scalar(word), VariablePlace::Scalar { home, .. }) => put_word(image, home, word),
        (Extent::Long(number), VariablePlace::Scalar { home, .. }) => {
            put_word(image, home, (number % 65536) as u16);
            put_word(image, home + 2, (number / 65536) as u16);
        }
        _ => (),
    }
}

// Puts the initial words of each shared scalar into an image without words.
fn put_scalars(image: &mut Image, shared: &[SharedDeclaration], variables: &[VariablePlace])
    requires blank { image.old.words ≡ zeros fram_words }
    requires places { ArePlacesOf shared.now variables.now }
    requires order { AreInOrder fram_first (map home_region variables.now) reset_vector }
    ensures each { (a : ℕ) → IsFram a → fram_of image.new.words a ≡ shared_word variables.now (map (λ d. initial_words d.extent) shared.now) a }
    ensures are_words { AreWords image.old.words → AreWords image.new.words }
    ensures same_map { image.new.map ≡ image.old.map }
{
    for i in (0..shared.len()).rev() {
        put_initial(image, shared[i].extent, variables[i]);
    }
}

// Puts words one behind another from an address on.
fn put_words(image: &mut Image, at: u16, words: &[u16])
    requires even { at % 2 ≡ 0 }
    requires low { fram_first ≤ at }
    requires room { at + 2 * length words.now ≤ 65536 }
    ensures each { (a : ℕ) → IsFram a → fram_of image.new.words a
        ≡ (if is_within (record { address = at; words = length words.now }) a then slice_index words.now ((a - at) / 2) else fram_of image.old.words a) }
    ensures are_words { AreWords image.old.words → AreWords image.new.words }
    ensures same_map { image.new.map ≡ image.old.map }
{
    for i in 0..words.len() {
        put_word(image, at + 2 * i as u16, words[i]);
    }
}

// Puts the handler, to which the vector of interrupts leads, where the source takes events.
fn put_handler(image: &mut Image, events: bool)
    ensures each { (a : ℕ) → IsFram a → fram_of image.new.words a ≡ with_handler events a (fram_of image.old.words a) }
    ensures are_words { AreWords image.old.words → AreWords image.new.words }
    ensures same_map { image.new.map ≡ image.old.map }
{
    if events {
        put_words(image, HANDLER, &handler_words());
        put_word(image, EVENT_VECTOR, HANDLER);
    }
}

/// Puts the words of a source's image, of which these are the words of the code.
pub fn put_image(
    image: &mut Image,
    shared: &[SharedDeclaration],
    entry: u16,
    layout: &Layout,
    code: &[u16],
)
    requires blank { image.old.words ≡ zeros fram_words }
    requires places { ArePlacesOf shared.now layout.now.variables }
    requires room { layout.now.boot.address + 2 * length code.now ≤ reset_vector }
    ensures each { (a : ℕ) → IsFram a → fram_of image.new.words a ≡ (if a == reset_vector then layout.now.boot.address
        else with_handler layout.now.runtime.events a (
        if is_within (record { address = layout.now.boot.address; words = length code.now }) a
        then slice_index code.now ((a - layout.now.boot.address) / 2)
        else if a == word_place layout.now CurrentTask then entry
        else shared_word layout.now.variables (map (λ d. initial_words d.extent) shared.now) a)) }
    ensures are_words { AreWords image.old.words → AreWords image.new.words }
    ensures same_map { image.new.map ≡ image.old.map }
{
    layout.rules();
    put_scalars(image, shared, layout.variables());
    put_word(image, layout.word_place(RuntimeWord::CurrentTask), entry);
    put_words(image, layout.boot().address, code);
    put_handler(image, layout.runtime().events);
    put_word(image, RESET_VECTOR, layout.boot().address);
}
