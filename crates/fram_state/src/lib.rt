//! Whether a saved state is one of an image, and sound; and what a new edition of its program goes on with.
#![tactic(auto)]

ghost use Rattle.std.specs.Prelude.{◌≡◌, IfOk, IfSome, IfNone};
ghost use Rattle.fram_state.specs.OtherImage.{HaveMap, HaveNoMap};
ghost use Rattle.fram_state.specs.Belongs.{Belongs, IsAnswer, answer_with};
ghost use Rattle.fram_state.specs.Laws.{AreImages};

mod edition;
mod entry;
mod fault;
mod kept;
mod laid;
mod laws;
mod lines;
mod maps;
mod migration;
mod named;
mod other;
mod runtime;
mod sound;
mod stretch;

pub use fault::{Rule, StateFault};
use image_text::{Image, Map};
pub use laws::{
    answers_are_one, belonging_states_are_taken, no_migration_is_refused, other_words_are_first,
};
pub use lines::{SuitFault, suits};
use maps::are_same_maps;
pub use migration::{MigrateFault, migrate};
use other::first_other;
use sound::first_broken;
use state_text::State;

// The map that an image and a state have, if they have the same.
fn shared_map<'a>(image: &'a Image, state: &State) -> Option<&'a Map>
    ensures some { IfSome result (λ m. HaveMap image.now state.now m.now) }
    ensures none { IfNone result (HaveNoMap image.now state.now) }
{
    let map = image.map()?;
    let other = state.image.map()?;
    if are_same_maps(map, other) {
        Some(map)
    } else {
        None
    }
}

// Whether a state of the image's map has its words, where the map names nothing, and is sound.
fn belongs_with(map: &Map, image: &Image, state: &State) -> Result<(), StateFault>
    ensures value { result ≡ answer_with map.now image.now.words state.now }
    ensures images { AreImages image.now.words state.now.image.words }
{
    if let Some(address) = first_other(map, image.words(), state.image.words()) {
        return Err(StateFault::OtherWord { address });
    }
    match first_broken(map, state.image.words(), state.receiver) {
        None => Ok(()),
        Some(rule) => Err(StateFault::Unsound { rule }),
    }
}

/// Whether a board may go on from a state with an image; or what keeps it from that.
///
/// `OtherMap` is the answer where the image has no map or the state another one, or none: a map that says where no copies are isn't one that
/// says nothing of them. Then comes `OtherWord`, with the first address of a word that the map doesn't name and that isn't the image's, and
/// then `Unsound`, with the first rule that the state breaks. It takes no memory.
pub fn belongs(image: &Image, state: &State) -> Result<(), StateFault>
    ensures value { IsAnswer image.now state.now result }
    ensures sound { IfOk result (λ _. Belongs image.now state.now) }
{
    match shared_map(image, state) {
        None => Err(StateFault::OtherMap),
        Some(map) => belongs_with(map, image, state),
    }
}
