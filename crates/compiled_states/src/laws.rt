//! Laws of the states of images of accepted sources. The functions do nothing: their contracts are the laws.

ghost use Rattle.compiled_states.specs.Laws.{FreshStatesBelong, ImagesSuitTheirSources, MigratedStatesBelong, StatesAreTold};
ghost use Rattle.compiled_states.specs.Laws.{StatesAreWorlds, StatesGoOn, StatesStay, WorldsAreStates};

/// A state that belongs to the image of an accepted source, by the image's map and words alone, is one of the source's worlds: the code is the
/// image's, the counts keep to the capacities, and it is at rest, or its pending commit can be made.
pub fn states_are_worlds()
    ensures { StatesAreWorlds }
{}

/// And each such world, with the image's map and its words from the code on, is a state that belongs to the image.
pub fn worlds_are_states()
    ensures { WorldsAreStates }
{}

/// The fresh image of an accepted source is a state that belongs to it.
pub fn fresh_states_belong()
    ensures { FreshStatesBelong }
{}

/// Each run from a state that belongs to such an image keeps the laws of runs that go on, and what is saved of each of its boards is a state
/// that belongs to the image.
pub fn states_go_on()
    ensures { StatesGoOn }
{}

/// On any trace the report of the run from a state that belongs to an image is told by the image's source: from the state on, or behind the
/// transition of its pending commit.
pub fn states_are_told()
    ensures { StatesAreTold }
{}

/// What is saved of each board of such a run, and at its end, belongs to the image.
pub fn states_stay()
    ensures { StatesStay }
{}

/// The image of an accepted source that uses no events has the lines that the source gives, so that a migration takes the two together.
pub fn images_suit_their_sources()
    ensures { ImagesSuitTheirSources }
{}

/// What a migration makes of a state belongs to the new image, where that is one of an accepted source, and rests at the state of this source
/// that has the kept words, its own initial ones where none are kept, and the task of the old current task's name.
pub fn migrated_states_belong()
    ensures { MigratedStatesBelong }
{}
