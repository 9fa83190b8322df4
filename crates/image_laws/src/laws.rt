//! Laws of the images of accepted sources. The functions do nothing: their contracts are the laws.

ghost use Rattle.image_laws.specs.Laws.{ImagesAreFresh, ImagesAreOne, ImagesHaveStates, MapsFindStates};

use privatise::{one_layout, one_logged_layout};
use source_meaning::one_program;
use war_analysis::one_plan;

/// Of an accepted source's image the code stands from the boot's address on, which is the reset vector, and has room there; before
/// anything was done its world rests at the source's first state.
pub fn images_are_fresh()
    ensures { ImagesAreFresh }
{}

/// An accepted text has one image for each runtime.
pub fn images_are_one()
    ensures { ImagesAreOne }
{
    one_program();
    one_plan();
    one_layout();
    one_logged_layout();
}

/// Where a world rests at a state of the source, the image's map finds the state's words in it.
pub fn maps_find_states()
    ensures { MapsFindStates }
{}

/// Each world of words has a state, which the map finds; the world rests at it, or its pending commit leaves the one that it has then.
pub fn images_have_states()
    ensures { ImagesHaveStates }
{}
