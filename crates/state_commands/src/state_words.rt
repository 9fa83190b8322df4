//! What the types of states and maps say of them.
ghost use Rattle.std.specs.Prelude.{◌<◌, ◌^◌, All, IfSome};
ghost use Rattle.plain_commands.specs.state_text.image_map.Kept.{IsMap};
ghost use Rattle.state_commands.specs.Saved.{IsOfWords};

use plain_commands::texts::State;

// Words are below 65536.
fn are_words(words: &[u16])
    ensures { All (λ w. w < 2 ^ 16) words.now }
{}

/// A state has the words of the FRAM.
pub fn is_of_words(state: &State)
    ensures { IsOfWords state.now }
{
    are_words(state.image.words());
    let _receiver = state.receiver;
}

/// The map of a state, if it has one, keeps the rules of maps.
pub fn has_ruled_map(state: &State)
    ensures { IfSome state.now.image.map IsMap }
{
    if let Some(map) = state.image.map() {
        map.rules();
    }
}
