//! The words that a map doesn't name.
ghost use Rattle.std.specs.Prelude.{◌≡◌, length};
ghost use Rattle.image_text.specs.address_space.Limits.{fram_first, fram_words};
ghost use Rattle.fram_state.specs.OtherImage.{first_other};

use crate::named::named_until;
use image_text::Map;
use image_text::address_space::FRAM_FIRST;

/// The first address that the map doesn't name and at which the words of an image and of a state differ, if there is one.
#[tactic(auto, using(crate::proofs::Others::word_by_word))]
pub fn first_other(map: &Map, image: &[u16], state: &[u16]) -> Option<u16>
    requires image { length image.now ≡ fram_words }
    requires state { length state.now ≡ fram_words }
    ensures { result ≡ first_other map.now image.now state.now fram_first }
{
    let mut named = 0;
    for i in 0..image.len() {
        let address = FRAM_FIRST as u64 + 2 * i as u64;
        if address >= named && image[i] != state[i] {
            match named_until(map, address) {
                None => return Some(address as u16),
                Some(end) => named = end,
            }
        }
    }
    None
}
