//! The type of images.
ghost use Rattle.std.specs.Prelude.{◌≡◌, ◌<◌, ◌≤◌, ◌%◌, length, IfOk, Some, None, option_map, slice_set};
ghost use Rattle.image_map.specs.address_space.Limits.{fram_first, fram_words};
ghost use Rattle.image_text.specs.ImageValue.{word_at, place_of, zeros, HasTask};

use image_map::address_space::{FRAM_WORDS, fram_index};
use image_map::{Map, is_fram_word};
use std::alloc::{AllocError, Global};
use std::marker::Model;

/// Every word of the FRAM, 0x4400 to 0xFFFF, and what is said of them, if it is.
#[derive(Drop)]
pub struct Image {
    words: Vec<u16>,
    map: Option<Map>,
}

impl Model for Image {
    ghost use Rattle.std.specs.Prelude.{◌≡◌, length};
    ghost use Rattle.image_map.specs.address_space.Limits.{fram_words};
    ghost use Rattle.image_text.specs.ImageValue.{ImageValue, HasTask};

    ghost Value = { ImageValue };

    ghost view = { λ a. record { words = a.words.items; map = a.map } };

    ghost invariant = { λ a. (length a.words.items ≡ fram_words) × HasTask a.map };
}

// A vector of so many zeros.
#[tactic(auto, unfolding(crate::specs::ImageValue::zeros))]
fn zeros(alloc: Global, n: usize) -> Result<Vec<u16>, AllocError>
    ensures value { IfOk result (λ v. v.items ≡ zeros n) }
    ensures len { IfOk result (λ v. length v.items ≡ n) }
{
    vec![in alloc; 0; n]
}

impl Image {
    /// The image of 24,064 words, the first at 0x4400, without a map.
    pub fn of(words: Vec<u16>) -> Image
        requires { length words.items ≡ fram_words }
        ensures { result ≡ record { words = words.items; map = None } }
    {
        Image { words, map: None }
    }

    /// All words 0, and no map.
    pub fn blank(alloc: Global) -> Result<Image, AllocError>
        ensures { IfOk result (λ image. image ≡ record { words = zeros fram_words; map = None }) }
    {
        let words = zeros(alloc, FRAM_WORDS)?;
        Ok(Image { words, map: None })
    }

    /// All words, the first at 0x4400.
    pub fn words(&self) -> &[u16]
        ensures value { result.now ≡ self.now.words }
        ensures len { length result.now ≡ fram_words }
    {
        self.words.as_slice()
    }

    /// The word at an even address of the FRAM; nothing at another address.
    pub fn word(&self, address: u16) -> Option<u16>
        ensures { result ≡ word_at self.now.words address }
    {
        if is_fram_word(address) {
            Some(self.words[fram_index(address)])
        } else {
            None
        }
    }

    /// Puts a word at an even address of the FRAM, and leaves the others.
    pub fn set(&mut self, address: u16, w: u16)
        requires low { fram_first ≤ address }
        requires even { address % 2 ≡ 0 }
        ensures { self.new ≡ record self.old { words = slice_set self.old.words (place_of address) w } }
    {
        self.words[fram_index(address)] = w;
    }

    /// Puts all words, the first at 0x4400.
    pub fn set_words(&mut self, words: &[u16])
        requires { length words.now ≡ fram_words }
        ensures { self.new ≡ record self.old { words = words.now } }
    {
        self.words.copy_from_slice(words);
    }

    /// The map, if the image has one.
    pub fn map(&self) -> Option<&Map>
        ensures value { option_map (λ m. m.now) result ≡ self.now.map }
        ensures task { HasTask self.now.map }
    {
        self.map.as_ref()
    }

    /// The image with this map in place of its own.
    pub fn with_map(self, map: Map) -> Image
        requires { 0 < length map.tasks }
        ensures { result ≡ record self { map = Some map } }
    {
        let Image { words, map: _ } = self;
        Image {
            words,
            map: Some(map),
        }
    }
}
