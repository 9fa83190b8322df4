//! The type of states.

use image_text::Image;

/// What lasts of a board between two charges.
#[derive(Drop)]
pub struct State {
    /// The words of the FRAM, and what is said of them, if it is.
    pub image: Image,
    /// The number of the word that the receiver takes next.
    pub receiver: u16,
}
