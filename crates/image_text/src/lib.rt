//! Images of the FRAM, as TI-TXT texts and as values.
#![tactic(auto)]

mod builder;
mod fault;
mod image;
mod line;
mod parse;
mod print;

pub use fault::ImageFault;
pub use image::Image;
pub use image_map::{
    Map, Name, Place, RingPlaces, RuntimeWords, Task, Variable, address_space, is_fram_word,
};
pub use parse::{ImageFront, parse_image, read_front};
pub use print::{cut_section, print_image};
