//! Editions of a program: a source, and a FRAM with its map.

use image_text::Map;
use task_ast::CheckedSource;

/// An edition of a program.
#[derive(Clone, Copy)]
pub struct Edition<'a> {
    /// The text of the source.
    pub text: &'a [u8],
    /// What the text says.
    pub source: &'a CheckedSource,
    /// The map of the image.
    pub map: &'a Map,
    /// The words of the FRAM.
    pub words: &'a [u16],
}
