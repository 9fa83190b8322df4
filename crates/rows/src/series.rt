//! Calls that differ in one text alone.
use anyhow::Result;
use std::alloc::{AllocError, Global};

/// What the calls of a series share.
#[derive(Drop)]
pub struct Series {
    /// The name under which each text is put.
    pub name: String,
    /// The words of each call.
    pub words: String,
    // What stands in front of each text.
    front: Vec<u8>,
}

impl Series {
    /// No series.
    pub fn none(alloc: Global) -> Series {
        Series {
            name: String::new(alloc),
            words: String::new(alloc),
            front: Vec::new(alloc),
        }
    }

    /// The series that `NAME WORD ..` says, with this in front of each text.
    pub fn of(alloc: Global, said: &str, front: &[u8]) -> Result<Series> {
        let (name, words) = said.split_once(" ").unwrap_or((said, ""));
        Ok(Series {
            name: String::from_str(alloc, name)?,
            words: String::from_str(alloc, words)?,
            front: front.to_vec(alloc)?,
        })
    }

    /// A text of the series, behind what stands in front of it.
    pub fn text(&self, alloc: Global, text: &[u8]) -> Result<Vec<u8>, AllocError> {
        let mut whole = self.front.to_vec(alloc)?;
        whole.extend_from_slice(text)?;
        Ok(whole)
    }
}
