//! Entries of the commit list.

/// A run of words that a commit copies: so many words from a home on become those from a copy on.
#[derive(Clone, Copy)]
pub struct Entry {
    pub home: u16,
    pub copy: u16,
    pub words: u16,
}
