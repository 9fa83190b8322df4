//! The FRAM as it was at the last done.
ghost use Rattle.std.specs.Prelude.{◌≡◌, ℕ, ◌+◌, ◌*◌, ◌<◌, ◌≤◌, true, false, List, [], All, IfOk, length, replicate, slice_index_or, slice_set};
ghost use Rattle.image_text.specs.address_space.Limits.{IsFramWord, fram_first, fram_words, place_of};
ghost use Rattle.board_run.specs.History.{word_in, number_at};
ghost use Rattle.board_run.specs.Shadow.{HasLengths, IsMarked, IsShadow, IsWritten, IsStored, AreRest, Covers, CoversBut};

use crate::numbers::long_of;
use arrayvec::ArrayVec;
use fram_board::Board;
use image_text::address_space::{FRAM_FIRST, FRAM_WORDS, fram_index};
use std::alloc::{AllocError, Global};
use std::marker::Model;

// The words of a block, and of a region; how many of them the FRAM has.
const BLOCK: usize = 32;

const REGION: usize = 1024;

const BLOCKS: usize = 752;

const REGIONS: usize = 24;

/// The words of the FRAM as they were at the last done, with marks on all that were written since. A block of words and a
/// region of blocks are marked with each of theirs, so that what isn't marked is passed over as a whole. The first places that
/// are marked are listed too, so that a done behind few writes looks at no others.
#[derive(Drop)]
pub struct Shadow {
    words: Vec<u16>,
    marks: Vec<bool>,
    blocks: Vec<bool>,
    regions: Vec<bool>,
    places: ArrayVec<u16, 64>,
    // Whether a place that is marked may be missing in the list.
    full: bool,
    // Whether all were marked.
    all: bool,
}

impl Model for Shadow {
    ghost use Rattle.board_run.specs.Shadow.{ShadowValue, IsShadow};

    ghost Value = { ShadowValue };

    ghost view = { λ s. record {
      words = s.words.items;
      marks = s.marks.items;
      blocks = s.blocks.items;
      regions = s.regions.items;
      places = s.places.items;
      full = s.full;
    } };

    ghost invariant = { λ s. IsShadow (record {
      words = s.words.items;
      marks = s.marks.items;
      blocks = s.blocks.items;
      regions = s.regions.items;
      places = s.places.items;
      full = s.full;
    }) };
}

// So many marks, none of them set.
fn no_marks(alloc: Global, count: usize) -> Result<Vec<bool>, AllocError>
    ensures count { IfOk result (λ v. length v.items ≡ count) }
    ensures none { IfOk result (λ v. (i : ℕ) → slice_index_or v.items i false ≡ true → ⊥) }
{
    vec![in alloc; false; count]
}

// Sets all marks, or clears all.
fn set_all(marks: &mut Vec<bool>, is_marked: bool)
    ensures { marks.new.items ≡ replicate (length marks.old.items) is_marked }
{
    marks.fill(is_marked);
}

// Clears all marks.
fn clear(marks: &mut Vec<bool>)
    ensures count { length marks.new.items ≡ length marks.old.items }
    ensures none { (i : ℕ) → slice_index_or marks.new.items i false ≡ true → ⊥ }
{
    set_all(marks, false);
}

// The words at these places, which are those that differ or are marked, become those of the FRAM, and lose their marks.
fn follow_places(
    words: &mut Vec<u16>,
    marks: &mut Vec<bool>,
    blocks: &mut Vec<bool>,
    regions: &mut Vec<bool>,
    places: &[u16],
    fram: &[u16],
)
    requires lengths { HasLengths words.old.items marks.old.items blocks.old.items regions.old.items }
    requires inside { All (λ p. p < fram_words) places.now }
    requires fram { length fram.now ≡ fram_words }
    requires rest { AreRest words.old.items marks.old.items fram.now places.now }
    ensures lengths { HasLengths words.new.items marks.new.items blocks.new.items regions.new.items }
    ensures rest { AreRest words.new.items marks.new.items fram.now [] }
{
    for listed in places {
        let place = usize::from(*listed);
        words[place] = fram[place];
        marks[place] = false;
        blocks[place / BLOCK] = false;
        regions[place / REGION] = false;
    }
}

impl Shadow {
    /// A shadow of these words, none of them marked. Fails where memory is refused.
    pub fn of(alloc: Global, words: &[u16]) -> Result<Shadow, AllocError>
        requires { length words.now ≡ fram_words }
        ensures { IfOk result (λ s. s.words ≡ words.now) }
    {
        Ok(Shadow {
            words: words.to_vec(alloc)?,
            marks: no_marks(alloc, FRAM_WORDS)?,
            blocks: no_marks(alloc, BLOCKS)?,
            regions: no_marks(alloc, REGIONS)?,
            places: ArrayVec::new(),
            full: false,
            all: false,
        })
    }

    /// The word at an address of the FRAM, as it was.
    pub fn word(&self, address: u16) -> u16
        requires { fram_first ≤ address }
        ensures { result ≡ word_in self.now.words address }
    {
        self.words[fram_index(address)]
    }

    /// The number at an address of the FRAM, as it was.
    pub fn number(&self, address: u16, is_long: bool) -> u32
        requires low { IsFramWord address }
        requires high { is_long ≡ true → IsFramWord (address + 2) }
        ensures { result ≡ number_at (word_in self.now.words) address is_long }
    {
        let low = self.word(address);
        if is_long {
            long_of(low, self.word(address + 2))
        } else {
            low as u32
        }
    }

    // Whether the word at a place is marked.
    #[inline(always)]
    fn is_marked(&self, place: usize) -> bool
        requires { place < fram_words }
        ensures marked { result ≡ true → IsMarked self.now place }
        ensures unmarked { result ≡ false → IsMarked self.now place → ⊥ }
    {
        self.marks[place]
    }

    // Marks the word at a place where it isn't marked yet.
    fn add(&mut self, place: usize)
        requires { place < fram_words }
        ensures words { self.new.words ≡ self.old.words }
        ensures marked { IsMarked self.new place }
        ensures others { (i : ℕ) → IsMarked self.old i → IsMarked self.new i }
    {
        self.marks[place] = true;
        self.blocks[place / BLOCK] = true;
        self.regions[place / REGION] = true;
        if self.places.is_full() {
            self.full = true;
        } else {
            self.places.push(place as u16);
        }
    }

    /// Marks the word at an address of the FRAM.
    #[inline(always)]
    fn mark(&mut self, address: u16)
        requires { fram_first ≤ address }
        ensures words { self.new.words ≡ self.old.words }
        ensures marked { IsMarked self.new (place_of address) }
        ensures others { (i : ℕ) → IsMarked self.old i → IsMarked self.new i }
    {
        let place = fram_index(address);
        if !self.is_marked(place) {
            self.add(place);
        }
    }

    /// Marks the words that a step wrote at two addresses, if they stand in the FRAM; answers whether one does.
    #[inline(always)]
    pub fn note_writes(&mut self, stores: (Option<u16>, Option<u16>)) -> bool
        ensures words { self.new.words ≡ self.old.words }
        ensures covers { (fram : List ℕ) → CoversBut stores self.old fram → Covers self.new fram }
        ensures elsewhere { result ≡ false → (i : ℕ) → IsStored stores i → ⊥ }
    {
        let first = self.note_write(stores.0);
        let second = self.note_write(stores.1);
        first || second
    }

    // Marks the word at an address that a step wrote, if it stands in the FRAM; answers whether it does.
    #[inline(always)]
    fn note_write(&mut self, wrote: Option<u16>) -> bool
        ensures words { self.new.words ≡ self.old.words }
        ensures marked { (i : ℕ) → IsWritten wrote i → IsMarked self.new i }
        ensures others { (i : ℕ) → IsMarked self.old i → IsMarked self.new i }
        ensures in_fram { result ≡ true → (i : ℕ) × IsWritten wrote i }
        ensures elsewhere { result ≡ false → (i : ℕ) → IsWritten wrote i → ⊥ }
    {
        // No word of the FRAM stands at 0.
        let address = wrote.unwrap_or(0);
        if address < FRAM_FIRST {
            return false;
        }
        self.mark(address);
        true
    }

    /// Marks all words.
    pub fn mark_all(&mut self)
        ensures words { self.new.words ≡ self.old.words }
        ensures covers { (fram : List ℕ) → Covers self.new fram }
    {
        set_all(&mut self.marks, true);
        set_all(&mut self.blocks, true);
        set_all(&mut self.regions, true);
        self.full = true;
        self.all = true;
    }

    // A place behind this one before which none is marked; this one exactly where it is marked itself.
    #[inline(always)]
    fn behind(&self, place: usize) -> usize
        requires { place < fram_words }
        ensures later { place ≤ result }
        ensures here { result ≡ place → IsMarked self.now place }
        ensures none { (i : ℕ) → place ≤ i → i < result → IsMarked self.now i → ⊥ }
    {
        if self.is_marked(place) {
            place
        } else if !self.regions[place / REGION] {
            (place / REGION + 1) * REGION
        } else if !self.blocks[place / BLOCK] {
            (place / BLOCK + 1) * BLOCK
        } else {
            place + 1
        }
    }

    /// The first place from one on that is marked, if it comes before the end; else one from the end on.
    fn next(&self, from: usize, end: usize) -> usize
        requires { end ≤ fram_words }
        ensures later { from ≤ result }
        ensures here { result < end → IsMarked self.now result }
        ensures none { (i : ℕ) → from ≤ i → i < result → IsMarked self.now i → ⊥ }
    {
        let mut place = from;
        while place < end {
            let behind = self.behind(place);
            if behind == place {
                return place;
            }
            place = behind;
        }
        place
    }

    /// The first index from one on at which the word of an array is marked; its length, where none is.
    pub fn next_index(&self, address: u16, from: u16, length: u16) -> u16
        requires low { fram_first ≤ address }
        requires high { address + 2 * length ≤ 0x10000 }
        requires inside { from ≤ length }
        ensures later { from ≤ result }
        ensures end { result ≤ length }
        ensures here { result < length → IsMarked self.now (place_of address + result) }
        ensures none { (i : ℕ) → from ≤ i → i < result → IsMarked self.now (place_of address + i) → ⊥ }
    {
        let first = fram_index(address);
        let end = first + usize::from(length);
        let place = self.next(first + usize::from(from), end);
        (place.min(end) - first) as u16
    }

    // It has a place for each word of the FRAM.
    fn whole(&self)
        ensures { IsShadow self.now }
    {
        let _ = &self.words;
    }

    // The word at a place becomes this one, and loses its mark.
    fn put(&mut self, place: usize, word: u16)
        requires { place < fram_words }
        ensures { self.new ≡ record self.old {
          words = slice_set self.old.words place word;
          marks = slice_set self.old.marks place false;
        } }
    {
        self.words[place] = word;
        self.marks[place] = false;
    }

    // The words that are marked become those of the FRAM, and lose their marks.
    fn follow_marked(&mut self, board: &Board)
        requires { Covers self.old board.now.fram }
        ensures words { self.new.words ≡ board.now.fram }
        ensures none { (i : ℕ) → IsMarked self.new i → ⊥ }
    {
        let fram = board.fram();
        self.whole();
        let mut place = self.next(0, FRAM_WORDS);
        while place < FRAM_WORDS {
            self.put(place, fram[place]);
            place = self.next(place + 1, FRAM_WORDS);
        }
    }

    // No block, no region and no place in the list is left of marks that are gone.
    fn forget(&mut self)
        requires { (i : ℕ) → IsMarked self.old i → ⊥ }
        ensures { self.new.words ≡ self.old.words }
    {
        set_all(&mut self.blocks, false);
        set_all(&mut self.regions, false);
        self.places.clear();
        self.full = false;
    }

    // The words that are listed become those of the FRAM, and no mark is left.
    fn follow_listed(&mut self, board: &Board)
        requires covers { Covers self.old board.now.fram }
        requires listed { self.old.full ≡ false }
        ensures { self.new.words ≡ board.now.fram }
    {
        follow_places(
            &mut self.words,
            &mut self.marks,
            &mut self.blocks,
            &mut self.regions,
            self.places.as_slice(),
            board.fram(),
        );
        self.places.clear();
    }

    // All words become those of the FRAM, and no mark is left.
    fn follow_all(&mut self, board: &Board)
        ensures { self.new.words ≡ board.now.fram }
    {
        self.whole();
        self.words.copy_from_slice(board.fram());
        clear(&mut self.marks);
        self.forget();
        self.all = false;
    }

    /// The words become those of the FRAM, and no mark is left.
    pub fn settle(&mut self, board: &Board)
        requires { Covers self.old board.now.fram }
        ensures { self.new.words ≡ board.now.fram }
    {
        if self.all {
            self.follow_all(board);
        } else if self.full {
            self.follow_marked(board);
            self.forget();
        } else {
            self.follow_listed(board);
        }
    }
}
