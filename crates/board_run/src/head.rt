//! The word HEAD of a board, where a map has a ring of events.
ghost use Rattle.std.specs.Prelude.{◌≡◌, None, IfSome, option_map};
ghost use Rattle.image_text.specs.image_map.MapValue.{IsFramWord};
ghost use Rattle.board_run.specs.Events.{head_of};
ghost use Rattle.board_run.specs.Tally.{IsHead, WatchesHead, change_if, seen_ends};

use crate::state::word;
use fram_board::Board;
use image_text::Map;

/// Where HEAD stands, and the word that it was when it was looked at last.
#[derive(Clone, Copy)]
pub struct Head {
    pub place: Option<u16>,
    pub word: u16,
}

// The address of HEAD, if there is a map and it has a ring.
fn head_place(map: Option<&Map>) -> Option<u16>
    ensures value { result ≡ head_of (option_map (λ m. m.now) map.entry) }
    ensures fits { IfSome result IsFramWord }
{
    let Some(map) = map else {
        return None;
    };
    map.rules();
    match map.ring() {
        Some(ring) => Some(ring.head),
        None => None,
    }
}

impl Head {
    /// No HEAD is looked at.
    pub fn none() -> Head
        ensures { result.place ≡ None }
    {
        Head {
            place: None,
            word: 0,
        }
    }

    /// HEAD of this map, as it is on this board.
    pub fn of(map: Option<&Map>, board: &Board) -> Head
        ensures { WatchesHead (option_map (λ m. m.now) map.entry) result.place result.word board.now.fram }
    {
        match head_place(map) {
            Some(place) => Head {
                place: Some(place),
                word: word(board, place),
            },
            None => Head::none(),
        }
    }

    /// Whether it isn't what it was; it is looked at.
    #[inline(always)]
    pub fn look(&mut self, board: &Board) -> bool
        requires { IfSome self.old.place IsFramWord }
        ensures changed { change_if result ≡ seen_ends self.old.place self.old.word board.now.fram }
        ensures place { self.new.place ≡ self.old.place }
        ensures word { IsHead self.new.place self.new.word board.now.fram }
    {
        let Some(place) = self.place else {
            return false;
        };
        let now = word(board, place);
        let has_changed = now != self.word;
        self.word = now;
        has_changed
    }
}
