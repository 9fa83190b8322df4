//! Lists of values with commas between.
ghost use Rattle.std.specs.Prelude.{◌≡◌, ◌<◌, if◌then◌else◌, Some, None, option_map};
ghost use Rattle.asm_line.specs.Pieces.{parts, rest_parts, left_len};
ghost use Rattle.asm_line.specs.Lines.{word_value, values_of, with_value, are_values};
ghost use Rattle.asm_line.specs.Views.{located};
ghost use Rattle.asm_line.specs.ValueViews.{meaning_of};

use crate::cuts::{cut_at, only_word};
use crate::piece::Piece;
use crate::statements::WordList;
use crate::values::{Value, value_of};

/// The value that is the one word of a piece.
pub fn word_value(piece: Piece<'_>) -> Option<Value<'_>>
    ensures { option_map meaning_of result ≡ word_value (located piece.entry) }
{
    value_of(only_word(piece)?)
}

/// The values that a piece lists; nothing where one of them is none.
pub fn word_list(list: Piece<'_>) -> Option<WordList<'_>>
    ensures { option_map (λ w. located w.list) result
        ≡ (if are_values (parts 44 (located list.entry)) then Some (located list.entry) else None) }
{
    let mut count = 0;
    let mut left = Some(list);
    while let Some(rest) = left {
        let (first, behind) = cut_at(b',', rest);
        let Some(_) = word_value(first) else {
            return None;
        };
        count += 1;
        left = behind;
    }
    Some(WordList { list, count })
}

/// The first value of a list, and what stands behind its comma, if there is one; nothing where the first piece is no value.
pub fn next_value(list: Piece<'_>) -> (Option<Value<'_>>, Option<Piece<'_>>)
    ensures values { values_of (parts 44 (located list.entry))
        ≡ with_value (option_map meaning_of result.0) (values_of (rest_parts 44 (option_map located result.1))) }
    ensures shorter { left_len (option_map located result.1) < left_len (Some (located list.entry)) }
{
    let (first, behind) = cut_at(b',', list);
    (word_value(first), behind)
}
