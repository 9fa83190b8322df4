//! How pieces of a text are cut.
ghost use Rattle.std.specs.Prelude.{◌≡◌, ◌≤◌, ◌<◌, ◌+◌, ◌^◌, ◌==◌, not, length, option_map, Some, ◌∷◌};
ghost use Rattle.text_parts.specs.Lengths.{len_before};
ghost use Rattle.text_parts.specs.Fields.{is_blank};
ghost use Rattle.asm_line.specs.Pieces.{mark_at, behind, front, before_mark, behind_mark, without_blanks, word, behind_word, word_alone, only_word, parts};
ghost use Rattle.asm_line.specs.Pieces.{rest_parts, left_len, bare, lines_left};
ghost use Rattle.asm_line.specs.Views.{located};

use crate::piece::Piece;
use text_parts::{is_blank, is_blank_line};

fn len_before(mark: u8, bytes: &[u8]) -> usize
    ensures value { result ≡ mark_at mark bytes.now }
    ensures within { result ≤ length bytes.now }
{
    for (i, b) in bytes.iter().enumerate() {
        if *b == mark {
            return i;
        }
    }
    bytes.len()
}

fn blank_len(bytes: &[u8]) -> usize
    ensures value { result ≡ len_before (λ b. not (is_blank b)) bytes.now }
    ensures within { result ≤ length bytes.now }
{
    for (i, b) in bytes.iter().enumerate() {
        if !is_blank(*b) {
            return i;
        }
    }
    bytes.len()
}

fn word_len(bytes: &[u8]) -> usize
    ensures value { result ≡ len_before is_blank bytes.now }
    ensures within { result ≤ length bytes.now }
{
    for (i, b) in bytes.iter().enumerate() {
        if is_blank(*b) {
            return i;
        }
    }
    bytes.len()
}

/// What stands behind the first `n` bytes.
#[tactic(auto, using(std::proofs::lemmas::List::take_rest))]
pub fn behind(piece: Piece<'_>, n: usize) -> Piece<'_>
    requires { n ≤ length piece.text.now }
    ensures { located result ≡ behind n (located piece.entry) }
{
    Piece {
        text: &piece.text[n..],
        at: piece.at + n,
    }
}

fn front(piece: Piece<'_>, n: usize) -> Piece<'_>
    requires { n ≤ length piece.text.now }
    ensures { located result ≡ front n (located piece.entry) }
{
    Piece {
        text: &piece.text[..n],
        at: piece.at,
    }
}

/// What stands before the first mark, and what behind it, if there is one.
#[tactic(auto, unfolding(crate::specs::Pieces::before_mark, crate::specs::Pieces::behind_mark))]
pub fn cut_at(mark: u8, piece: Piece<'_>) -> (Piece<'_>, Option<Piece<'_>>)
    ensures before { located result.0 ≡ before_mark mark (located piece.entry) }
    ensures behind { option_map located result.1 ≡ behind_mark mark (located piece.entry) }
{
    let len = len_before(mark, piece.text);
    if len < piece.text.len() {
        (front(piece, len), Some(behind(piece, len + 1)))
    } else {
        (front(piece, len), None)
    }
}

/// A piece without the blanks in front of it.
#[tactic(auto, unfolding(crate::specs::Pieces::without_blanks))]
pub fn without_blanks(piece: Piece<'_>) -> Piece<'_>
    ensures { located result ≡ without_blanks (located piece.entry) }
{
    behind(piece, blank_len(piece.text))
}

/// A piece up to its first blank, and what stands from there on.
#[tactic(auto, unfolding(crate::specs::Pieces::word, crate::specs::Pieces::behind_word))]
pub fn cut_word(piece: Piece<'_>) -> (Piece<'_>, Piece<'_>)
    ensures word { located result.0 ≡ word (located piece.entry) }
    ensures behind { located result.1 ≡ behind_word (located piece.entry) }
{
    let len = word_len(piece.text);
    (front(piece, len), behind(piece, len))
}

/// The one word of a piece that has blanks alone beside it; it may be empty.
#[tactic(auto, unfolding(crate::specs::Pieces::only_word))]
pub fn only_word(piece: Piece<'_>) -> Option<Piece<'_>>
    ensures { option_map located result ≡ only_word (located piece.entry) }
{
    let (word, rest) = cut_word(without_blanks(piece));
    if is_blank_line(rest.text) {
        Some(word)
    } else {
        None
    }
}

/// A line without one carriage return at its end.
#[tactic(auto, using(text_parts::proofs::Interface::return_last, text_parts::proofs::Interface::other_last, text_parts::proofs::Interface::return_none))]
fn bare(line: Piece<'_>) -> Piece<'_>
    ensures { located result ≡ bare (located line.entry) }
{
    let len = line.text.len();
    if len > 0 && line.text[len - 1] == b'\r' {
        Piece {
            text: &line.text[..len - 1],
            at: line.at,
        }
    } else {
        line
    }
}

/// The first line of a text, without its end, and what stands behind it, if a line feed ends it.
pub fn cut_line(text: Piece<'_>) -> (Piece<'_>, Option<Piece<'_>>)
    ensures lines { lines_left (Some (located text.entry)) ≡ located result.0 ∷ lines_left (option_map located result.1) }
    ensures shorter { left_len (option_map located result.1) < left_len (Some (located text.entry)) }
{
    let (line, rest) = cut_at(b'\n', text);
    (bare(line), rest)
}
