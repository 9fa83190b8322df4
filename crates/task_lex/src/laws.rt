//! Laws of the definitions: what they come to in the language's own words.

ghost use Rattle.std.specs.Prelude.{◌≡◌, ◌<◌, ℕ, List, length};
ghost use Rattle.task_lex.specs.declared.token.Token.{Token};
ghost use Rattle.task_lex.specs.Lex.{lexed, tokens};
ghost use Rattle.task_lex.specs.Slices.{AreGaps};
ghost use Rattle.task_lex.specs.Lexemes.{IsLongest};
ghost use Rattle.task_lex.specs.Pieces.{piece_of};
ghost use Rattle.task_lex.specs.Numerals.{NumeralRows};

/// The piece that the lexer takes at a place is a lexeme of its class, and no longer one stands there; where the byte
/// is bad, none stands there.
pub fn longest_match()
    ensures { (text : List ℕ) → 0 < length text → IsLongest text (piece_of text) }
{}

/// What numerals are worth, and which are none.
pub fn numerals()
    ensures { NumeralRows }
{}

/// In front of the tokens that a text comes to, between them and behind the last one stand blanks and comments alone.
pub fn only_blanks_between()
    ensures { (source : List ℕ) (found : List Token) → lexed source ≡ tokens found → AreGaps source 0 found }
{}
