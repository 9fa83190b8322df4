//! Laws of the definitions, as contracts of functions that do nothing: what is printed reads back, and lines lose nothing of a text.
ghost use Rattle.std.specs.Prelude.{◌≡◌, ◌∷◌, ◌++◌, codes, decimal, IsTrue, Ok};
ghost use Rattle.alp_text.specs.Laws.{SpellingRows};
ghost use Rattle.alp_text.specs.Lines.{LinesMakeUp};
ghost use Rattle.alp_text.specs.Numbers.{number_of, numeral, is_numeral, hex4};

/// A number that was printed in decimal reads back as itself.
pub fn printed_u64(v: u64)
    ensures { number_of (decimal v) ≡ Ok v }
{}

/// A word that was printed in hexadecimal reads back as itself behind `0x`.
pub fn printed_hex4(w: u16)
    ensures { number_of (codes "0x" ++ hex4 w) ≡ Ok w }
{}

/// A leading zero changes no numeral, in decimal or in hexadecimal digits.
pub fn leading_zero(digits: &[u8])
    ensures decimal { IsTrue (is_numeral 10 digits.now) → numeral 10 (48 ∷ digits.now) ≡ numeral 10 digits.now }
    ensures hexadecimal { IsTrue (is_numeral 16 digits.now) → numeral 16 (48 ∷ digits.now) ≡ numeral 16 digits.now }
{}

/// Numbers and texts that are none, row by row.
#[tactic(auto, unfolding(crate::specs::Numbers::digit_of, crate::specs::Numbers::hex4))]
pub fn spellings()
    ensures { SpellingRows }
{}

/// The lines of a text with their line feeds are the text, but that its last line may lack its line feed.
pub fn lines_make_up_text(text: &[u8])
    ensures { LinesMakeUp text.now }
{}
