//! What is told of a refused text.
ghost use Rattle.std.specs.Prelude.{◌≡◌};
ghost use Rattle.command_answers.specs.Refusals.{plain, named};
ghost use Rattle.command_answers.specs.Views.{refusal_of};

use alp_text::Span;
use source_report::spelled;

/// What a fault keeps besides its line.
#[derive(Clone, Copy)]
pub enum Detail<'t> {
    Nothing,
    /// A name of the text, or one that the program gives.
    Name(&'t [u8]),
    /// A count or a number.
    Number(u64),
    /// An address.
    Address(u16),
}

/// Why a text is refused: the line, from 1, or 0 where the fault is of the whole text; the kind; and what is kept.
#[derive(Clone, Copy)]
pub struct Refusal<'t> {
    pub line: u32,
    pub kind: &'static str,
    pub detail: Detail<'t>,
}

/// A refusal that keeps its line and kind alone.
pub fn plain<'t>(line: u32, kind: &'static str) -> Refusal<'t>
    ensures { refusal_of result ≡ plain line kind.now }
{
    Refusal {
        line,
        kind,
        detail: Detail::Nothing,
    }
}

/// A refusal that keeps a name of the text.
pub fn named<'t>(text: &'t [u8], line: u32, kind: &'static str, span: Span) -> Refusal<'t>
    ensures { refusal_of result ≡ named text.now line kind.now span }
{
    Refusal {
        line,
        kind,
        detail: Detail::Name(spelled(text, span)),
    }
}
