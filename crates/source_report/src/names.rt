//! Names of a source, cut out of its text.

ghost use Rattle.std.specs.Prelude.{◌≡◌, min};
ghost use Rattle.source_report.specs.SourceReport.{spelled};

use alp_text::Span;

fn lesser(a: usize, b: usize) -> usize
    ensures { result ≡ min a b }
{
    if a < b { a } else { b }
}

/// The piece of a text that a span says; what lies behind the text's end is left out.
pub fn spelled(text: &[u8], span: Span) -> &[u8]
    ensures { result.now ≡ spelled text.now span }
{
    let to = lesser(span.to, text.len());
    let from = lesser(span.from, to);
    &text[from..to]
}
