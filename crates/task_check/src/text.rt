//! Names as bytes of the text.

ghost use Rattle.std.specs.Prelude.{◌≡◌, ◌≤◌, ◌<◌, ◌^◌, ◌-◌, length};
ghost use Rattle.task_lex.specs.Faults.{line_of};
ghost use Rattle.task_check.specs.Scope as spec;

use alp_text::Span;
use task_lex::line_at;

/// The bytes of a name. A place that goes past the text is cut to it.
pub fn text_of<'a>(source: &'a [u8], span: Span) -> &'a [u8]
    ensures { result.now ≡ spec.text_of source.now span }
{
    let to = span.to.min(source.len());
    let from = span.from.min(to);
    &source[from..to]
}

/// The line of a place, from 1. Past the text's end it is that of its end.
pub fn line_from(source: &[u8], at: usize) -> u32
    requires { length source.now < 2 ^ 32 - 1 }
    ensures { result ≡ line_of source.now at }
{
    line_at(source, at.min(source.len()))
}
