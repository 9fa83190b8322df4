//! The first of two places.

ghost use Rattle.std.specs.Prelude.{◌≡◌};
ghost use Rattle.path_checks.specs.Firsts.{first_of};

use alp_text::Span;

/// The place that begins first, of those that are there.
pub fn first_of(a: Option<Span>, b: Option<Span>) -> Option<Span>
    ensures { result ≡ first_of a b }
{
    match (a, b) {
        (None, other) => other,
        (Some(p), None) => Some(p),
        (Some(p), Some(q)) => Some(if p.from <= q.from { p } else { q }),
    }
}
