//! Laws of the parser's answers and of its calls.

ghost use Rattle.task_grammar.specs.Nesting.{NestingIsBounded};
ghost use Rattle.task_grammar.specs.Stops.{OneAnswer};

/// Tokens are a program, of one tree, or stop being the beginning of one, and not both; and they stop at one place.
pub fn one_answer()
    ensures { OneAnswer }
{}

/// Wherever the parser stands in bounded tokens, those in front of it nest no deeper than 64 brackets, and no more than
/// 256 of them come before the next `;`, `{` or `}`. This bounds the measures of its calls, and so how deep they nest.
pub fn bounded_nesting()
    ensures { NestingIsBounded }
{}
