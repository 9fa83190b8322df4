//! The front of a list of tokens.

ghost use Rattle.std.specs.Prelude.{◌≡◌, ◌≤◌, ◌<◌, length, drop, IfOk};
ghost use Rattle.task_grammar.specs.Grammar as grammar;
ghost use Rattle.task_grammar.specs.Reading as spec;
ghost use Rattle.task_grammar.specs.Gives.{Gives};
ghost use Rattle.task_grammar.specs.Nesting.{nesting, nesting_by, row_length, row_by};

use crate::fault::Stop;
use alp_text::Span;
use task_lex::{Kind, Token};

/// The kind of the next token, unless the text ends.
pub fn kind_of(tokens: &[Token]) -> Option<Kind>
    ensures { result ≡ spec.kind_of tokens.now }
{
    match tokens.first() {
        Some(token) => Some(token.kind),
        None => None,
    }
}

/// The place of the next token.
pub fn place_of(tokens: &[Token]) -> Span
    ensures { result ≡ spec.place_of tokens.now }
{
    match tokens.first() {
        Some(token) => token.span,
        None => Span { from: 0, to: 0 },
    }
}

/// What a long number is worth.
pub fn long_worth(number: Token) -> u32
    ensures { result ≡ grammar.long_worth number }
{
    u32::from(number.value) + 65536 * u32::from(number.high)
}

/// The tokens behind the next.
pub fn after(tokens: &[Token]) -> &[Token]
    ensures { result.now ≡ drop 1 tokens.now }
{
    if tokens.is_empty() {
        return tokens;
    }
    &tokens[1..]
}

/// A token of the kind, and the tokens behind it.
#[tactic(auto, unfolding(crate::specs::Reading::token, crate::specs::Reading::same_kind))]
pub fn take<'a>(kind: Kind, tokens: &'a [Token]) -> Result<(Token, &'a [Token]), Stop<'a>>
    ensures value { Gives (λ x. spec.done x.0 x.1.now) (spec.token kind tokens.now) result }
    ensures shorter { IfOk result (λ x. length x.1.now < length tokens.now) }
    ensures nests { IfOk result (λ x. nesting tokens.now ≡ nesting_by kind (nesting x.1.now)) }
    ensures row { IfOk result (λ x. row_length tokens.now ≡ row_by kind (row_length x.1.now)) }
{
    match tokens.split_first() {
        Some((token, rest)) => {
            if token.kind == kind {
                Ok((*token, rest))
            } else {
                Err(Stop::Syntax(tokens))
            }
        }
        None => Err(Stop::Syntax(tokens)),
    }
}
