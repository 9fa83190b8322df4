//! Whether a source asks for events, and where first.
ghost use Rattle.std.specs.Prelude.{◌≡◌, ◌<◌, ◌^◌, ◌-◌, All, length, IfOk, IfNone, IfSome};
ghost use Rattle.task_lex.specs.Lex.{lexed, tokens};
ghost use Rattle.task_lex.specs.Spans.{InOrder};
ghost use Rattle.source_meaning.specs.Events.{FirstEvent, HasEvent, HasNoEvent, IsFirstEvent, NoEvent, is_event_kind};

use crate::passes::Accepted;
use std::alloc::{AllocError, Global};
use task_lex::{Kind, Token, lex, line_at};

fn is_event(kind: Kind) -> bool
    ensures { result ≡ is_event_kind kind }
{
    match kind {
        Kind::NextEvent => true,
        _ => false,
    }
}

// The place of the first `next_event` among the tokens.
fn first_among(tokens: &[Token]) -> Option<usize>
    ensures none { IfNone result (All NoEvent tokens.now) }
    ensures some { IfSome result (IsFirstEvent tokens.now) }
{
    for i in 0..tokens.len() {
        if is_event(tokens[i].kind) {
            return Some(i);
        }
    }
    None
}

// The line of the token at a place, which is the first `next_event` of the text.
fn line_of_first(text: &[u8], words: &[Token], at: usize) -> u32
    requires short { length text.now < 2 ^ 32 - 1 }
    requires lexes { lexed text.now ≡ tokens words.now }
    requires order { InOrder 0 (length text.now) words.now }
    requires first { IsFirstEvent words.now at }
    ensures { HasEvent text.now result }
{
    line_at(text, words[at].span.from)
}

// The line of the first `next_event` of a text without a flaw among its tokens; or it has none.
fn first_in(text: &[u8], words: &[Token]) -> Option<u32>
    requires short { length text.now < 2 ^ 32 - 1 }
    requires lexes { lexed text.now ≡ tokens words.now }
    requires order { InOrder 0 (length text.now) words.now }
    ensures { FirstEvent text.now result }
{
    let at = first_among(words)?;
    Some(line_of_first(text, words, at))
}

/// The line of the first `next_event` of an accepted source; or it has none.
///
/// # Errors
/// `AllocError` where memory was refused.
pub fn first_event(alloc: Global, accepted: &Accepted) -> Result<Option<u32>, AllocError>
    ensures { IfOk result (FirstEvent accepted.now.text.items) }
{
    let text = accepted.source();
    let Ok(words) = lex(alloc, text) else {
        return Err(AllocError);
    };
    Ok(first_in(text, words.as_slice()))
}
