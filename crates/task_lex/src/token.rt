//! The tokens of the language.

use alp_text::Span;

/// What a token is. A mark or keyword has one spelling.
#[derive(Clone, Copy, Debug, PartialEq, Eq)]
pub enum Kind {
    Name,
    Number,
    /// A number with the suffix `UL`.
    LongNumber,
    Shared,
    Unsigned,
    Int,
    Long,
    Task,
    Entry,
    If,
    Else,
    For,
    Sense,
    Emit,
    Return,
    TransitionTo,
    NextEvent,
    Open,
    Close,
    OpenSquare,
    CloseSquare,
    OpenBrace,
    CloseBrace,
    Semicolon,
    Comma,
    Assign,
    Plus,
    Minus,
    Star,
    Slash,
    Percent,
    Ampersand,
    Bar,
    Caret,
    Tilde,
    Bang,
    ShiftLeft,
    ShiftRight,
    Less,
    LessEqual,
    Greater,
    GreaterEqual,
    Equal,
    NotEqual,
    AndAnd,
    OrOr,
    PlusPlus,
}

/// A token, with its place in the text.
#[derive(Clone, Copy, Debug, PartialEq, Eq)]
pub struct Token {
    pub kind: Kind,
    pub span: Span,
    /// What a number is worth, of a long number the low word; 0 where the token is none.
    pub value: u16,
    /// The high word of a long number; 0 where the token is none.
    pub high: u16,
}
