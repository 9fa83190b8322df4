//! Texts and the tokens that they come to.
use alp_text::Span;
use std::alloc::Global;
use task_lex::{Kind, LexFault, Token, lex, line_at};

fn lexed(alloc: Global, source: &[u8]) -> Result<Vec<Token>, LexFault> {
    if source.len() < 4294967295 {
        lex(alloc, source)
    } else {
        Err(LexFault::Memory)
    }
}

fn kinds_of(alloc: Global, source: &[u8]) -> Result<Vec<Kind>, LexFault> {
    let mut kinds = Vec::new(alloc);
    for token in lexed(alloc, source)?.iter() {
        kinds.push(token.kind)?;
    }
    Ok(kinds)
}

#[test]
fn takes_the_longest_of_the_marks(rt: HostRuntime) {
    for (source, want) in [
        ("<<=", [Kind::ShiftLeft, Kind::Assign]),
        ("<=>", [Kind::LessEqual, Kind::Greater]),
        (">>=", [Kind::ShiftRight, Kind::Assign]),
        ("===", [Kind::Equal, Kind::Assign]),
        ("!==", [Kind::NotEqual, Kind::Assign]),
        ("&&&", [Kind::AndAnd, Kind::Ampersand]),
        ("|||", [Kind::OrOr, Kind::Bar]),
        ("+++", [Kind::PlusPlus, Kind::Plus]),
        ("--", [Kind::Minus, Kind::Minus]),
        ("task tasks", [Kind::Task, Kind::Name]),
        ("0x1F sense//x", [Kind::Number, Kind::Sense]),
        ("_if if", [Kind::Name, Kind::If]),
        ("next_event next_events", [Kind::NextEvent, Kind::Name]),
    ] {
        let kinds = kinds_of(rt.alloc(), source.as_bytes());
        assert!(rt;
            kinds.is_ok_and(|k| k.as_slice() == want.as_slice()),
            "at {source}"
        );
    }
}

#[test]
fn tells_where_tokens_stand_and_what_numbers_are_worth(rt: HostRuntime) -> Result<(), LexFault> {
    let tokens = lexed(rt.alloc(), b"ab //\r(\n 0x00010=65535")?;
    let want = [
        (Kind::Name, 0, 2, 0),
        (Kind::Number, 9, 16, 16),
        (Kind::Assign, 16, 17, 0),
        (Kind::Number, 17, 22, 65535),
    ];
    assert_eq!(rt; tokens.len(), want.len());
    for (token, (kind, from, to, value)) in tokens.iter().zip(want) {
        assert!(rt; token.kind == kind && token.span == Span { from, to } && token.value == value);
    }
    Ok(())
}

#[test]
fn counts_the_line_feeds_before_a_place(rt: HostRuntime) {
    let text = b"a\r\nb\n";
    for (at, line) in [(0, 1), (2, 1), (3, 2), (4, 2), (5, 3)] {
        assert_eq!(rt; line_at(text, at), line, "at {at}");
    }
}
