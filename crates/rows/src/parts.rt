//! The file of rows, cut into parts: a line that says what comes, and the text behind it.
use hex::decode_to_slice;
use std::alloc::{AllocError, Global};

/// A line that says what comes, and the text behind it.
#[derive(Drop)]
pub struct Part<'a> {
    /// The number of the line, from 1.
    pub line: usize,
    pub head: &'a str,
    pub text: Vec<u8>,
}

// A line of a text, which comes so often.
#[derive(Clone, Copy)]
struct TextLine<'a> {
    text: &'a str,
    times: u64,
    is_ended: bool,
}

// `| TEXT` ends with a line feed; `- TEXT` and `N * TEXT`, which comes N times, don't.
fn text_line(line: &str) -> Option<TextLine<'_>> {
    if let Some(text) = line.strip_prefix("|") {
        return Some(TextLine {
            text: text.strip_prefix(" ").unwrap_or(text),
            times: 1,
            is_ended: true,
        });
    }
    let (mark, text) = line.split_once(" ")?;
    if mark == "-" {
        return Some(TextLine {
            text,
            times: 1,
            is_ended: false,
        });
    }
    let text = text.strip_prefix("* ")?;
    Some(TextLine {
        text,
        times: mark.parse::<u64>().ok()?,
        is_ended: false,
    })
}

fn push_number(alloc: Global, number: u64, into: &mut Vec<u8>) -> Result<(), AllocError> {
    into.extend_from_slice(format!(in alloc; "{number}")?.as_bytes())
}

// The byte of two hexadecimal digits, and 0 where they are none.
fn byte_of(digits: [u8; 2]) -> u8 {
    let mut byte = [0u8];
    match decode_to_slice(digits, &mut byte) {
        Ok(()) => byte[0],
        Err(_) => 0,
    }
}

// In a text `\#` is the number of the turn, counted from 1, `\@` the same from 0, and `\HH` the byte of two hexadecimal digits.
fn push_said(alloc: Global, text: &[u8], turn: u64, into: &mut Vec<u8>) -> Result<(), AllocError> {
    let mut rest = text;
    while let [first, behind @ ..] = rest {
        rest = behind;
        match (*first, behind) {
            (b'\\', [b'#', behind @ ..]) => {
                push_number(alloc, turn.saturating_add(1), into)?;
                rest = behind;
            }
            (b'\\', [b'@', behind @ ..]) => {
                push_number(alloc, turn, into)?;
                rest = behind;
            }
            (b'\\', [high, low, behind @ ..]) => {
                into.push(byte_of([*high, *low]))?;
                rest = behind;
            }
            (byte, _) => into.push(byte)?,
        }
    }
    Ok(())
}

// `N TEXT`, a text that comes N times, with turns of its own.
fn push_group(alloc: Global, group: &str, into: &mut Vec<u8>) -> Result<(), AllocError> {
    let (times, text) = group.split_once(" ").unwrap_or(("", group));
    for turn in 0..times.parse::<u64>().unwrap_or(0) {
        push_said(alloc, text.as_bytes(), turn, into)?;
    }
    Ok(())
}

// In a text `\(N TEXT\)` is a group. A text has fewer groups than bytes.
fn push_text(alloc: Global, text: &str, turn: u64, into: &mut Vec<u8>) -> Result<(), AllocError> {
    let mut rest = text;
    for _ in 0..text.len() {
        let Some((front, behind)) = rest.split_once("\\(") else {
            break;
        };
        push_said(alloc, front.as_bytes(), turn, into)?;
        let (group, behind) = behind.split_once("\\)").unwrap_or((behind, ""));
        push_group(alloc, group, into)?;
        rest = behind;
    }
    push_said(alloc, rest.as_bytes(), turn, into)
}

fn push_line(alloc: Global, line: TextLine<'_>, into: &mut Vec<u8>) -> Result<(), AllocError> {
    for turn in 0..line.times {
        push_text(alloc, line.text, turn, into)?;
    }
    if line.is_ended {
        into.push(b'\n')?;
    }
    Ok(())
}

// A text in front of the first part is no part's.
fn push_to_last(
    alloc: Global,
    line: TextLine<'_>,
    parts: &mut Vec<Part<'_>>,
) -> Result<(), AllocError> {
    match parts.last_mut() {
        Some(part) => push_line(alloc, line, &mut part.text),
        None => Ok(()),
    }
}

/// The parts of the file, in order. Empty lines and those that begin with `#` say nothing.
pub fn parts_of(alloc: Global, rows: &str) -> Result<Vec<Part<'_>>, AllocError> {
    let mut parts = Vec::new(alloc);
    for (index, head) in rows.lines().enumerate() {
        if head.is_empty() || head.starts_with("#") {
            continue;
        }
        match text_line(head) {
            Some(line) => push_to_last(alloc, line, &mut parts)?,
            None => parts.push(Part {
                line: index + 1,
                head,
                text: Vec::new(alloc),
            })?,
        }
    }
    Ok(parts)
}
