//! A run's report beside the source's meaning: the lines of each transition are those that `mean` has for it on the readings that
//! the run committed, in order.
use crate::program::means;
use std::alloc::Global;
use std::test::Fail;

/// Field n of a line, from 0.
pub fn field(line: &[u8], n: usize) -> Option<&[u8]> {
    let text = str::from_utf8(line).ok()?;
    let found = text.split_whitespace().nth(n)?;
    Some(found.as_bytes())
}

/// The number that is field n of a line.
pub fn number_in(line: &[u8], n: usize) -> Option<u64> {
    let text = str::from_utf8(field(line, n)?).ok()?;
    text.parse::<u64>().ok()
}

/// The readings of a line of a transition: from which position up to and without which.
pub fn span(line: &[u8]) -> Option<(u64, u64)> {
    if field(line, 0)? != b"t".as_slice() {
        return None;
    }
    Some((number_in(line, 4)?, number_in(line, 5)?))
}

/// The lines of a text.
pub fn lines_of(alloc: Global, text: &[u8]) -> Result<Vec<&[u8]>, Fail> {
    let mut lines = Vec::new(alloc);
    for line in str::from_utf8(text)?.lines() {
        lines.push(line.as_bytes())?;
    }
    Ok(lines)
}

/// Adds the readings that a line's transition took, if it is one of a transition, to those of a trace.
pub fn push_readings(
    alloc: Global,
    trace: &mut Vec<u8>,
    line: &[u8],
    readings: &[u16],
) -> Result<(), Fail> {
    if let Some((from, to)) = span(line) {
        for i in from..to {
            if let Some(reading) = readings.get(i as usize) {
                trace.extend_from_slice(format!(in alloc; " {reading}")?.as_bytes())?;
            }
        }
    }
    Ok(())
}

/// Adds those of these lines' transitions.
pub fn push_committed(
    alloc: Global,
    trace: &mut Vec<u8>,
    lines: &[&[u8]],
    readings: &[u16],
) -> Result<(), Fail> {
    for line in lines {
        push_readings(alloc, trace, line, readings)?;
    }
    Ok(())
}

// A trace of the readings that these lines' transitions took.
fn committed(alloc: Global, lines: &[&[u8]], readings: &[u16]) -> Result<Vec<u8>, Fail> {
    let mut trace = b"r".to_vec(alloc)?;
    push_committed(alloc, &mut trace, lines, readings)?;
    trace.push(b'\n')?;
    Ok(trace)
}

// Whether a transition behind so many others has this number.
fn same_number(line: &[u8], meant: &[u8], before: u64) -> bool {
    match (number_in(line, 1), number_in(meant, 1)) {
        (Some(number), Some(all)) => number.checked_add(before) == Some(all),
        _ => false,
    }
}

/// Whether two lines say the same: of transitions, behind so many others, the same number and tasks, and as many readings.
pub fn same_line(line: &[u8], meant: &[u8], before: u64) -> bool {
    match (span(line), span(meant)) {
        (Some((from, to)), Some((a, b))) => {
            to.checked_sub(from) == b.checked_sub(a)
                && same_number(line, meant, before)
                && field(line, 2) == field(meant, 2)
                && field(line, 3) == field(meant, 3)
        }
        (None, None) => line == meant,
        _ => false,
    }
}

/// Whether a report of a run, from its bound to its end, is the source's on the readings that its transitions took, and these lie in
/// order and apart.
pub fn is_meant(
    alloc: Global,
    source: &str,
    report: &[u8],
    readings: &[u16],
) -> Result<bool, Fail> {
    let lines = lines_of(alloc, report)?;
    let meaning = means(alloc, source, &committed(alloc, &lines, readings)?)?;
    let meant = lines_of(alloc, &meaning.out)?;
    let mut last = 0;
    let inner = lines.len().saturating_sub(2);
    for (line, wanted) in lines.iter().skip(1).take(inner).zip(meant.iter()) {
        if !same_line(line, wanted, 0) {
            return Ok(false);
        }
        if let Some((from, to)) = span(line) {
            if from < last {
                return Ok(false);
            }
            last = to;
        }
    }
    Ok(lines.len() >= 2 && meant.len() > inner)
}

/// How many transitions a report tells of.
pub fn transitions(alloc: Global, report: &[u8]) -> Result<usize, Fail> {
    let lines = lines_of(alloc, report)?;
    Ok(lines.iter().filter(|line| span(line).is_some()).count())
}
