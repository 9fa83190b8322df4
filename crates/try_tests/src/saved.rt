//! States that are saved behind each of the first steps of a run, and resumed: both reports together, beside what a board that isn't cut tells of
//! the readings that were committed.
use crate::meaning::{field, lines_of, number_in, push_committed, push_readings, same_line, span};
use crate::program::{Answer, run, trace};
use crate::sources::{SAVED, Source};
use std::alloc::Global;
use std::process::Abort;
use std::test::Fail;

/// One charge, long enough for all readings.
const LONG: &str = "c 1000000 0\n";

/// The readings of the run that goes on.
const LATER: [u16; 3] = [2, 65535, 40];

// The lines of a report between its bound and its end.
fn told(alloc: Global, report: &[u8]) -> Result<Vec<&[u8]>, Fail> {
    let lines = lines_of(alloc, report)?;
    let inner = lines.len().saturating_sub(2);
    let mut told = Vec::new(alloc);
    for line in lines.iter().skip(1).take(inner) {
        told.push(*line)?;
    }
    Ok(told)
}

fn is_of_kind(line: &[u8], kind: &[u8]) -> bool {
    field(line, 0) == Some(kind)
}

// How many of these lines are of a kind.
fn count(lines: &[&[u8]], kind: &[u8]) -> usize {
    lines.iter().filter(|line| is_of_kind(line, kind)).count()
}

// How many lines the first transition has.
fn first_transition(lines: &[&[u8]]) -> usize {
    let mut n: usize = 0;
    for line in lines {
        if n > 0 && span(line).is_some() {
            return n;
        }
        n = n.saturating_add(1);
    }
    n
}

// Whether the first transition took no reading; of a source each of whose tasks takes one, this is a commit that was pending.
fn begins_pending(lines: &[&[u8]]) -> bool {
    match lines.first() {
        Some(line) => match span(line) {
            Some((from, to)) => from == to,
            None => false,
        },
        None => false,
    }
}

// Whether the words of a commit that was pending are those of a transition without so many at their front.
fn sends_the_rest(lines: &[&[u8]], wanted: &[&[u8]], sent: usize) -> bool {
    let words = lines.iter().filter(|line| is_of_kind(line, b"o"));
    let mut all = wanted
        .iter()
        .filter(|line| is_of_kind(line, b"o"))
        .skip(sent);
    for word in words {
        if all.next() != Some(word) {
            return false;
        }
    }
    all.next().is_none()
}

// Whether its changes are some of those of a transition, in order.
fn changes_some(lines: &[&[u8]], wanted: &[&[u8]]) -> bool {
    let mut all = wanted.iter().filter(|line| is_of_kind(line, b"v"));
    for line in lines {
        if is_of_kind(line, b"v") && !all.any(|other| other == line) {
            return false;
        }
    }
    true
}

// Whether a pending commit's task is that of a transition, or the next one, where the commit has stored this already.
fn is_task_of(line: &[u8], other: &[u8]) -> bool {
    field(line, 2) == field(other, 2) || field(line, 2) == field(other, 3)
}

// Whether these are the lines of a commit that was pending, whose transition is told so, and so many of whose words were accepted before.
fn finishes(lines: &[&[u8]], wanted: &[&[u8]], sent: usize) -> bool {
    let (Some(line), Some(other)) = (lines.first(), wanted.first()) else {
        return false;
    };
    is_task_of(line, other)
        && field(line, 3) == field(other, 3)
        && sends_the_rest(lines, wanted, sent)
        && changes_some(lines, wanted)
}

// Whether lines behind so many transitions are told so.
fn are_same(lines: &[&[u8]], wanted: &[&[u8]], before: usize) -> bool {
    for (line, other) in lines.iter().zip(wanted.iter()) {
        if !same_line(line, other, before as u64) {
            return false;
        }
    }
    lines.len() == wanted.len()
}

// Whether the lines of a run, whose receiver accepted so many words, and of the one that goes on from what was saved of it are together these.
fn are_together(first: &[&[u8]], sent: usize, later: &[&[u8]], whole: &[&[u8]]) -> bool {
    let before = count(first, b"t");
    let ahead = sent.saturating_sub(count(first, b"o"));
    let (front, behind) = whole.split_at(first.len().min(whole.len()));
    if !are_same(first, front, 0) {
        return false;
    }
    if !begins_pending(later) {
        return ahead == 0 && are_same(later, behind, before);
    }
    let (pending, more) = later.split_at(first_transition(later).min(later.len()));
    let (wanted, rest) = behind.split_at(first_transition(behind).min(behind.len()));
    finishes(pending, wanted, ahead) && are_same(more, rest, before)
}

// A trace of one charge, with the readings that both runs committed. What a commit that was pending took, the first run tells where it isn't cut:
// its report is the first report and more.
fn committed(
    alloc: Global,
    source: &Source,
    first: &[&[u8]],
    later: &[&[u8]],
    uncut: &[&[u8]],
) -> Result<Vec<u8>, Fail> {
    let mut text = format!(in alloc; "{LONG}r")?.as_bytes().to_vec(alloc)?;
    push_committed(alloc, &mut text, first, source.readings)?;
    if begins_pending(later) {
        if let Some(line) = uncut.get(first.len()) {
            push_readings(alloc, &mut text, line, source.readings)?;
        }
    }
    push_committed(alloc, &mut text, later, &LATER)?;
    text.push(b'\n')?;
    Ok(text)
}

// The run of an image on a trace.
fn runs(alloc: Global, image: &[u8], trace: &[u8]) -> Result<Answer, Fail> {
    run(alloc, &["run", "i", "t"], &[("i", image), ("t", trace)])
}

// What is saved at its end.
fn saves(alloc: Global, image: &[u8], trace: &[u8]) -> Result<Answer, Fail> {
    run(
        alloc,
        &["save", "i", "t", "s"],
        &[("i", image), ("t", trace)],
    )
}

// The run that goes on from a state.
fn resumes(alloc: Global, image: &[u8], state: &[u8], trace: &[u8]) -> Result<Answer, Fail> {
    run(
        alloc,
        &["resume", "i", "s", "t"],
        &[("i", image), ("s", state), ("t", trace)],
    )
}

// A run that is cut, and what was saved at its end.
#[derive(Drop)]
struct Cut {
    first: Answer,
    saved: Answer,
}

// The run of an image that is cut behind so many steps.
fn cut_behind(alloc: Global, source: &Source, image: &[u8], steps: u32) -> Result<Cut, Fail> {
    let fill = if steps % 2 == 0 { 0 } else { 65535 };
    let charge = format!(in alloc; "s {steps} {fill}\n")?;
    let cut = trace(alloc, &charge, source.readings)?;
    let first = runs(alloc, image, cut.as_bytes())?;
    let saved = saves(alloc, image, cut.as_bytes())?;
    Ok(Cut { first, saved })
}

// The run that goes on from a state, on other readings.
fn later_run(alloc: Global, image: &[u8], state: &[u8]) -> Result<Answer, Fail> {
    let more = trace(alloc, LONG, &LATER)?;
    resumes(alloc, image, state, more.as_bytes())
}

// The run of a board that isn't cut, on the readings that both runs committed.
fn runs_whole(
    alloc: Global,
    source: &Source,
    image: &[u8],
    parts: (&[&[u8]], &[&[u8]]),
    uncut: &[&[u8]],
) -> Result<Answer, Fail> {
    let readings = committed(alloc, source, parts.0, parts.1, uncut)?;
    runs(alloc, image, &readings)
}

// Behind so many steps: what is saved is resumed, and both reports together are what a board that isn't cut tells. Whether a commit was pending.
fn goes_on(
    rt: &impl Abort,
    alloc: Global,
    source: &Source,
    image: &[u8],
    uncut: &[&[u8]],
    steps: u32,
) -> Result<bool, Fail> {
    let cut = cut_behind(alloc, source, image, steps)?;
    let later = later_run(alloc, image, &cut.saved.last)?;
    let front = told(alloc, &cut.first.out)?;
    let behind = told(alloc, &later.out)?;
    let whole = runs_whole(alloc, source, image, (&front, &behind), uncut)?;
    let wanted = told(alloc, &whole.out)?;
    let sent = number_in(&cut.saved.out, 3).unwrap_or(0) as usize;
    assert_eq!(rt; cut.saved.status.code(), 0);
    assert_eq!(rt; later.status.code(), 0);
    assert!(rt; are_together(&front, sent, &behind, &wanted));
    Ok(begins_pending(&behind))
}

// Behind each of the first 400 steps, of which some leave a commit pending.
fn keeps_saved(rt: &impl Abort, alloc: Global, source: &Source) -> Result<(), Fail> {
    let built = run(
        alloc,
        &["build", "s", "i"],
        &[("s", source.text.as_bytes())],
    )?;
    let long = runs(
        alloc,
        &built.last,
        trace(alloc, LONG, source.readings)?.as_bytes(),
    )?;
    let uncut = told(alloc, &long.out)?;
    let mut pending: u32 = 0;
    for steps in 0..=400 {
        if goes_on(rt, alloc, source, &built.last, &uncut, steps)? {
            pending = pending.saturating_add(1);
        }
    }
    assert!(rt; pending > 0 && pending < 400);
    Ok(())
}

// A test each, as each has a minute.
#[test]
fn arrays_saved_after_each_of_400_steps(rt: HostRuntime) -> Result<(), Fail> {
    keeps_saved(&rt, rt.alloc(), &SAVED[0])
}

#[test]
fn scalars_in_place_saved_after_each_of_400_steps(rt: HostRuntime) -> Result<(), Fail> {
    keeps_saved(&rt, rt.alloc(), &SAVED[1])
}

#[test]
fn neighbours_and_sends_saved_after_each_of_400_steps(rt: HostRuntime) -> Result<(), Fail> {
    keeps_saved(&rt, rt.alloc(), &SAVED[2])
}

#[test]
fn longs_saved_after_each_of_400_steps(rt: HostRuntime) -> Result<(), Fail> {
    keeps_saved(&rt, rt.alloc(), &SAVED[3])
}
