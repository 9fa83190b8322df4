//! Sources that take events: one at each step of a run, at cuts, in a commit that is pending, at every step, more than the ring has room for, and
//! across the end of its indexes. Each report is beside what the events' own words say.
use crate::meaning::{field, lines_of, number_in};
use crate::program::{Answer, run, tries};
use std::alloc::Global;
use std::process::Abort;
use std::test::Fail;

/// Adds the next event to a sum.
const SUM_OF_EVENTS: &str =
    "shared unsigned s; task a { unsigned r = sense(); s = s + next_event(); transition_to(a); } entry a;";

/// Sends the next event.
const SENDS: &str =
    "task a { unsigned r = sense(); unsigned e = next_event(); if (e) { emit(e); } transition_to(a); } entry a;";

/// Sends the next event where the reading is above 9.
const SENDS_LATER: &str =
    "task a { unsigned r = sense(); if (r > 9) { emit(next_event()); } transition_to(a); } entry a;";

// What the run of the sum prints, by the attempt that found the event.
const BY_FIRST: &str =
    "bound 952\nt 1 a a 0 1\nv s 7\nt 2 a a 1 2\nevents 1 1 0\nend readings 2 0 0\n";

const BY_SECOND: &str =
    "bound 952\nt 1 a a 0 1\nt 2 a a 1 2\nv s 7\nevents 1 1 0\nend readings 2 0 0\n";

const BY_NONE: &str = "bound 952\nt 1 a a 0 1\nt 2 a a 1 2\nevents 1 1 0\nend readings 2 0 0\n";

const NEVER: &str = "bound 952\nt 1 a a 0 1\nt 2 a a 1 2\nevents 0 0 0\nend readings 2 0 0\n";

// Which of them a report is, or 4.
fn phase_of(report: &[u8]) -> u32 {
    if report == BY_FIRST.as_bytes() {
        0
    } else if report == BY_SECOND.as_bytes() {
        1
    } else if report == BY_NONE.as_bytes() {
        2
    } else if report == NEVER.as_bytes() {
        3
    } else {
        4
    }
}

// From one step on the second attempt finds it, then none does, and then the run is over.
#[test]
fn an_event_at_each_step(rt: HostRuntime) -> Result<(), Fail> {
    let alloc = rt.alloc();
    let mut phase: u32 = 0;
    for n in 0..=250 {
        let trace = format!(in alloc; "c 1000000 0\nr 1 2\ne {n} 7\n")?;
        let answer = tries(alloc, SUM_OF_EVENTS, &trace)?;
        let now = phase_of(answer.out.as_slice());
        assert_eq!(rt; answer.status.code(), 0);
        assert!(rt; now <= 3 && (now == phase || now == phase.saturating_add(1)));
        phase = now;
    }
    assert_eq!(rt; phase, 3);
    Ok(())
}

// The words that a report's transitions sent.
fn sent(alloc: Global, report: &[u8]) -> Result<Vec<u64>, Fail> {
    let mut words = Vec::new(alloc);
    for line in lines_of(alloc, report)? {
        if field(line, 0) == Some(b"o".as_slice()) {
            words.push(number_in(line, 1).unwrap_or(0))?;
        }
    }
    Ok(words)
}

// How many events a report says arose, were accepted and were lost.
fn counts(alloc: Global, report: &[u8]) -> Result<(u64, u64, u64), Fail> {
    for line in lines_of(alloc, report)? {
        if field(line, 0) == Some(b"events".as_slice()) {
            return Ok((
                number_in(line, 1).unwrap_or(0),
                number_in(line, 2).unwrap_or(0),
                number_in(line, 3).unwrap_or(0),
            ));
        }
    }
    Ok((0, 0, 0))
}

// Whether each word is above the one before: none is there twice, and none before an earlier one.
fn are_ascending(words: &[u64]) -> bool {
    let mut last = 0;
    for word in words {
        if *word <= last {
            return false;
        }
        last = *word;
    }
    true
}

// Of a run whose events are ascending words and whose attempts take all that wait: each accepted one was sent, once and in order.
fn sends_what_it_accepted(
    rt: &impl Abort,
    alloc: Global,
    answer: &Answer,
    arisen: u64,
) -> Result<(), Fail> {
    let words = sent(alloc, &answer.out)?;
    let (all, accepted, lost) = counts(alloc, &answer.out)?;
    assert_eq!(rt; answer.status.code(), 0);
    assert_eq!(rt; all, arisen);
    assert_eq!(rt; words.len() as u64, accepted);
    assert!(rt; are_ascending(&words));
    assert!(rt; accepted <= all && all - accepted == lost);
    Ok(())
}

/// Readings for thirty attempts.
const THIRTY: &str = "r 1 1 1 1 1 1 1 1 1 1 1 1 1 1 1 1 1 1 1 1 1 1 1 1 1 1 1 1 1 1\n";

// Two cuts, with an event before each of them and one behind, also while the commit of a transition that sends is pending.
#[test]
fn events_at_two_cuts(rt: HostRuntime) -> Result<(), Fail> {
    let alloc = rt.alloc();
    for first in (0..=160u32).step_by(5) {
        for second in (0..=160u32).step_by(5) {
            let early = first / 2;
            let between = first.saturating_add(second / 2);
            let late = first.saturating_add(second).saturating_add(20);
            let trace = format!(in alloc;
                "s {first} 0\ns {second} 65535\nc 1000000 0\n{THIRTY}e {early} 3\ne {between} 5\ne {late} 8\n"
            )?;
            sends_what_it_accepted(&rt, alloc, &tries(alloc, SENDS, &trace)?, 3)?;
        }
    }
    Ok(())
}

// One at each step around the cut: what is in hand is lost with the power, and nothing else.
#[test]
fn an_event_at_each_step_and_a_cut(rt: HostRuntime) -> Result<(), Fail> {
    let alloc = rt.alloc();
    for n in 0..=200 {
        let trace = format!(in alloc; "s 100 0\nc 1000000 65535\n{THIRTY}e {n} 3\n")?;
        sends_what_it_accepted(&rt, alloc, &tries(alloc, SENDS, &trace)?, 1)?;
    }
    Ok(())
}

// Whether words are among others, in their order.
fn are_among(words: &[u64], all: &[u64]) -> bool {
    let mut found: usize = 0;
    for word in all {
        if words.get(found) == Some(word) {
            found = found.saturating_add(1);
        }
    }
    found == words.len()
}

// Wherever the power is cut, the words that were accepted are sent as they arose, one attempt each; where none was lost, all of them.
#[test]
fn words_in_the_order_of_their_events(rt: HostRuntime) -> Result<(), Fail> {
    let alloc = rt.alloc();
    let arose: [u64; 5] = [9, 3, 7, 3, 5];
    for cut in (0..=400u32).step_by(3) {
        let trace = format!(in alloc;
            "s {cut} 0\nc 1000000 65535\n{THIRTY}e 20 9\ne 80 3\ne 140 7\ne 200 3\ne 260 5\n"
        )?;
        let answer = tries(alloc, SENDS, &trace)?;
        let words = sent(alloc, &answer.out)?;
        let (all, accepted, lost) = counts(alloc, &answer.out)?;
        assert_eq!(rt; answer.status.code(), 0);
        assert_eq!(rt; all, 5);
        assert_eq!(rt; words.len() as u64, accepted);
        assert!(rt; are_among(&words, &arose) && (lost > 0 || words.len() == 5));
    }
    Ok(())
}

// So many events from a step on, one behind each, with the words from 1 on.
fn storm(alloc: Global, from: u32, count: u32) -> Result<String, Fail> {
    let mut text = String::new(alloc);
    for i in 0..count {
        let step = from.saturating_add(i);
        let word = i.saturating_add(1);
        text.push_str(&format!(in alloc; "e {step} {word}\n")?)?;
    }
    Ok(text)
}

#[test]
fn an_event_behind_every_step(rt: HostRuntime) -> Result<(), Fail> {
    let alloc = rt.alloc();
    let trace = format!(in alloc; "c 1000000 0\n{THIRTY}{}", storm(alloc, 0, 300)?)?;
    sends_what_it_accepted(&rt, alloc, &tries(alloc, SENDS, &trace)?, 300)
}

// 64 wait, and no more: the others are lost. Then they are taken in order.
#[test]
fn a_full_ring(rt: HostRuntime) -> Result<(), Fail> {
    let alloc = rt.alloc();
    let mut trace = String::from_str(alloc, "c 10000000 0\nr")?;
    for i in 0..400 {
        trace.push_str(if i < 200 { " 1" } else { " 10" })?;
    }
    trace.push_str("\n")?;
    let mut step: u32 = 20;
    for word in 1..=100u32 {
        trace.push_str(&format!(in alloc; "e {step} {word}\n")?)?;
        step = step.saturating_add(60);
    }
    let answer = tries(alloc, SENDS_LATER, &trace)?;
    let words = sent(alloc, &answer.out)?;
    let wanted: Vec<u64> = (1..=64).chain((0..136).map(|i| 0)).collect(alloc)?;
    assert_eq!(rt; answer.status.code(), 0);
    assert!(rt; counts(alloc, &answer.out)? == (100, 64, 36));
    assert!(rt; words == wanted);
    Ok(())
}

// A state whose HEAD and TAIL are 65534: three events take them past their end.
#[test]
fn indexes_that_pass_their_end(rt: HostRuntime) -> Result<(), Fail> {
    let alloc = rt.alloc();
    let image = run(alloc, &["build", "s", "i"], &[("s", SENDS.as_bytes())])?.last;
    let text = str::from_utf8(&image)?;
    let with_tail = text.replace(alloc, "@FF20", "@FF18\nFE FF\n@FF20")?;
    let state = with_tail.replace(alloc, "@FFF0", "@FF6E\nFE FF\n@FFF0")?;
    let trace = format!(in alloc; "c 1000000 0\n{THIRTY}e 20 3\ne 90 5\ne 91 6\ne 200 8\n")?;
    let files = [
        ("i", image.as_slice()),
        ("x", state.as_bytes()),
        ("t", trace.as_bytes()),
    ];
    sends_what_it_accepted(
        &rt,
        alloc,
        &run(alloc, &["resume", "i", "x", "t"], &files)?,
        4,
    )
}
