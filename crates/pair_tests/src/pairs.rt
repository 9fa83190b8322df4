//! A sender and a listener under schedules, whole and with cuts.
ghost use Rattle.std.specs.Prelude.{◌<◌, length};

use crate::listings::{LISTENER, LISTENER_MAP, SENDER, SENDER_MAP};
use alp_io::{Failed, MemSink};
use board_run::Watch;
use energy_trace::{Trace, parse_trace};
use fram_board::Board;
use image_text::{Image, parse_image, print_image};
use msp_asm::assemble;
use pair_run::run_pair;
use radio_link::{Air, Schedule, parse_schedule};
use std::alloc::Global;
use std::process::Abort;
use std::test::Fail;

/// The text of an image: an assembler text, with this map.
fn image_text(alloc: Global, listing: &'static str, map: &'static str) -> Result<Vec<u8>, Fail>
    requires listing { length listing.now < 4000000 }
{
    let assembled = assemble(alloc, listing.as_bytes())?;
    let mut text = print_image(alloc, &assembled)?;
    text.extend_from_slice(map.as_bytes())?;
    Ok(text)
}

/// The image of an assembler text, with this map.
fn image_of(
    rt: &impl Abort,
    alloc: Global,
    listing: &'static str,
    map: &'static str,
) -> Result<Image, Fail>
    requires { length listing.now < 4000000 }
{
    let text = image_text(alloc, listing, map)?;
    assert!(rt; text.len() < 4_000_000);
    Ok(parse_image(alloc, text.as_slice())?)
}

/// The images of both programs.
#[derive(Drop)]
struct Images {
    a: Image,
    b: Image,
}

fn both_images(rt: &impl Abort, alloc: Global) -> Result<Images, Fail> {
    let a = image_of(rt, alloc, SENDER, SENDER_MAP)?;
    let b = image_of(rt, alloc, LISTENER, LISTENER_MAP)?;
    Ok(Images { a, b })
}

/// What is said of a pair: the traces of both sides, and the schedule.
#[derive(Clone, Copy)]
struct Case<'t> {
    a: &'t str,
    b: &'t str,
    schedule: &'t str,
}

/// The traces of both sides.
#[derive(Drop)]
struct Traces {
    a: Trace,
    b: Trace,
}

fn both_traces(rt: &impl Abort, alloc: Global, case: Case<'_>) -> Result<Traces, Fail> {
    assert!(rt; case.a.len() < 1000 && case.b.len() < 1000);
    let a = parse_trace(alloc, case.a.as_bytes())?;
    let b = parse_trace(alloc, case.b.as_bytes())?;
    Ok(Traces { a, b })
}

/// What both boards are run under.
#[derive(Drop)]
struct Plan {
    traces: Traces,
    schedule: Schedule,
}

fn plan_of(rt: &impl Abort, alloc: Global, case: Case<'_>) -> Result<Plan, Fail> {
    assert!(rt; case.schedule.len() < 100_000);
    let traces = both_traces(rt, alloc, case)?;
    let schedule = parse_schedule(alloc, case.schedule.as_bytes())?;
    Ok(Plan { traces, schedule })
}

/// Both boards.
#[derive(Drop)]
struct Boards {
    a: Board,
    b: Board,
}

fn both_boards(alloc: Global, images: &Images, traces: &Traces) -> Result<Boards, Fail> {
    let a = Board::new_sender(alloc, &images.a, traces.a.readings())?;
    let b = Board::new_listener(alloc, &images.b, traces.b.readings())?;
    Ok(Boards { a, b })
}

/// What is known of both.
#[derive(Drop)]
struct Watches<'i> {
    a: Watch<'i>,
    b: Watch<'i>,
}

fn both_watches<'i>(alloc: Global, images: &'i Images) -> Result<Watches<'i>, Fail> {
    let a = Watch::new(alloc, &images.a)?;
    let b = Watch::new(alloc, &images.b)?;
    Ok(Watches { a, b })
}

/// The run of both boards, which is written to the sink.
fn run_both(
    rt: &impl Abort,
    boards: &mut Boards,
    watches: &mut Watches<'_>,
    air: &mut Air,
    plan: &Plan,
    sink: &mut MemSink,
) -> Result<(), Failed> {
    assert!(rt; boards.a.accepted() < 1000 && boards.a.repeats() < 1000);
    assert!(rt; boards.b.accepted() < 1000 && boards.b.repeats() < 1000);
    run_pair(
        &mut boards.a,
        &plan.traces.a,
        &mut watches.a,
        &mut boards.b,
        &plan.traces.b,
        &mut watches.b,
        air,
        &plan.schedule,
        sink,
    )
}

/// The report of both boards.
fn written(
    rt: &impl Abort,
    alloc: Global,
    boards: &mut Boards,
    watches: &mut Watches<'_>,
    plan: &Plan,
) -> Result<Vec<u8>, Fail> {
    let mut air = Air::new(alloc)?;
    let mut sink = MemSink::new(alloc, 100_000, Vec::new(alloc))?;
    run_both(rt, boards, watches, &mut air, plan, &mut sink)?;
    Ok(sink.bytes().to_vec(alloc)?)
}

/// The report of the two programs under a plan.
fn planned(rt: &impl Abort, alloc: Global, images: &Images, plan: &Plan) -> Result<Vec<u8>, Fail> {
    let mut boards = both_boards(alloc, images, &plan.traces)?;
    let mut watches = both_watches(alloc, images)?;
    written(rt, alloc, &mut boards, &mut watches, plan)
}

/// The report of the two programs under a case.
fn report(
    rt: &impl Abort,
    alloc: Global,
    images: &Images,
    case: Case<'_>,
) -> Result<Vec<u8>, Fail> {
    let plan = plan_of(rt, alloc, case)?;
    planned(rt, alloc, images, &plan)
}

const A: &'static str = "c 10000000 0\nr 5 7\n";

const B: &'static str = "c 10000000 0\n";

/// A's lines where both readings come through.
const SENT: &'static str = "a bound 640\na t 1 a a 0 1\na o 5\na t 2 a a 1 2\na o 7\n";

/// The lines of a text that begin so, each with its end.
fn lines_with(alloc: Global, text: &str, front: &str) -> Result<Vec<u8>, Fail> {
    let mut lines = Vec::new(alloc);
    for line in text.lines() {
        if line.starts_with(front) {
            lines.extend_from_slice(line.as_bytes())?;
            lines.push(b'\n')?;
        }
    }
    Ok(lines)
}

/// The last line of a text that begins so; an empty one where there is none.
fn last_with<'t>(text: &'t str, front: &str) -> &'t str {
    let mut last = "";
    for line in text.lines() {
        if line.starts_with(front) {
            last = line;
        }
    }
    last
}

/// A report has these lines of A, the sum 12 at B last, and both words accepted and consumed.
fn is_whole(rt: &impl Abort, alloc: Global, text: &str) -> Result<(), Fail> {
    let sent = lines_with(alloc, text, "a ")?;
    assert!(rt; sent.as_slice() == SENT.as_bytes());
    assert!(rt; last_with(text, "b v ") == "b v s 12");
    assert!(rt; last_with(text, "") == "pair 2 2");
    Ok(())
}

/// Under a case both words come through.
fn comes_through(
    rt: &impl Abort,
    alloc: Global,
    images: &Images,
    case: Case<'_>,
) -> Result<(), Fail> {
    let text = report(rt, alloc, images, case)?;
    is_whole(rt, alloc, str::from_utf8(text.as_slice())?)
}

/// Under a case these are the last words of the report.
fn ends_so(
    rt: &impl Abort,
    alloc: Global,
    images: &Images,
    case: Case<'_>,
    last: &str,
) -> Result<(), Fail> {
    let text = report(rt, alloc, images, case)?;
    assert!(rt; text.as_slice().ends_with(last.as_bytes()));
    Ok(())
}

#[test]
fn both_words_come_through(rt: HostRuntime) -> Result<(), Fail> {
    let images = both_images(&rt, rt.alloc())?;
    for schedule in ["x 20000\n", "x 20000\nd 0\nd 0\nx 2000\n"] {
        let case = Case {
            a: A,
            b: B,
            schedule,
        };
        comes_through(&rt, rt.alloc(), &images, case)?;
    }
    Ok(())
}

/// The report of a pair that told nothing.
const NOTHING: &'static str = "a bound 640\nb bound 872\npair 0 0\n";

#[test]
fn nothing_comes_through(rt: HostRuntime) -> Result<(), Fail> {
    let images = both_images(&rt, rt.alloc())?;
    let case = Case {
        a: A,
        b: B,
        schedule: "a 5000\nb 2\n",
    };
    ends_so(&rt, rt.alloc(), &images, case, NOTHING)
}

// Where both runs have ended, a schedule of any length is done with at once.
#[test]
fn ended_runs_stay_so(rt: HostRuntime) -> Result<(), Fail> {
    let images = both_images(&rt, rt.alloc())?;
    let case = Case {
        a: "s 1 0\n",
        b: "s 1 0\n",
        schedule: "x 4294967295\na 4294967295\nb 4294967295\n",
    };
    ends_so(&rt, rt.alloc(), &images, case, NOTHING)
}

/// Sixty times a line with the next number, from 0 on, between these texts.
fn add_numbered(alloc: Global, into: &mut String, before: &str, behind: &str) -> Result<(), Fail> {
    for k in 0..60u32 {
        let line = format!(in alloc; "{before} {k}\n{behind}")?;
        into.push_str(&line)?;
    }
    Ok(())
}

/// Each packet is brought, and no acknowledgement.
fn packets_alone(alloc: Global) -> Result<String, Fail> {
    let mut schedule = String::new(alloc);
    add_numbered(alloc, &mut schedule, "a 20\nd", "b 40\n")?;
    Ok(schedule)
}

// A sends one word on and on, and B accepts it once.
#[test]
fn only_packets_come_through(rt: HostRuntime) -> Result<(), Fail> {
    let images = both_images(&rt, rt.alloc())?;
    let schedule = packets_alone(rt.alloc())?;
    let case = Case {
        a: A,
        b: B,
        schedule: &schedule,
    };
    ends_so(&rt, rt.alloc(), &images, case, "\npair 1 1\n")
}

/// Packets and acknowledgements come late, the oldest first, and the packets twice.
fn oldest_first(alloc: Global) -> Result<String, Fail> {
    let mut schedule = String::new(alloc);
    schedule.push_str("a 400\n")?;
    add_numbered(alloc, &mut schedule, "d", "b 40\n")?;
    add_numbered(alloc, &mut schedule, "d", "b 40\n")?;
    add_numbered(alloc, &mut schedule, "k", "")?;
    schedule.push_str("x 4000\n")?;
    Ok(schedule)
}

#[test]
fn the_oldest_come_first(rt: HostRuntime) -> Result<(), Fail> {
    let images = both_images(&rt, rt.alloc())?;
    let schedule = oldest_first(rt.alloc())?;
    let case = Case {
        a: A,
        b: B,
        schedule: &schedule,
    };
    comes_through(&rt, rt.alloc(), &images, case)
}

/// Under a trace of B both words come through.
fn listens_through(
    rt: &impl Abort,
    alloc: Global,
    images: &Images,
    trace: &str,
) -> Result<(), Fail> {
    let case = Case {
        a: A,
        b: trace,
        schedule: "x 2000\n",
    };
    comes_through(rt, alloc, images, case)
}

// B's power fails behind every fifth of its first 200 steps.
#[test]
fn the_listener_is_cut(rt: HostRuntime) -> Result<(), Fail> {
    let images = both_images(&rt, rt.alloc())?;
    for k in 0..=40u32 {
        let step = 5 * k;
        let trace = format!(in rt.alloc(); "s {step} 3\n{B}")?;
        listens_through(&rt, rt.alloc(), &images, &trace)?;
    }
    Ok(())
}

/// The number that is this word of a line.
fn number_at(line: &str, place: usize) -> Result<u32, Fail> {
    let word = line.split_whitespace().nth(place).unwrap_or("");
    Ok(word.parse::<u32>()?)
}

/// In a report each word of A is the reading with which its transition began, where the readings are 10, 11 and on. Answers how many there are.
fn count_readings(rt: &impl Abort, text: &str) -> Result<u32, Fail> {
    let mut from = 0u32;
    let mut told = 0u32;
    for line in text.lines() {
        if line.starts_with("a t ") {
            from = number_at(line, 5)?;
        }
        if line.starts_with("a o ") {
            assert!(rt; from < 1000 && told < 1000);
            assert!(rt; number_at(line, 2)? == from + 10);
            told += 1;
        }
    }
    Ok(told)
}

/// And B accepted as many words.
fn tells_readings(rt: &impl Abort, text: &str) -> Result<(), Fail> {
    let told = count_readings(rt, text)?;
    let accepted = number_at(last_with(text, "pair "), 1)?;
    assert!(rt; told > 1 && accepted == told);
    Ok(())
}

/// Under a trace of A each word that it tells is the reading with which its transition began.
fn sends_readings(
    rt: &impl Abort,
    alloc: Global,
    images: &Images,
    trace: &str,
) -> Result<(), Fail> {
    let case = Case {
        a: trace,
        b: B,
        schedule: "x 4000\n",
    };
    let text = report(rt, alloc, images, case)?;
    tells_readings(rt, str::from_utf8(text.as_slice())?)
}

// A's power fails behind every tenth of its first 300 steps. An attempt that was cut off takes a further reading as it begins anew, so each word that A tells
// is the one reading of its transition.
#[test]
fn the_sender_is_cut(rt: HostRuntime) -> Result<(), Fail> {
    let images = both_images(&rt, rt.alloc())?;
    for k in 0..=30u32 {
        let step = 10 * k;
        let trace = format!(in rt.alloc();
            "s {step} 3\nc 10000000 0\nr 10 11 12 13 14 15 16 17 18 19\n"
        )?;
        sends_readings(&rt, rt.alloc(), &images, &trace)?;
    }
    Ok(())
}
