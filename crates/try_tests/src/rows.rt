//! Cuts whose reports are worked by hand from the rules. Each is run with both fills.
use crate::program::tries;
use crate::sources::{SUM, TOTAL, TWO};
use std::alloc::Global;
use std::process::Abort;
use std::test::Fail;

// `try` prints this, and ends well, with either fill in place of F.
fn prints(
    rt: &impl Abort,
    alloc: Global,
    source: &str,
    trace: &str,
    report: &str,
) -> Result<(), Fail> {
    for fill in ["0", "65535"] {
        let answer = tries(alloc, source, &trace.replace(alloc, "F", fill)?)?;
        assert_eq!(rt; answer.status.code(), 0);
        assert_eq!(rt; answer.out.as_slice(), report.as_bytes());
    }
    Ok(())
}

// How many steps a charge has, so many at least, so that a run of this trace behind it begins with these lines; at most 400.
fn steps_until(
    alloc: Global,
    source: &str,
    least: u32,
    behind: &str,
    lines: &str,
) -> Result<u32, Fail> {
    for k in least..400 {
        let answer = tries(alloc, source, &format!(in alloc; "s {k} 0\n{behind}")?)?;
        if answer.out.starts_with(lines.as_bytes()) {
            return Ok(k);
        }
    }
    Ok(400)
}

// The reading that an attempt took before it was cut is gone.
#[test]
fn cut_right_after_a_take(rt: HostRuntime) -> Result<(), Fail> {
    let alloc = rt.alloc();
    let behind = "c 1000000 0\nr 5 7 9\n";
    let k = steps_until(alloc, SUM, 0, behind, "bound 912\nt 1 a a 1 2\n")?;
    assert!(rt; k > 0 && k < 400);
    let trace = format!(in alloc; "s {k} F\nc 1000000 F\nr 5 7 9\n")?;
    let report =
        "bound 912\nt 1 a a 1 2\no 7\nv n 7\nt 2 a a 2 3\no 16\nv n 16\nend readings 2 2 0\n";
    prints(&rt, alloc, SUM, &trace, report)
}

// So it is where the reading is added to a long.
#[test]
fn a_long_cut_right_after_a_take(rt: HostRuntime) -> Result<(), Fail> {
    let alloc = rt.alloc();
    let behind = "c 1000000 0\nr 9 1 65535\n";
    let k = steps_until(alloc, TOTAL, 0, behind, "bound 1636\nt 1 a a 1 2\n")?;
    assert!(rt; k > 0 && k < 400);
    let trace = format!(in alloc; "s {k} F\nc 1000000 F\nr 9 1 65535\n")?;
    let report =
        "bound 1636\nt 1 a a 1 2\nv n 65536\nv h 1\nt 2 a a 2 3\nv n 131071\nend readings 2 0 0\n";
    prints(&rt, alloc, TOTAL, &trace, report)
}

// One step more than to the store to BASE clears GATE; so the word is offered twice, and accepted once.
#[test]
fn cut_right_after_the_store_to_base(rt: HostRuntime) -> Result<(), Fail> {
    let alloc = rt.alloc();
    let done = steps_until(alloc, SUM, 0, "r 5\n", "bound 912\nt 1 ")?;
    assert!(rt; done > 0 && done < 400);
    let trace = format!(in alloc; "s {} F\nc 1000000 F\nr 5\n", done - 1)?;
    let report = "bound 912\nt 1 a a 0 1\no 5\nv n 5\nend readings 1 1 1\n";
    prints(&rt, alloc, SUM, &trace, report)
}

// Wherever the first charge ends, also between the two copies of the commit.
#[test]
fn two_private_scalars_cut_anywhere(rt: HostRuntime) -> Result<(), Fail> {
    let alloc = rt.alloc();
    for k in 0..=200 {
        let trace = format!(in alloc; "s {k} F\nc 1000000 F\n")?;
        let report = "bound 1044\nt 1 t u 0 0\nv x 1\nv y 2\nend readings 1 0 0\n";
        prints(&rt, alloc, TWO, &trace, report)?;
    }
    Ok(())
}

// Cut where x has become 1 in its copy: the next attempt reads 3, and x stays.
#[test]
fn a_private_scalar_of_a_cut_attempt_is_gone(rt: HostRuntime) -> Result<(), Fail> {
    let alloc = rt.alloc();
    let source =
        "shared unsigned v; shared unsigned x; task t { v = sense(); if (v > 9) { x = 1; } transition_to(u); } \
         task u { x = sense(); transition_to(u); } entry t;";
    let behind = "c 1000000 0\nr 20 3\n";
    let taken = steps_until(alloc, source, 0, behind, "bound 1044\nt 1 t u 1 2\n")?;
    let decided = steps_until(alloc, source, taken, behind, "bound 1044\nt 1 t u 0 1\n")?;
    assert!(rt; taken > 0 && taken < decided && decided < 400);
    let trace = format!(in alloc; "s {} F\nc 1000000 F\nr 20 3\n", decided - 1)?;
    prints(
        &rt,
        alloc,
        source,
        &trace,
        "bound 1044\nt 1 t u 1 2\nv v 3\nend readings 1 0 0\n",
    )
}
