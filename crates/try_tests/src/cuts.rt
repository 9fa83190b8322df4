//! Tables of cuts: a source whose charges end after each of many numbers of steps, each report compared with the source's meaning.
use crate::meaning::{is_meant, transitions};
use crate::program::{trace, tries};
use crate::sources::{CUT_TWICE, SOURCES, SUM, Source, TOTAL};
use std::alloc::Global;
use std::process::Abort;
use std::test::Fail;

/// What RAM, registers and OUTNUM hold behind a power-up.
const FILLS: [u16; 2] = [0, 65535];

// The run ends well, and is meant.
fn keeps(rt: &impl Abort, alloc: Global, source: &Source, charges: &str) -> Result<(), Fail> {
    let answer = tries(alloc, source.text, &trace(alloc, charges, source.readings)?)?;
    assert_eq!(rt; answer.status.code(), 0);
    assert!(rt; is_meant(alloc, source.text, &answer.out, source.readings)?);
    Ok(())
}

// Cut after each of 400 steps, with either fill.
fn keeps_cut_once(rt: &impl Abort, alloc: Global, source: &Source) -> Result<(), Fail> {
    for fill in FILLS {
        for k in 0..=400 {
            let charges = format!(in alloc; "s {k} {fill}\nc 30000 {fill}\n")?;
            keeps(rt, alloc, source, &charges)?;
        }
    }
    Ok(())
}

#[test]
fn cut_after_each_of_400_steps(rt: HostRuntime) -> Result<(), Fail> {
    let source = Source {
        text: SUM,
        readings: &[5, 7, 9, 11],
    };
    keeps_cut_once(&rt, rt.alloc(), &source)
}

// Either of a long's words is stored, listed and copied by itself.
#[test]
fn a_long_cut_after_each_of_400_steps(rt: HostRuntime) -> Result<(), Fail> {
    let source = Source {
        text: TOTAL,
        readings: &[1, 65535, 65535, 9],
    };
    keeps_cut_once(&rt, rt.alloc(), &source)
}

// Cut twice, after each of the first and each of the second numbers of steps; the charge behind is long enough for all readings.
fn keeps_cut_twice(
    rt: &impl Abort,
    alloc: Global,
    source: &Source,
    firsts: &[u32],
    seconds: &[u32],
    fill: u16,
) -> Result<(), Fail> {
    for first in firsts {
        for second in seconds {
            let charges = format!(in alloc;
                "s {first} {fill}\ns {second} {fill}\nc 1000000 {fill}\n"
            )?;
            keeps(rt, alloc, source, &charges)?;
        }
    }
    Ok(())
}

const SUM_OF_FIVE: Source = Source {
    text: SUM,
    readings: &[5, 7, 9, 11, 13],
};

// Two tests, as each has a minute.
#[test]
fn cut_twice_60_by_120(rt: HostRuntime) -> Result<(), Fail> {
    let alloc = rt.alloc();
    let firsts: Vec<u32> = (0..=60).collect(alloc)?;
    let seconds: Vec<u32> = (0..=120).collect(alloc)?;
    keeps_cut_twice(&rt, alloc, &SUM_OF_FIVE, &firsts, &seconds, 0)
}

#[test]
fn cut_twice_from_61_to_120_by_120(rt: HostRuntime) -> Result<(), Fail> {
    let alloc = rt.alloc();
    let firsts: Vec<u32> = (61..=120).collect(alloc)?;
    let seconds: Vec<u32> = (0..=120).collect(alloc)?;
    keeps_cut_twice(&rt, alloc, &SUM_OF_FIVE, &firsts, &seconds, 0)
}

#[test]
fn cut_twice_80_by_80_with_ones_in_ram(rt: HostRuntime) -> Result<(), Fail> {
    let alloc = rt.alloc();
    let steps: Vec<u32> = (0..80).collect(alloc)?;
    keeps_cut_twice(&rt, alloc, &SUM_OF_FIVE, &steps, &steps, 65535)
}

// A source each of arrays, emits and loops, cut twice.
fn each_keeps_cut_twice(rt: &impl Abort, alloc: Global, fill: u16) -> Result<(), Fail> {
    let steps: Vec<u32> = (0..=400).step_by(7).collect(alloc)?;
    for source in &CUT_TWICE {
        keeps_cut_twice(rt, alloc, source, &steps, &steps, fill)?;
    }
    Ok(())
}

#[test]
fn arrays_emits_and_loops_cut_twice(rt: HostRuntime) -> Result<(), Fail> {
    each_keeps_cut_twice(&rt, rt.alloc(), 0)
}

#[test]
fn arrays_emits_and_loops_cut_twice_with_ones_in_ram(rt: HostRuntime) -> Result<(), Fail> {
    each_keeps_cut_twice(&rt, rt.alloc(), 65535)
}

// How many steps lead to a second transition of a run that isn't cut; at most so many are looked at.
fn steps_of_two(alloc: Global, source: &Source, most: u32) -> Result<u32, Fail> {
    for k in 0..most {
        let text = trace(alloc, &format!(in alloc; "s {k} 0\n")?, source.readings)?;
        let answer = tries(alloc, source.text, &text)?;
        if transitions(alloc, &answer.out)? >= 2 {
            return Ok(k);
        }
    }
    Ok(most)
}

#[test]
fn sources_cut_in_their_first_two_attempts(rt: HostRuntime) -> Result<(), Fail> {
    let alloc = rt.alloc();
    for source in &SOURCES {
        for k in 0..=steps_of_two(alloc, source, 1500)? {
            let fill = if k % 2 == 0 { 0 } else { 65535 };
            let charges = format!(in alloc; "s {k} {fill}\nc 30000 {fill}\n")?;
            keeps(&rt, alloc, source, &charges)?;
        }
    }
    Ok(())
}
