//! Runs of the undo runtime through cuts, each compared with the source's meaning.
use crate::meaning::is_meant;
use crate::program::{trace, undoes};
use crate::sources::{CUT_TWICE, SOURCES, Source};
use std::alloc::Global;
use std::process::Abort;
use std::test::Fail;

// The run ends well, and is meant.
fn keeps(rt: &impl Abort, alloc: Global, source: &Source, charges: &str) -> Result<(), Fail> {
    let answer = undoes(alloc, source.text, &trace(alloc, charges, source.readings)?)?;
    assert_eq!(rt; answer.status.code(), 0);
    assert!(rt; is_meant(alloc, source.text, &answer.out, source.readings)?);
    Ok(())
}

// Cut after each of 300 steps: in the start, between the stores of a log, in front of the commit and in it.
#[test]
fn sources_cut_once(rt: HostRuntime) -> Result<(), Fail> {
    let alloc = rt.alloc();
    for source in &SOURCES {
        for k in 0..=300 {
            let fill = if k % 2 == 0 { 0 } else { 65535 };
            let charges = format!(in alloc; "s {k} {fill}\nc 30000 {fill}\n")?;
            keeps(&rt, alloc, source, &charges)?;
        }
    }
    Ok(())
}

// Cut once, and then in the middle of putting back.
#[test]
fn sources_cut_while_words_are_put_back(rt: HostRuntime) -> Result<(), Fail> {
    let alloc = rt.alloc();
    let firsts: Vec<u32> = (0..=300).step_by(21).collect(alloc)?;
    for source in &CUT_TWICE {
        for first in &firsts {
            for second in 0..=32 {
                let charges = format!(in alloc; "s {first} 0\ns {second} 65535\nc 30000 0\n")?;
                keeps(&rt, alloc, source, &charges)?;
            }
        }
    }
    Ok(())
}

// Cut twice anywhere.
#[test]
fn sources_cut_twice(rt: HostRuntime) -> Result<(), Fail> {
    let alloc = rt.alloc();
    let steps: Vec<u32> = (0..=350).step_by(29).collect(alloc)?;
    for source in &SOURCES {
        for first in &steps {
            for second in &steps {
                let charges = format!(in alloc; "s {first} 0\ns {second} 0\nc 30000 65535\n")?;
                keeps(&rt, alloc, source, &charges)?;
            }
        }
    }
    Ok(())
}
