//! That lines through a buffer come out whole and in order, that few calls are made, and where a failure leaves them.
ghost use Rattle.std.specs.Prelude.{◌≡◌};

use alp_io::{Failed, MemSink, Report, Sink};
use buffered_sink::{BufferedSink, Origin};
use std::alloc::Global;
use std::marker::Brand;
use std::test::Fail;

// Writes that many lines of words.
fn write_lines<S: Sink>(sink: &mut S, count: u16) -> Result<(), Failed> {
    let mut report = Report::new(sink);
    for w in 0..count {
        report.accepted(w)?;
    }
    Ok(())
}

fn write_through<'a, O: Sink, P: Origin>(
    out: &'a mut O,
    count: u16,
) -> (&'a mut O, Result<(), Failed>)
    requires place { out.ghost_name ≡ P.place }
    requires contents { O.contents out.old ≡ P.contents }
{
    let mut lines = BufferedSink::<O, P>::new(out);
    let written = write_lines(&mut lines, count);
    lines.finish(written)
}

// The same lines through a buffer.
fn write_gathered<O: Sink>(out: &mut O, count: u16) -> Result<(), Failed> {
    let (_, result) = write_through::<O, Brand>(out, count);
    result
}

fn sink_that_fails(alloc: Global, calls: &[u64]) -> Result<MemSink, Fail> {
    Ok(MemSink::new(alloc, 20_000, calls.to_vec(alloc)?)?)
}

#[test]
fn hands_on_all_lines_in_few_calls(rt: HostRuntime) -> Result<(), Fail> {
    let mut plain = sink_that_fails(rt.alloc(), &[])?;
    write_lines(&mut plain, 2000)?;
    // 12,890 bytes are 202 calls of at most 64
    let mut sink = sink_that_fails(rt.alloc(), &[202])?;
    write_gathered(&mut sink, 2000)?;
    assert_eq!(rt; sink.bytes(), plain.bytes());
    Ok(())
}

#[test]
fn hands_nothing_on_behind_a_failure(rt: HostRuntime) -> Result<(), Fail> {
    let mut plain = sink_that_fails(rt.alloc(), &[])?;
    write_lines(&mut plain, 2000)?;
    for call in 0..64 {
        let mut sink = sink_that_fails(rt.alloc(), &[call])?;
        assert!(rt; write_gathered(&mut sink, 2000).is_err());
        assert!(rt; plain.bytes().starts_with(sink.bytes()));
        assert_eq!(rt; sink.bytes().len() as u64, 64 * call);
    }
    Ok(())
}
