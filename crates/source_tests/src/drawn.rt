//! Sources and traces beside those that a script of a few lines in another language draws.
use source_generator::{
    Charge, ChargeKind, generated_source, generated_trace, rows_of_zero, statement_rows,
};
use std::test::Fail;

#[test]
fn sources_begin_and_end_so(rt: HostRuntime) -> Result<(), Fail> {
    rows_of_zero();
    statement_rows();
    let text = generated_source(rt.alloc(), 0)?;
    assert!(rt;
        text.as_slice().starts_with(b"shared unsigned x0 = 15470;\nshared unsigned x1 = 18256;\n")
    );
    assert!(rt; text.as_slice().ends_with(b");\n}\nentry t0;\n"));
    assert_eq!(rt; text.len(), 3918);
    assert_eq!(rt; generated_source(rt.alloc(), 4294967295)?.len(), 3901);
    Ok(())
}

#[test]
fn a_trace_goes_on_behind_its_source(rt: HostRuntime) -> Result<(), Fail> {
    let trace = generated_trace(rt.alloc(), 0, 1000)?;
    assert_eq!(rt; trace.readings().len(), 512);
    assert_eq!(rt; trace.readings().first(), Some(&42899));
    assert_eq!(rt; trace.charges().len(), 256);
    let first = Charge {
        kind: ChargeKind::Cycles,
        n: 15199,
        fill: 12873,
        times: 1,
    };
    let last = Charge {
        kind: ChargeKind::Cycles,
        n: 53669,
        fill: 54470,
        times: 1,
    };
    assert_eq!(rt; trace.charges().first(), Some(&first));
    assert_eq!(rt; trace.charges().last(), Some(&last));
    Ok(())
}
