//! A step of a source's meaning, and one whose readings run out.
use source_meaning::{Accepted, Done, Meaning, Short, SourceFault, accept};
use std::alloc::Global;

fn accepted(alloc: Global, source: &'static str) -> Result<Accepted, SourceFault> {
    let text = source.as_bytes();
    if text.len() >= 4_294_967_295 {
        return Err(SourceFault::Memory);
    }
    accept(alloc, text)
}

#[test]
fn sums_readings(rt: HostRuntime) -> Result<(), SourceFault> {
    let source =
        "shared unsigned s = 5; task t { s = s + 100; s = s + sense() - 100; emit(s); transition_to(t); } entry t;";
    let accepted = accepted(rt.alloc(), source)?;
    assert_eq!(rt; accepted.source(), source.as_bytes());
    assert_eq!(rt; accepted.allow().emits, 1);
    let mut meaning = Meaning::new(rt.alloc(), &accepted)?;
    assert_eq!(rt; meaning.word(0, 0), 5);
    let done = Done {
        from: 0,
        next: 0,
        used: 1,
    };
    assert_eq!(rt; meaning.task_step(&accepted, &[3, 9]), Ok(done));
    assert_eq!(rt; (meaning.before(0, 0), meaning.word(0, 0)), (5, 8));
    assert_eq!(rt; meaning.emitted(), [8].as_slice());
    // An attempt whose readings run out leaves all as before.
    assert_eq!(rt; meaning.task_step(&accepted, &[]), Err(Short));
    assert_eq!(rt; (meaning.before(0, 0), meaning.word(0, 0)), (5, 8));
    assert_eq!(rt; meaning.emitted(), [8].as_slice());
    Ok(())
}
