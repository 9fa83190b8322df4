//! Schedules that another program refuses, each with its line; how entries are printed; the air.
use radio_link::{Air, Packet, ScheduleFault, parse_schedule, print_schedule};
use std::test::Fail;

#[test]
fn bad_lines(rt: HostRuntime) {
    for (text, bad) in [
        ("y 1", 1),
        ("x 9\ny 1", 2),
        ("a", 1),
        ("a 1\nb", 2),
        ("c 1 0", 1),
        ("a 4294967296", 1),
        ("a 4294967295\nb 4294967296", 2),
        ("a 1 2", 1),
        ("b 1 * 2", 1),
        ("a -1", 1),
        ("A 1", 1),
        ("a1", 1),
        ("# c\n\n \t\nd 0\nk 0\nk x", 6),
        ("x 1\r\nx 1 1\r\n", 2),
        ("d 0 # y\nk 1#z\ne 1 1", 3),
        ("pair 1", 1),
        ("r 5", 1),
        ("x", 1),
        ("d", 1),
        ("k", 1),
        ("k k", 1),
        ("q", 1),
    ] {
        assert!(rt; text.len() < 100);
        let read = parse_schedule(rt.alloc(), text.as_bytes());
        assert!(rt;
            matches!(read, Err(ScheduleFault::BadLine { line }) if line == bad),
            "at {text}"
        );
    }
}

#[test]
fn prints_what_it_reads(rt: HostRuntime) -> Result<(), Fail> {
    let text = b"# c\n\n \t\r\na 0x10 # y\r\n b\t4294967295\nd 0\nk 007#z\nx 20000";
    let schedule = parse_schedule(rt.alloc(), text)?;
    let printed = print_schedule(rt.alloc(), &schedule)?;
    let wanted = b"a 16\nb 4294967295\nd 0\nk 7\nx 20000\n".as_slice();
    assert_eq!(rt; printed.as_slice(), wanted);
    Ok(())
}

#[test]
fn one_entry_too_many(rt: HostRuntime) -> Result<(), Fail> {
    let mut text = Vec::new(rt.alloc());
    for _ in 0..65_536 {
        text.extend_from_slice(b"a 1\n#\n")?;
    }
    assert!(rt; text.len() < 1_000_000);
    let schedule = parse_schedule(rt.alloc(), text.as_slice())?;
    assert_eq!(rt; schedule.entries().len(), 65_536);
    text.extend_from_slice(b"a")?;
    let read = parse_schedule(rt.alloc(), text.as_slice());
    assert!(rt; matches!(read, Err(ScheduleFault::BadLine { line: 131_073 })));
    text.extend_from_slice(b" 1")?;
    let read = parse_schedule(rt.alloc(), text.as_slice());
    assert!(rt; matches!(read, Err(ScheduleFault::TooMany { line: 131_073 })));
    Ok(())
}

#[test]
fn brings_what_was_sent(rt: HostRuntime) -> Result<(), Fail> {
    let mut air = Air::new(rt.alloc())?;
    assert!(rt; air.packets.bring_newest().is_none());
    air.packets.send(Packet { number: 0, word: 5 });
    air.packets.send(Packet { number: 1, word: 7 });
    for (k, word) in [(0, Some(5)), (1, Some(7)), (0, Some(5)), (2, None)] {
        let brought = air.packets.bring(k);
        assert_eq!(rt; brought.map(|packet| packet.word), word);
    }
    assert!(rt; air.packets.bring_newest().is_none());
    Ok(())
}

#[test]
fn loses_what_is_past_a_million(rt: HostRuntime) -> Result<(), Fail> {
    let mut air = Air::new(rt.alloc())?;
    for _ in 0..1_000_000 {
        air.acknowledgements.send(1);
    }
    assert_eq!(rt; air.acknowledgements.bring_newest(), Some(1));
    air.acknowledgements.send(2);
    assert_eq!(rt; air.acknowledgements.bring_newest(), None);
    assert_eq!(rt; air.acknowledgements.bring(1_000_000), None);
    Ok(())
}
