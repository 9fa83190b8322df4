//! What a run leaves beside its report: the board, and the sum of the shared words.
ghost use Rattle.std.specs.Prelude.{◌≡◌, ◌<◌, length};

use alp_io::{MemSink, Report};
use board_run::{RunEnd, RunFault, Watch, run};
use energy_trace::{Trace, parse_trace};
use fram_board::Board;
use image_text::parse_image;
use std::test::Fail;

fn run_into(
    board: &mut Board,
    trace: &Trace,
    watch: &mut Watch<'_>,
    sink: &mut MemSink,
) -> Result<RunEnd, RunFault>
    requires accepted { board.old.receiver.accepted ≡ 0 }
    requires repeats { board.old.receiver.repeats ≡ 0 }
{
    let mut report = Report::new(sink);
    run(board, trace, watch, &mut report)
}

// mov #0,&0x0202; mov #77,&0x0204; mov #77,&0x0204; bis #16,sr
const SENDS_TWICE: &'static str =
    "@4400\n82 43 02 02 B2 40 4D 00 04 02 B2 40 4D 00 04 02\n32 D0 10 00\n@FFFE\n00 44\nq\n";

// The answer of a run in which a call of the sink fails, how many words the receiver has accepted then, and how many repeats.
fn heard_until_failure(
    rt: &HostRuntime,
    failing_call: u64,
) -> Result<(Result<RunEnd, RunFault>, u64, u64), Fail> {
    let image = parse_image(rt.alloc(), SENDS_TWICE.as_bytes())?;
    let trace = parse_trace(rt.alloc(), b"s 100 0\n".as_slice())?;
    let mut failing = Vec::new(rt.alloc());
    failing.push(failing_call)?;
    let mut sink = MemSink::new(rt.alloc(), 100000, failing)?;
    let mut board = Board::new(rt.alloc(), &image, trace.readings(), trace.events())?;
    let mut watch = Watch::new(rt.alloc(), &image)?;
    let answer = run_into(&mut board, &trace, &mut watch, &mut sink);
    Ok((answer, board.accepted(), board.repeats()))
}

#[test]
fn the_board_stands_behind_the_step_of_the_line(rt: HostRuntime) -> Result<(), Fail> {
    for (call, repeats) in [(0, 0), (1, 1)] {
        let heard = heard_until_failure(&rt, call)?;
        assert_eq!(rt; heard, (Err(RunFault::Write), 1, repeats));
    }
    Ok(())
}

// l: mov &0x0200,r4; mov #1,&0x5004; mov r4,&0x5014; mov #7,&0x5000; mov #0,&0x5004; jmp l
const READS_AND_COMMITS: &'static str =
    "@4400\n14 42 00 02 92 43 04 50 82 44 14 50 B2 40 07 00\n00 50 82 43 04 50 F4 3F\n\
    @FFFE\n00 44\nq\n\
    map\nbound 9\nwords 5000 5002 5004 5006 5008 500A 500C 500E\nlist 5020 1\nemits 5030 1\nversions 5040 0\n\
    scalar x int 5010\narray y unsigned 5012 3\ntask a\ntask b\nend\n";

// The answer of a run, the word that it stores to, the sum of the shared words, and how many transitions were completed.
fn summed(
    rt: &HostRuntime,
    image: &'static str,
    trace: &'static str,
) -> Result<(Result<RunEnd, RunFault>, Option<u16>, u16, u64), Fail>
    requires image { length image.now < 4000000 }
    requires trace { length trace.now < 4000000 }
{
    let image = parse_image(rt.alloc(), image.as_bytes())?;
    let trace = parse_trace(rt.alloc(), trace.as_bytes())?;
    let mut sink = MemSink::new(rt.alloc(), 1000, Vec::new(rt.alloc()))?;
    let mut board = Board::new(rt.alloc(), &image, trace.readings(), trace.events())?;
    let mut watch = Watch::new(rt.alloc(), &image)?;
    let answer = run_into(&mut board, &trace, &mut watch, &mut sink);
    Ok((answer, board.word(0x5014), watch.sum(), watch.completed()))
}

// Words of an attempt that was cut are not in the sum.
#[test]
fn the_watch_sums_the_shared_words(rt: HostRuntime) -> Result<(), Fail> {
    let whole = summed(&rt, READS_AND_COMMITS, "s 20 0\nr 65535 3\n")?;
    assert_eq!(rt; whole, (Ok(RunEnd::Readings), Some(3), 3, 2));
    let cut = summed(&rt, READS_AND_COMMITS, "s 3 0\nr 5\n")?;
    assert_eq!(rt; cut, (Ok(RunEnd::Charges), Some(5), 0, 0));
    Ok(())
}
