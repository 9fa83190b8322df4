//! The four lines of `gen`.
ghost use Rattle.plain_commands.specs.alp_io.Count.{HasCause};
ghost use Rattle.plain_commands.specs.alp_io.Report.{bound_line};
ghost use Rattle.plain_commands.specs.alp_io.Sink.{Writes};
ghost use Rattle.compiler_commands.specs.Generated.{ended_line, four_lines, number_line, sum_line};

use plain_commands::board_runs::{RunEnd, Watch};
use plain_commands::boards::Board;
use plain_commands::outside::{Failed, Report, Sink, write_pieces};
use plain_commands::reason_of;
use plain_commands::texts::print_u64;

/// What the first two lines tell.
#[derive(Clone, Copy)]
pub struct GenNumbers {
    /// The number that the source and its trace are generated from.
    pub number: u32,
    /// The bound of the source, in cycles.
    pub bound: u32,
}

#[tactic(auto, unfolding(crate::specs::Generated::number_line))]
fn write_number<O: Sink>(out: &mut O, number: u32) -> Result<(), Failed>
    ensures bytes { Writes (O.contents out.old) (O.contents out.new) result (number_line number) }
    ensures cause { HasCause (O.faults out.old) (O.faults out.new) result }
{
    let number = print_u64(number as u64);
    write_pieces(out, &[b"gen ", number.as_bytes(), b"\n"])
}

/// Writes the line of a bound. Takes no memory.
pub fn write_bound<O: Sink>(out: &mut O, bound: u32) -> Result<(), Failed>
    ensures bytes { Writes (O.contents out.old) (O.contents out.new) result (bound_line bound) }
    ensures cause { HasCause (O.faults out.old) (O.faults out.new) result }
{
    let mut report = Report::new(out);
    report.bound(bound)
}

fn write_end<O: Sink>(
    out: &mut O,
    end: RunEnd,
    board: &Board,
    watch: &Watch<'_>,
) -> Result<(), Failed>
    ensures bytes { Writes (O.contents out.old) (O.contents out.new) result (ended_line end board.now watch.now) }
    ensures cause { HasCause (O.faults out.old) (O.faults out.new) result }
{
    let mut report = Report::new(out);
    report.end(
        reason_of(end),
        watch.completed(),
        board.accepted(),
        board.repeats(),
    )
}

#[tactic(auto, unfolding(crate::specs::Generated::sum_line))]
fn write_sum<O: Sink>(out: &mut O, sum: u16) -> Result<(), Failed>
    ensures bytes { Writes (O.contents out.old) (O.contents out.new) result (sum_line sum) }
    ensures cause { HasCause (O.faults out.old) (O.faults out.new) result }
{
    let sum = print_u64(sum as u64);
    write_pieces(out, &[b"sum ", sum.as_bytes(), b"\n"])
}

/// Writes the number, the bound, how a run ended by the board and the watch at its end, and the watch's sum. Takes no memory.
pub fn write_lines<O: Sink>(
    out: &mut O,
    numbers: GenNumbers,
    end: RunEnd,
    board: &Board,
    watch: &Watch<'_>,
) -> Result<(), Failed>
    ensures bytes { Writes (O.contents out.old) (O.contents out.new) result
        (four_lines numbers.number numbers.bound (ended_line end board.now watch.now) watch.now) }
    ensures cause { HasCause (O.faults out.old) (O.faults out.new) result }
{
    write_number(out, numbers.number)?;
    write_bound(out, numbers.bound)?;
    write_end(out, end, board, watch)?;
    write_sum(out, watch.sum())
}
