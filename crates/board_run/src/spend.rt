//! One charge of a run.
ghost use Rattle.std.specs.Prelude.{◌≡◌, ◌+◌, ◌-◌, ◌^◌, ◌<◌, ◌≤◌, OnOk};
ghost use Rattle.alp_io.specs.Count.{HasCause};
ghost use Rattle.fram_board.specs.Board.{IsNextStep};
ghost use Rattle.fram_board.specs.declared.board.NextStep.TheVariants.{Acceptance, Instruction};
ghost use Rattle.fram_board.specs.Steps.{AreWordsOfStep};
ghost use Rattle.fram_board.specs.Run.{kind_of, price};
ghost use Rattle.board_run.specs.Charges.{measure_of};
ghost use Rattle.board_run.specs.Events.{is_return};
ghost use Rattle.board_run.specs.State.{known_so, Follows};
ghost use Rattle.board_run.specs.Tally.{counted, words_of};
ghost use Rattle.board_run.specs.Parts.{IsTurn, IsSpent};

use crate::seen::Seen;
use alp_io::{Failed, Report, Sink};
use energy_trace::ChargeKind;
use fram_board::{Board, NextStep, Stepped, acceptance_makes_its_stores};
use msp_cycles::cycles;
use msp_decode::{jump_instruction, one_operand_instruction, two_operand_instruction};
use msp_isa::Instr;
use msp_step::{Stop, Words};

/// What a turn of a charge came to.
pub enum Turn {
    /// This step was made, and so much is left of the charge.
    Left(u32, Stepped),
    /// The charge is spent.
    Spent,
    /// The board stopped.
    Stopped(Stop),
}

// What an instruction takes off a charge.
#[inline(always)]
fn price(kind: ChargeKind, instruction: &Instr) -> u32
    ensures { result ≡ price (measure_of kind) (Instruction instruction.now) }
{
    match kind {
        ChargeKind::Cycles => cycles(instruction),
        ChargeKind::Steps => 1,
    }
}

// What an acceptance takes off a charge.
fn acceptance_price(kind: ChargeKind) -> u32
    ensures { result ≡ price (measure_of kind) Acceptance }
{
    match kind {
        ChargeKind::Cycles => 6,
        ChargeKind::Steps => 1,
    }
}

// Whether an instruction is a RETI.
#[inline(always)]
fn is_return(instruction: &Instr) -> bool
    ensures { result ≡ is_return (kind_of (Instruction instruction.now)) }
{
    match instruction {
        Instr::Reti => true,
        Instr::Two { .. } => false,
        Instr::One(_) => false,
        Instr::Jump { .. } => false,
    }
}

// The board's next step is this instruction: it is executed, if what is left of the charge pays for it.
#[inline(always)]
fn execute<S: Sink>(
    board: &mut Board,
    instruction: &Instr,
    kind: ChargeKind,
    left: u32,
    watch: &mut Seen<'_>,
    report: &mut Report<'_, S>,
) -> Result<Turn, Failed>
    requires next { IsNextStep board.old (Instruction instruction.now) }
    requires some { 0 < left }
    requires follows { Follows watch.old board.old.fram }
    requires accepted { board.old.receiver.accepted < 2 ^ 64 - 1 }
    requires repeats { board.old.receiver.repeats < 2 ^ 64 - 1 }
    requires words { words_of (counted watch.old.tally) < 2 ^ 64 - 1 }
    ensures same_sink { report.new.sink.ghost_name ≡ report.old.sink.ghost_name }
    ensures follows { OnOk result (Follows watch.new board.new.fram) }
    ensures turn { IsTurn (known_so watch.old) (measure_of kind) left board.old
        (S.contents report.old.sink.now) (S.contents report.new.sink.now) result board.new (known_so watch.new) }
    ensures cause { HasCause (S.faults report.old.sink.now) (S.faults report.new.sink.now) result }
{
    let price = price(kind, instruction);
    if price > left {
        return Ok(Turn::Spent);
    }
    // Tells the proof that the memory is whole.
    let _taken = board.taken();
    let done = match board.execute(instruction) {
        Ok(done) => done,
        Err(stop) => return Ok(Turn::Stopped(stop)),
    };
    let stores = (done.wrote, None);
    watch.note(&done, stores, is_return(instruction), board, report)?;
    Ok(Turn::Left(left - price, done))
}

// The board's next step is an acceptance: it is made, if what is left of the charge pays for it.
#[inline(always)]
fn accept<S: Sink>(
    board: &mut Board,
    kind: ChargeKind,
    left: u32,
    watch: &mut Seen<'_>,
    report: &mut Report<'_, S>,
) -> Result<Turn, Failed>
    requires next { IsNextStep board.old Acceptance }
    requires some { 0 < left }
    requires follows { Follows watch.old board.old.fram }
    requires accepted { board.old.receiver.accepted < 2 ^ 64 - 1 }
    requires repeats { board.old.receiver.repeats < 2 ^ 64 - 1 }
    requires words { words_of (counted watch.old.tally) < 2 ^ 64 - 1 }
    ensures same_sink { report.new.sink.ghost_name ≡ report.old.sink.ghost_name }
    ensures follows { OnOk result (Follows watch.new board.new.fram) }
    ensures turn { IsTurn (known_so watch.old) (measure_of kind) left board.old
        (S.contents report.old.sink.now) (S.contents report.new.sink.now) result board.new (known_so watch.new) }
    ensures cause { HasCause (S.faults report.old.sink.now) (S.faults report.new.sink.now) result }
{
    let price = acceptance_price(kind);
    if left < price {
        return Ok(Turn::Spent);
    }
    let (to, below) = board.cpu().return_places();
    acceptance_makes_its_stores();
    let done = match board.perform(&NextStep::Acceptance) {
        Ok(done) => done,
        Err(stop) => return Ok(Turn::Stopped(stop)),
    };
    let stores = (Some(to), Some(below));
    watch.note(&done, stores, false, board, report)?;
    Ok(Turn::Left(left - price, done))
}

// The same of the instruction that these words are. The compiler makes each call's code for its form alone.
#[inline(always)]
fn execute_words<S: Sink>(
    board: &mut Board,
    words: Words,
    kind: ChargeKind,
    left: u32,
    watch: &mut Seen<'_>,
    report: &mut Report<'_, S>,
) -> Result<Turn, Failed>
    requires next { AreWordsOfStep board.old words }
    requires some { 0 < left }
    requires follows { Follows watch.old board.old.fram }
    requires accepted { board.old.receiver.accepted < 2 ^ 64 - 1 }
    requires repeats { board.old.receiver.repeats < 2 ^ 64 - 1 }
    requires words { words_of (counted watch.old.tally) < 2 ^ 64 - 1 }
    ensures same_sink { report.new.sink.ghost_name ≡ report.old.sink.ghost_name }
    ensures follows { OnOk result (Follows watch.new board.new.fram) }
    ensures turn { IsTurn (known_so watch.old) (measure_of kind) left board.old
        (S.contents report.old.sink.now) (S.contents report.new.sink.now) result board.new (known_so watch.new) }
    ensures cause { HasCause (S.faults report.old.sink.now) (S.faults report.new.sink.now) result }
{
    let Words {
        first,
        second,
        third,
    } = words;
    if first >= 0x4000 {
        let instruction = two_operand_instruction(first, second, third);
        execute(board, &instruction, kind, left, watch, report)
    } else if first >= 0x2000 {
        let jump = jump_instruction(first);
        execute(board, &jump, kind, left, watch, report)
    } else {
        let instruction = one_operand_instruction(first, second);
        execute(board, &instruction, kind, left, watch, report)
    }
}

/// One turn of a charge of which so much is left.
#[inline(always)]
pub fn take_turn<S: Sink>(
    board: &mut Board,
    kind: ChargeKind,
    left: u32,
    watch: &mut Seen<'_>,
    report: &mut Report<'_, S>,
) -> Result<Turn, Failed>
    requires follows { Follows watch.old board.old.fram }
    requires accepted { board.old.receiver.accepted < 2 ^ 64 - 1 }
    requires repeats { board.old.receiver.repeats < 2 ^ 64 - 1 }
    requires words { words_of (counted watch.old.tally) < 2 ^ 64 - 1 }
    ensures same_sink { report.new.sink.ghost_name ≡ report.old.sink.ghost_name }
    ensures follows { OnOk result (Follows watch.new board.new.fram) }
    ensures turn { IsTurn (known_so watch.old) (measure_of kind) left board.old
        (S.contents report.old.sink.now) (S.contents report.new.sink.now) result board.new (known_so watch.new) }
    ensures cause { HasCause (S.faults report.old.sink.now) (S.faults report.new.sink.now) result }
{
    if left == 0 {
        return Ok(Turn::Spent);
    }
    match board.current_words() {
        Ok(Some(words)) => execute_words(board, words, kind, left, watch, report),
        Ok(None) => accept(board, kind, left, watch, report),
        Err(stop) => Ok(Turn::Stopped(stop)),
    }
}

/// Spends what is left of a charge; answers why the board stopped, if it did.
pub fn spend<S: Sink>(
    board: &mut Board,
    kind: ChargeKind,
    amount: u32,
    watch: &mut Seen<'_>,
    report: &mut Report<'_, S>,
) -> Result<Option<Stop>, Failed>
    requires follows { Follows watch.old board.old.fram }
    requires accepted { board.old.receiver.accepted < 2 ^ 63 + 2 ^ 62 }
    requires repeats { board.old.receiver.repeats < 2 ^ 63 + 2 ^ 62 }
    requires words { words_of (counted watch.old.tally) < 2 ^ 63 + 2 ^ 62 }
    ensures same_sink { report.new.sink.ghost_name ≡ report.old.sink.ghost_name }
    ensures follows { OnOk result (Follows watch.new board.new.fram) }
    ensures spent { IsSpent (known_so watch.old) (measure_of kind) amount board.old
        (S.contents report.old.sink.now) (S.contents report.new.sink.now) result board.new (known_so watch.new) }
    ensures cause { HasCause (S.faults report.old.sink.now) (S.faults report.new.sink.now) result }
{
    let mut left = amount;
    loop {
        match take_turn(board, kind, left, watch, report)? {
            Turn::Left(rest, _done) => left = rest,
            Turn::Spent => return Ok(None),
            Turn::Stopped(stop) => return Ok(Some(stop)),
        }
    }
}
