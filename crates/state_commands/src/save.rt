//! `save IMAGE TRACE STATE`: the state of the board at the end of an image's run, put as a state text.
ghost use Rattle.std.specs.Prelude.{◌≡◌, ◌≤◌, ◌∷◌, [], Ok, IfOk, IfErr, length};
ghost use Rattle.plain_commands.specs.alp_io.Count.{HasCause};
ghost use Rattle.plain_commands.specs.alp_io.Shelf.{NeverFall};
ghost use Rattle.plain_commands.specs.alp_io.Sink.{Writes};
ghost use Rattle.plain_commands.specs.fram_board.Saved.{saved};
ghost use Rattle.plain_commands.specs.board_run.declared.trace_run.RunFault.TheVariants.{Write};
ghost use Rattle.plain_commands.specs.state_text.Reading.{state_of};
ghost use Rattle.plain_commands.specs.state_text.Text.{state_text};
ghost use Rattle.plain_commands.specs.command_answers.declared.failure.Failure.TheVariants.{Memory};
ghost use Rattle.plain_commands.specs.Ends.{ending_of};
ghost use Rattle.state_commands.specs.Saved.{RunsOnWords, RanFrom, RanOn, told_end, told_fault, save_promise};
ghost use Rattle.plain_commands.specs.command_answers.CommandAnswers.{CommandAnswers, IsWhole, TextAnswers};
ghost use Rattle.plain_commands.specs.command_answers.Outcomes.{FailsBy};
ghost use Rattle.plain_commands.specs.command_answers.Outside.{WhereSilent, WhereStands};

use crate::state_words::is_of_words;
use plain_commands::answers::{
    Failure, Status, answer_failure, answer_unread, messages, put_file, read_texts,
};
use plain_commands::board_runs::{RunEnd, RunFault, Watch, run};
use plain_commands::boards::Board;
use plain_commands::outside::{Failed, NullSink, Report, Shelf, Sink};
use plain_commands::texts::{State, Trace, print_state, state_of, trace_of};
use plain_commands::{RunEnding, reason_of};
use std::alloc::Global;

/// The names of the files of `save IMAGE TRACE STATE`.
#[derive(Clone, Copy)]
pub struct SaveNames<'n> {
    /// The file of the image, which may be a state.
    pub image: &'n str,
    /// The file of the trace.
    pub trace: &'n str,
    /// The file that is to hold the state.
    pub state: &'n str,
}

/// The texts of a run that is saved.
#[derive(Clone, Copy)]
pub struct SaveTexts<'t> {
    /// The bytes of the image.
    pub image: &'t [u8],
    /// The bytes of the trace.
    pub trace: &'t [u8],
}

/// A run of which no line was written.
#[derive(Drop)]
struct SilentRun {
    /// How it ended.
    end: Result<RunEnd, RunFault>,
    /// How many transitions it completed.
    completed: u64,
    /// The board at its end.
    board: Board,
}

/// A state, and the run that went on from it.
#[derive(Drop)]
struct StateRun {
    state: State,
    ran: SilentRun,
}

// Runs the board that goes on from a state to its end; nothing is written. `Memory` where memory was refused.
fn run_from<'t>(alloc: Global, state: &State, trace: &Trace) -> Result<SilentRun, Failure<'t>>
    ensures ran { IfOk result (λ r. RanFrom state.now trace.now r.end r.board r.completed) }
    ensures failure { IfErr result (λ e. e ≡ Memory) }
{
    let mut board = Board::from_state(alloc, state, trace.readings(), trace.events())?;
    let mut watch = Watch::new(alloc, &state.image)?;
    let mut sink = NullSink;
    let mut report = Report::new(&mut sink);
    let end = run(&mut board, trace, &mut watch, &mut report);
    let completed = watch.completed();
    Ok(SilentRun {
        end,
        completed,
        board,
    })
}

// Writes the last line of the report of a run that ended so. Takes no memory.
fn write_end<O: Sink>(out: &mut O, end: RunEnd, ran: &SilentRun) -> Result<(), Failed>
    ensures bytes { Writes (O.contents out.old) (O.contents out.new) result (told_end end ran.now.completed ran.now.board) }
    ensures cause { HasCause (O.faults out.old) (O.faults out.new) result }
{
    let mut report = Report::new(out);
    report.end(
        reason_of(end),
        ran.completed,
        ran.board.accepted(),
        ran.board.repeats(),
    )
}

// Writes the line of the machine fault that a run met. Takes no memory.
fn write_fault<O: Sink>(out: &mut O, fault: RunFault) -> Result<(), Failed>
    requires { fault ≡ Write → ⊥ }
    ensures bytes { Writes (O.contents out.old) (O.contents out.new) result (told_fault fault) }
    ensures cause { HasCause (O.faults out.old) (O.faults out.new) result }
{
    let mut report = Report::new(out);
    match fault {
        RunFault::Illegal { pc, word } => report.illegal(pc, word),
        RunFault::Bus { pc, address } => report.bus(pc, address),
        RunFault::Write => unreachable!(),
    }
}

// The text of what is saved of a board, with the map of the state that it went on from; `Memory` where memory was refused.
fn saved_text<'t>(alloc: Global, board: &Board, state: State) -> Result<Vec<u8>, Failure<'t>>
    ensures text { IfOk result (λ v. v.items ≡ state_text (saved board.now state.image.map)) }
    ensures reads_back { IfOk result (λ v. state_of v.items ≡ Ok (saved board.now state.image.map)) }
    ensures failure { IfErr result (λ e. e ≡ Memory) }
{
    let mut state = state;
    board.save_into(&mut state);
    let text = print_state(alloc, &state)?;
    Ok(text)
}

// Runs the image or the state that the first text is on the trace that the second is; or the first text that is refused.
fn state_run_of<'t>(
    alloc: Global,
    names: SaveNames<'t>,
    texts: SaveTexts<'_>,
) -> Result<StateRun, Failure<'t>>
    requires image { length texts.image.now ≤ 1048576 }
    requires trace { length texts.trace.now ≤ 1048576 }
    ensures ran { IfOk result (λ r. RanOn texts.entry.image.now texts.entry.trace.now r.state r.ran.end r.ran.board r.ran.completed) }
    ensures failure { IfErr result (λ e. WhereStands (λ shelf. WhereSilent (FailsBy e
        (save_promise RunsOnWords names.entry.image.now names.entry.trace.now names.entry.state.now)
        (texts.entry.image.now ∷ texts.entry.trace.now ∷ []) shelf))) }
{
    let state = state_of(alloc, names.image, texts.image)?;
    let trace = trace_of(alloc, names.trace, texts.trace)?;
    is_of_words(&state);
    let ran = run_from(alloc, &state, &trace)?;
    Ok(StateRun { state, ran })
}

/// Runs the image or the state that the first text is on the trace that the second is, puts the state at the run's end, and writes the
/// last line of the run's report. At a machine fault nothing is put. All memory but that of the put is taken before it.
///
/// # Errors
/// `Refused` for the first text that is refused, `Memory` where memory was refused; no file is changed and nothing is written then. `Put`
/// where the put failed, and the file of the state may hold anything or be absent. `Write` where a write failed behind it, and the
/// output gained a proper prefix of the line.
pub fn save_texts<'t, H: Shelf, O: Sink>(
    alloc: Global,
    names: SaveNames<'t>,
    texts: SaveTexts<'_>,
    shelf: &mut H,
    out: &mut O,
) -> Result<RunEnding, Failure<'t>>
    requires image { length texts.image.now ≤ 1048576 }
    requires trace { length texts.trace.now ≤ 1048576 }
    ensures counts { NeverFall (H.counts shelf.old) (H.counts shelf.new) }
    ensures faults { O.faults out.old ≤ O.faults out.new }
    ensures whole { IfOk result (λ ending. IsWhole (save_promise RunsOnWords names.entry.image.now names.entry.trace.now names.entry.state.now)
        (texts.entry.image.now ∷ texts.entry.trace.now ∷ []) (ending_of ending)
        (record { old = H.files shelf.old; new = H.files shelf.new; counts_old = H.counts shelf.old; counts_new = H.counts shelf.new })
        (record { old = O.contents out.old; new = O.contents out.new; faults_old = O.faults out.old; faults_new = O.faults out.new })) }
    ensures failure { IfErr result (λ e. FailsBy e (save_promise RunsOnWords names.entry.image.now names.entry.trace.now names.entry.state.now)
        (texts.entry.image.now ∷ texts.entry.trace.now ∷ [])
        (record { old = H.files shelf.old; new = H.files shelf.new; counts_old = H.counts shelf.old; counts_new = H.counts shelf.new })
        (record { old = O.contents out.old; new = O.contents out.new; faults_old = O.faults out.old; faults_new = O.faults out.new })) }
{
    let state_run = state_run_of(alloc, names, texts)?;
    match state_run.ran.end {
        Ok(end) => {
            let StateRun { state, ran } = state_run;
            let text = saved_text(alloc, &ran.board, state)?;
            put_file(alloc, shelf, names.state, text.as_slice())?;
            write_end(out, end, &ran)?;
            Ok(RunEnding::Well)
        }
        Err(fault) => {
            write_fault(out, fault)?;
            Ok(RunEnding::AtFault)
        }
    }
}

fn save_of<H: Shelf, O: Sink, E: Sink>(
    alloc: Global,
    names: SaveNames<'_>,
    texts: SaveTexts<'_>,
    shelf: &mut H,
    out: &mut O,
    err: &mut E,
) -> Status
    requires image { length texts.image.now ≤ 1048576 }
    requires trace { length texts.trace.now ≤ 1048576 }
    ensures counts { NeverFall (H.counts shelf.old) (H.counts shelf.new) }
    ensures out_faults { O.faults out.old ≤ O.faults out.new }
    ensures err_faults { E.faults err.old ≤ E.faults err.new }
    ensures answers { TextAnswers result (save_promise RunsOnWords names.entry.image.now names.entry.trace.now names.entry.state.now)
        (texts.entry.image.now ∷ texts.entry.trace.now ∷ [])
        (record { old = H.files shelf.old; new = H.files shelf.new; counts_old = H.counts shelf.old; counts_new = H.counts shelf.new })
        (record { old = O.contents out.old; new = O.contents out.new; faults_old = O.faults out.old; faults_new = O.faults out.new })
        (record { old = E.contents err.old; new = E.contents err.new; faults_old = E.faults err.old; faults_new = E.faults err.new }) }
{
    match save_texts(alloc, names, texts, shelf, out) {
        Ok(RunEnding::Well) => Status::Done,
        Ok(RunEnding::AtFault) => {
            messages::tell_machine_fault(err);
            Status::MachineFault
        }
        Err(failure) => answer_failure(err, failure),
    }
}

/// The answer to `save IMAGE TRACE STATE`.
pub fn answer_save<H: Shelf, O: Sink, E: Sink>(
    alloc: Global,
    names: SaveNames<'_>,
    shelf: &mut H,
    out: &mut O,
    err: &mut E,
) -> Status
    ensures counts { NeverFall (H.counts shelf.old) (H.counts shelf.new) }
    ensures out_faults { O.faults out.old ≤ O.faults out.new }
    ensures err_faults { E.faults err.old ≤ E.faults err.new }
    ensures answers { CommandAnswers result (save_promise RunsOnWords names.entry.image.now names.entry.trace.now names.entry.state.now)
        (record { old = H.files shelf.old; new = H.files shelf.new; counts_old = H.counts shelf.old; counts_new = H.counts shelf.new })
        (record { old = O.contents out.old; new = O.contents out.new; faults_old = O.faults out.old; faults_new = O.faults out.new })
        (record { old = E.contents err.old; new = E.contents err.new; faults_old = E.faults err.old; faults_new = E.faults err.new }) }
{
    match read_texts(alloc, shelf, names.image, names.trace) {
        Ok(texts) => save_of(
            alloc,
            names,
            SaveTexts {
                image: texts.first.as_slice(),
                trace: texts.second.as_slice(),
            },
            shelf,
            out,
            err,
        ),
        Err(unread) => answer_unread(err, unread),
    }
}
