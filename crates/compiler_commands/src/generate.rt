//! `gen N IMAGE`: the image of a generated source, put as an image text, and the four lines of its run on a generated trace.
ghost use Rattle.std.specs.Prelude.{◌≡◌, ◌<◌, ◌≤◌, ◌^◌, [], ℕ, List, IfOk, IfErr, length};
ghost use Rattle.plain_commands.specs.fram_board.Board.{fresh};
ghost use Rattle.plain_commands.specs.board_run.History.{start_of};
ghost use Rattle.plain_commands.specs.alp_io.Shelf.{NeverFall};
ghost use Rattle.task_ast.specs.View.{program_of};
ghost use Rattle.plain_commands.specs.source_meaning.Acceptance.{IsAcceptedText};
ghost use Rattle.source_generator.specs.Source.{generated_text};
ghost use Rattle.source_generator.specs.Trace as generator;
ghost use Rattle.source_runs.specs.Traces.{IsTraceOfWords};
ghost use Rattle.plain_commands.specs.command_answers.declared.failure.Failure.TheVariants.{Memory};
ghost use Rattle.plain_commands.specs.command_answers.Ending.{Ending, well};
ghost use Rattle.compiler_commands.specs.Generated.{RanSo};
ghost use Rattle.compiler_commands.specs.Built.{IsBuilt};
ghost use Rattle.plain_commands.specs.RunReport.{IsRunReport};
ghost use Rattle.compiler_commands.specs.ToldRuns.{IsToldOnTraces};
ghost use Rattle.plain_commands.specs.command_answers.CommandAnswers.{CommandAnswers, IsWhole, TextAnswers};
ghost use Rattle.plain_commands.specs.command_answers.Outcomes.{FailsBy};
ghost use Rattle.compiler_commands.specs.Gen.{gen_promise};

use crate::built::{Built, built_of};
use crate::gen_lines::{GenNumbers, write_lines};
use memory_map::Logging;
use plain_commands::answers::{Failure, Status, answer_failure, put_file};
use plain_commands::board_runs::{RunEnd, Watch, run};
use plain_commands::boards::Board;
use plain_commands::outside::{NullSink, Report, Shelf, Sink};
use plain_commands::texts::{Accepted, Image, Trace, source_of};
use source_generator::{generated_source, generated_trace};
use std::alloc::{AllocError, Global};

/// What stands on the line of `gen N IMAGE`.
#[derive(Clone, Copy)]
pub struct GenWords<'n> {
    /// The number N that the source and its trace are generated from.
    pub number: u32,
    /// The file that is to hold the image.
    pub image: &'n str,
}

// The trace of a number, for its source with this bound; `Memory` where memory was refused.
fn trace_of_number<'t>(alloc: Global, number: u32, bound: u32) -> Result<Trace, Failure<'t>>
    ensures trace { IfOk result (λ t. t ≡ generator.generated_trace number bound) }
    ensures words { IfOk result (λ t. IsTraceOfWords t) }
    ensures failure { IfErr result (λ e. e ≡ Memory) }
{
    let trace = generated_trace(alloc, number, bound)?;
    Ok(trace)
}

// Runs a board that is new from the image, whose run ends well; nothing is written. Takes no memory.
fn run_alone(image: &Image, trace: &Trace, board: &mut Board, watch: &mut Watch<'_>) -> RunEnd
    requires board { board.old ≡ fresh image.now.words trace.now.readings trace.now.events }
    requires watch { watch.old ≡ start_of image.now }
    requires ends_well { (ending : Ending) (output : List ℕ) → IsRunReport image.now trace.now ending output → ending ≡ well }
    ensures { RanSo image.now trace.now result board.new watch.new }
{
    let _ = image;
    let mut sink = NullSink;
    let mut report = Report::new(&mut sink);
    match run(board, trace, watch, &mut report) {
        Ok(end) => end,
        Err(_) => unreachable!(),
    }
}

// Puts the image of the source that is generated from the number, and writes the four lines of its run on the number's trace. All memory
// but that of the put is taken before it.
fn put_generated<'t, H: Shelf, O: Sink>(
    alloc: Global,
    words: GenWords<'t>,
    source: &Accepted,
    trace: &Trace,
    built: &Built,
    shelf: &mut H,
    out: &mut O,
) -> Result<(), Failure<'t>>
    requires generated { source.now.text.items ≡ generated_text words.number }
    requires accepted { IsAcceptedText source.now.text.items (program_of source.now.checked.source) source.now.allow }
    requires trace { trace.now ≡ generator.generated_trace words.number source.now.allow.cycles }
    requires words { IsTraceOfWords trace.now }
    requires built { IsBuilt source.now.text.items (program_of source.now.checked.source) source.now.allow built.now.image built.now.text.items }
    requires told { IsToldOnTraces source.now.text.items (program_of source.now.checked.source) built.now.image }
    ensures counts { NeverFall (H.counts shelf.old) (H.counts shelf.new) }
    ensures faults { O.faults out.old ≤ O.faults out.new }
    ensures whole { IfOk result (λ _. IsWhole (gen_promise words.entry.number words.entry.image.now) [] well
        (record { old = H.files shelf.old; new = H.files shelf.new; counts_old = H.counts shelf.old; counts_new = H.counts shelf.new })
        (record { old = O.contents out.old; new = O.contents out.new; faults_old = O.faults out.old; faults_new = O.faults out.new })) }
    ensures failure { IfErr result (λ e. FailsBy e (gen_promise words.entry.number words.entry.image.now) []
        (record { old = H.files shelf.old; new = H.files shelf.new; counts_old = H.counts shelf.old; counts_new = H.counts shelf.new })
        (record { old = O.contents out.old; new = O.contents out.new; faults_old = O.faults out.old; faults_new = O.faults out.new })) }
{
    let mut board = Board::new(alloc, &built.image, trace.readings(), trace.events())?;
    let mut watch = Watch::new(alloc, &built.image)?;
    put_file(alloc, shelf, words.image, built.text.as_slice())?;
    let end = run_alone(&built.image, trace, &mut board, &mut watch);
    let numbers = GenNumbers {
        number: words.number,
        bound: source.allow().cycles,
    };
    write_lines(out, numbers, end, &board, &watch)?;
    Ok(())
}

/// Puts the image of the source that is generated from the number, and writes the four lines of its run. All memory but that of the put
/// is taken before it.
///
/// # Errors
/// `Refused` for the source's first fault, `Memory` where memory was refused; no file is changed and nothing is written then. `Put`
/// where the put failed, and the file of the image may hold anything or be absent. `Write` where a write failed behind it, and the
/// output gained a proper prefix of the lines.
pub fn gen_texts<'t, H: Shelf, O: Sink>(
    alloc: Global,
    words: GenWords<'t>,
    text: &'t [u8],
    shelf: &mut H,
    out: &mut O,
) -> Result<(), Failure<'t>>
    requires short { length text.now ≤ 1048576 }
    requires generated { text.now ≡ generated_text words.number }
    ensures counts { NeverFall (H.counts shelf.old) (H.counts shelf.new) }
    ensures faults { O.faults out.old ≤ O.faults out.new }
    ensures whole { IfOk result (λ _. IsWhole (gen_promise words.entry.number words.entry.image.now) [] well
        (record { old = H.files shelf.old; new = H.files shelf.new; counts_old = H.counts shelf.old; counts_new = H.counts shelf.new })
        (record { old = O.contents out.old; new = O.contents out.new; faults_old = O.faults out.old; faults_new = O.faults out.new })) }
    ensures failure { IfErr result (λ e. FailsBy e (gen_promise words.entry.number words.entry.image.now) []
        (record { old = H.files shelf.old; new = H.files shelf.new; counts_old = H.counts shelf.old; counts_new = H.counts shelf.new })
        (record { old = O.contents out.old; new = O.contents out.new; faults_old = O.faults out.old; faults_new = O.faults out.new })) }
{
    let source = source_of(alloc, "gen", text)?;
    let trace = trace_of_number(alloc, words.number, source.allow().cycles)?;
    let built = built_of(alloc, Logging::Redo, &source)?;
    put_generated(alloc, words, &source, &trace, &built, shelf, out)
}

fn gen_of<H: Shelf, O: Sink, E: Sink>(
    alloc: Global,
    words: GenWords<'_>,
    text: &[u8],
    shelf: &mut H,
    out: &mut O,
    err: &mut E,
) -> Status
    requires short { length text.now ≤ 1048576 }
    requires generated { text.now ≡ generated_text words.number }
    ensures counts { NeverFall (H.counts shelf.old) (H.counts shelf.new) }
    ensures out_faults { O.faults out.old ≤ O.faults out.new }
    ensures err_faults { E.faults err.old ≤ E.faults err.new }
    ensures answers { TextAnswers result (gen_promise words.entry.number words.entry.image.now) []
        (record { old = H.files shelf.old; new = H.files shelf.new; counts_old = H.counts shelf.old; counts_new = H.counts shelf.new })
        (record { old = O.contents out.old; new = O.contents out.new; faults_old = O.faults out.old; faults_new = O.faults out.new })
        (record { old = E.contents err.old; new = E.contents err.new; faults_old = E.faults err.old; faults_new = E.faults err.new }) }
{
    match gen_texts(alloc, words, text, shelf, out) {
        Ok(()) => Status::Done,
        Err(failure) => answer_failure(err, failure),
    }
}

/// The answer to `gen N IMAGE`, which reads no file.
pub fn answer_gen<H: Shelf, O: Sink, E: Sink>(
    alloc: Global,
    number: u32,
    image: &str,
    shelf: &mut H,
    out: &mut O,
    err: &mut E,
) -> Status
    ensures number { number < 2 ^ 32 }
    ensures counts { NeverFall (H.counts shelf.old) (H.counts shelf.new) }
    ensures out_faults { O.faults out.old ≤ O.faults out.new }
    ensures err_faults { E.faults err.old ≤ E.faults err.new }
    ensures answers { CommandAnswers result (gen_promise number image.now)
        (record { old = H.files shelf.old; new = H.files shelf.new; counts_old = H.counts shelf.old; counts_new = H.counts shelf.new })
        (record { old = O.contents out.old; new = O.contents out.new; faults_old = O.faults out.old; faults_new = O.faults out.new })
        (record { old = E.contents err.old; new = E.contents err.new; faults_old = E.faults err.old; faults_new = E.faults err.new }) }
{
    match generated_source(alloc, number) {
        Ok(text) => gen_of(
            alloc,
            GenWords { number, image },
            text.as_slice(),
            shelf,
            out,
            err,
        ),
        Err(AllocError) => answer_failure(err, Failure::Memory),
    }
}
