//! `resume IMAGE STATE TRACE`: the report of the run that goes on from a saved state.
ghost use Rattle.std.specs.Prelude.{◌≡◌, ◌≤◌, ◌∷◌, [], IfOk, IfErr, length};
ghost use Rattle.plain_commands.specs.alp_io.Shelf.{NeverFall};
ghost use Rattle.fram_state.specs.Belongs.{Belongs};
ghost use Rattle.plain_commands.specs.Ends.{ending_of};
ghost use Rattle.plain_commands.specs.command_answers.Outside.{WhereSilent, WhereStands};
ghost use Rattle.plain_commands.specs.command_answers.CommandAnswers.{CommandAnswers, IsWhole, TextAnswers};
ghost use Rattle.plain_commands.specs.command_answers.Outcomes.{FailsBy, FailsRefused};
ghost use Rattle.state_commands.specs.Resumed as told;
ghost use Rattle.state_commands.specs.Resumed.{RefusesOther, IsResumption, ResumesOnWords, resume_promise};
ghost use Rattle.plain_commands.specs.command_answers.Views.{detail_of, refusal_of};

use crate::state_words::is_of_words;
use fram_state::{StateFault, belongs};
use plain_commands::answers::{
    Detail, Failure, Refusal, Status, ThreeTexts, answer_failure, answer_unread, messages,
    read_three_texts,
};
use plain_commands::boards::Board;
use plain_commands::outside::{Shelf, Sink};
use plain_commands::texts::{Image, State, Trace, image_of, state_of, trace_of};
use plain_commands::{RunEnding, write_run};
use std::alloc::Global;

/// The names of the files of `resume IMAGE STATE TRACE`.
#[derive(Clone, Copy)]
pub struct ResumeNames<'n> {
    /// The file of the image.
    pub image: &'n str,
    /// The file of the state.
    pub state: &'n str,
    /// The file of the trace.
    pub trace: &'n str,
}

/// What the texts of a call say.
#[derive(Drop)]
struct Resumption {
    image: Image,
    state: State,
    trace: Trace,
}

// A refusal of a whole state, which keeps this.
fn of_state<'t>(kind: &'static str, detail: Detail<'t>) -> Refusal<'t>
    ensures { refusal_of result ≡ told.of_state kind.now (detail_of detail.entry) }
{
    Refusal {
        line: 0,
        kind,
        detail,
    }
}

// What is told of a state that a board may not go on from.
fn state_refusal<'t>(fault: StateFault) -> Refusal<'t>
    ensures { refusal_of result ≡ told.state_refusal fault }
{
    match fault {
        StateFault::OtherMap => of_state("OtherImage", Detail::Name(b"map")),
        StateFault::OtherWord { address } => of_state("OtherImage", Detail::Address(address)),
        StateFault::Unsound { rule } => of_state("Unsound", Detail::Name(rule.name())),
    }
}

/// Asks whether the state of a named file belongs to an image; takes no memory.
///
/// # Errors
/// `Refused` with what keeps it from that.
pub fn check_belongs<'t>(file: &'t str, image: &Image, state: &State) -> Result<(), Failure<'t>>
    ensures belongs { IfOk result (λ _. Belongs image.now state.now) }
    ensures refused { IfErr result (FailsRefused file.now (RefusesOther image.now state.now)) }
{
    match belongs(image, state) {
        Ok(()) => Ok(()),
        Err(fault) => Err(Failure::Refused {
            file,
            refusal: state_refusal(fault),
        }),
    }
}

// What the texts say; or the first that is refused.
fn resumption_of<'t>(
    alloc: Global,
    names: ResumeNames<'t>,
    image: &[u8],
    state: &[u8],
    trace: &[u8],
) -> Result<Resumption, Failure<'t>>
    requires image { length image.now ≤ 1048576 }
    requires state { length state.now ≤ 1048576 }
    requires trace { length trace.now ≤ 1048576 }
    ensures said { IfOk result (λ r. IsResumption image.now state.now trace.now r.image r.state r.trace) }
    ensures failure { IfErr result (λ e. WhereStands (λ shelf. WhereSilent (FailsBy e
        (resume_promise ResumesOnWords names.entry.image.now names.entry.state.now names.entry.trace.now) (image.now ∷ state.now ∷ trace.now ∷ []) shelf))) }
{
    let image = image_of(alloc, names.image, image)?;
    let state = state_of(alloc, names.state, state)?;
    let trace = trace_of(alloc, names.trace, trace)?;
    Ok(Resumption {
        image,
        state,
        trace,
    })
}

/// Writes the report of the run that goes on from the state that the second text is, which has to belong to the image that the first is, on
/// the trace that the third is, and answers how it ended.
///
/// # Errors
/// `Refused` for the first text that is refused, and behind all faults of the texts for a state that doesn't belong to the image; `Memory`
/// where memory was refused; nothing is written then. `Write` where a write failed, and the output gained a proper prefix of the report.
pub fn resume_texts<'t, O: Sink>(
    alloc: Global,
    names: ResumeNames<'t>,
    image: &[u8],
    state: &[u8],
    trace: &[u8],
    out: &mut O,
) -> Result<RunEnding, Failure<'t>>
    requires image { length image.now ≤ 1048576 }
    requires state { length state.now ≤ 1048576 }
    requires trace { length trace.now ≤ 1048576 }
    ensures faults { O.faults out.old ≤ O.faults out.new }
    ensures whole { IfOk result (λ ending. WhereStands (λ shelf. IsWhole
        (resume_promise ResumesOnWords names.entry.image.now names.entry.state.now names.entry.trace.now)
        (image.now ∷ state.now ∷ trace.now ∷ []) (ending_of ending) shelf
        (record { old = O.contents out.old; new = O.contents out.new; faults_old = O.faults out.old; faults_new = O.faults out.new }))) }
    ensures failure { IfErr result (λ e. WhereStands (λ shelf. FailsBy e
        (resume_promise ResumesOnWords names.entry.image.now names.entry.state.now names.entry.trace.now) (image.now ∷ state.now ∷ trace.now ∷ []) shelf
        (record { old = O.contents out.old; new = O.contents out.new; faults_old = O.faults out.old; faults_new = O.faults out.new }))) }
{
    let said = resumption_of(alloc, names, image, state, trace)?;
    check_belongs(names.state, &said.image, &said.state)?;
    is_of_words(&said.state);
    let readings = said.trace.readings();
    let mut board = Board::from_state(alloc, &said.state, readings, said.trace.events())?;
    write_run(alloc, out, &mut board, &said.state.image, &said.trace)
}

fn resume_of<O: Sink, E: Sink>(
    alloc: Global,
    names: ResumeNames<'_>,
    texts: &ThreeTexts,
    out: &mut O,
    err: &mut E,
) -> Status
    requires image { length texts.now.first.items ≤ 1048576 }
    requires state { length texts.now.second.items ≤ 1048576 }
    requires trace { length texts.now.third.items ≤ 1048576 }
    ensures out_faults { O.faults out.old ≤ O.faults out.new }
    ensures err_faults { E.faults err.old ≤ E.faults err.new }
    ensures answers { WhereStands (λ shelf. TextAnswers result
        (resume_promise ResumesOnWords names.entry.image.now names.entry.state.now names.entry.trace.now)
        (texts.now.first.items ∷ texts.now.second.items ∷ texts.now.third.items ∷ []) shelf
        (record { old = O.contents out.old; new = O.contents out.new; faults_old = O.faults out.old; faults_new = O.faults out.new })
        (record { old = E.contents err.old; new = E.contents err.new; faults_old = E.faults err.old; faults_new = E.faults err.new })) }
{
    match resume_texts(alloc, names, &texts.first, &texts.second, &texts.third, out) {
        Ok(RunEnding::Well) => Status::Done,
        Ok(RunEnding::AtFault) => {
            messages::tell_machine_fault(err);
            Status::MachineFault
        }
        Err(failure) => answer_failure(err, failure),
    }
}

/// The answer to `resume IMAGE STATE TRACE`.
pub fn answer_resume<H: Shelf, O: Sink, E: Sink>(
    alloc: Global,
    names: ResumeNames<'_>,
    shelf: &mut H,
    out: &mut O,
    err: &mut E,
) -> Status
    ensures counts { NeverFall (H.counts shelf.old) (H.counts shelf.new) }
    ensures out_faults { O.faults out.old ≤ O.faults out.new }
    ensures err_faults { E.faults err.old ≤ E.faults err.new }
    ensures answers { CommandAnswers result (resume_promise ResumesOnWords names.entry.image.now names.entry.state.now names.entry.trace.now)
        (record { old = H.files shelf.old; new = H.files shelf.new; counts_old = H.counts shelf.old; counts_new = H.counts shelf.new })
        (record { old = O.contents out.old; new = O.contents out.new; faults_old = O.faults out.old; faults_new = O.faults out.new })
        (record { old = E.contents err.old; new = E.contents err.new; faults_old = E.faults err.old; faults_new = E.faults err.new }) }
{
    match read_three_texts(alloc, shelf, names.image, names.state, names.trace) {
        Ok(texts) => resume_of(alloc, names, &texts, out, err),
        Err(unread) => answer_unread(err, unread),
    }
}
