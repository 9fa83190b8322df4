//! A report read entry by entry: how far it is good, or where it stops being so.
ghost use Rattle.std.specs.Prelude.{◌≡◌, ◌≤◌, ◌<◌, ◌^◌, ◌+◌, ◌*◌, ◌++◌, ℕ, List, [], All, length, take, drop, true, Some, None, IfSome, IfNone, IfOk, IfErr};
ghost use Rattle.std.specs.Prelude.{OnOk};
ghost use Rattle.alp_io.specs.Report.{bound_line, end_line};
ghost use Rattle.source_report.specs.task_ast.View.{program_of};
ghost use Rattle.source_values.specs.Runs.{Transition, first_state};
ghost use Rattle.source_values.specs.Running.{IsShaped};
ghost use Rattle.source_report.specs.SourceReport.{Committed, transition_lines};
ghost use Rattle.source_maps.specs.Names.{HasNames};
ghost use Rattle.text_parts.specs.Fields.{fields};
ghost use Rattle.report_audit.specs.Entry.{entry_of};
ghost use Rattle.report_audit.specs.declared.entry.Entry.TheVariants as entry;
ghost use Rattle.report_audit.specs.Fronts.{inputs_of, first_front, IsFront, IsGood, IsMadeOn, StandsUpTo, DiffersAt, first_line};
ghost use Rattle.report_audit.specs.Stops.{StopsBy};

use crate::compare::common_len;
use crate::expected::Expected;
use alp_io::{Failed, Reason, Report};
use source_meaning::Accepted;
use source_report::write_transition;
use source_values::{Done, Short, SourceRun};

/// How far a report is good.
#[derive(Clone, Copy)]
pub struct Front {
    /// So many of its bytes are whole transitions, behind the bound if it stands there.
    pub at: usize,
    /// How many transitions these are.
    pub transitions: u64,
    /// How many words they emitted.
    pub words: u64,
    /// Where the readings of the last of them end.
    pub position: u32,
}

impl Front {
    // The front before the first transition.
    fn first(at: usize) -> Front
        ensures { result ≡ first_front at }
    {
        Front {
            at,
            transitions: 0,
            words: 0,
            position: 0,
        }
    }
}

/// Why a report is read no further.
#[derive(Clone, Copy)]
pub enum Stop {
    /// It stops being good on the line where the byte behind so many stands.
    At(usize),
    /// Memory was refused.
    Memory,
}

// A line that is expected is written to memory alone.
impl From<Failed> for Stop {
    ghost use Rattle.std.specs.Prelude.{◌≡◌};
    ghost use Rattle.report_audit.specs.declared.front.Stop.TheVariants.{Memory};

    ghost from_gives = { λ _ e. e ≡ Memory };

    fn from(_failed: Failed) -> Self {
        Stop::Memory
    }
}

// The place behind a text that stands in the report from a place on; or else that of the first byte that isn't the same.
fn stands(report: &[u8], at: usize, text: &[u8]) -> Result<usize, usize>
    requires inside { at ≤ length report.now }
    ensures stands { IfOk result (StandsUpTo report.now at text.now) }
    ensures differs { IfErr result (DiffersAt report.now at text.now) }
{
    let common = common_len(&report[at..], text);
    if common == text.len() {
        Ok(at + common)
    } else {
        Err(at + common)
    }
}

// Runs the current task on exactly the readings of a span; nothing where the span isn't one behind the position, or the
// task comes to no transition on exactly these.
fn attempt(
    source: &Accepted,
    run: &mut SourceRun,
    readings: &[u16],
    position: u32,
    from: u64,
    to: u64,
) -> Option<Done>
    requires task { run.old.task < length (program_of source.now.checked.source).tasks }
    requires shaped { IsShaped (program_of source.now.checked.source) run.old.shared }
    requires few_readings { length readings.now < 2 ^ 32 }
    ensures made { IfSome result (λ done. IsMadeOn (program_of source.now.checked.source) readings.now position run.old.task run.old.shared
        (record { from = from; to = to })
        (record { from = done.from; next = done.next; before = run.new.before; after = run.new.shared; emitted = run.new.emitted })) }
    ensures next { IfSome result (λ done. (done.next ≡ run.new.task) × (run.new.task < length (program_of source.now.checked.source).tasks)) }
    ensures before { IfSome result (λ done. IsShaped (program_of source.now.checked.source) run.new.before) }
    ensures after { IfSome result (λ done. IsShaped (program_of source.now.checked.source) run.new.shared) }
    ensures few_emitted { IfSome result (λ done. length run.new.emitted ≤ 256) }
    ensures none { IfNone result ((t : Transition) → IsMadeOn (program_of source.now.checked.source) readings.now position run.old.task run.old.shared
        (record { from = from; to = to }) t → ⊥) }
{
    if from < position as u64 || to < from || (readings.len() as u64) < to {
        return None;
    }
    let given = &readings[from as usize..to as usize];
    match run.task_step(source.checked().source(), given) {
        Ok(done) => {
            if (done.used as usize) < given.len() {
                return None;
            }
            Some(done)
        }
        Err(Short) => None,
    }
}

// Writes the lines that the source tells of a transition that a run has just made.
fn tell_transition(
    expected: &mut Expected,
    source: &Accepted,
    run: &SourceRun,
    done: Done,
    k: u64,
    from: u32,
    to: u32,
) -> Result<(), Failed>
    requires before { IsShaped (program_of source.now.checked.source) run.now.before }
    requires after { IsShaped (program_of source.now.checked.source) run.now.shared }
    ensures { OnOk result (expected.new.bytes.items ≡ transition_lines source.now.text.items (program_of source.now.checked.source) k
        (record { from = from; to = to })
        (record { from = done.from; next = done.next; before = run.now.before; after = run.now.shared; emitted = run.now.emitted })) }
{
    expected.bytes.clear();
    let mut report = Report::new(expected);
    write_transition(
        &mut report,
        source.source(),
        source.checked().source(),
        run,
        done,
        k,
        from,
        to,
    )
}

// Writes the last line of a report of so many transitions.
fn tell_end(
    expected: &mut Expected,
    reason: Reason,
    t: u64,
    accepted: u64,
    repeats: u64,
) -> Result<(), Failed>
    ensures { OnOk result (expected.new.bytes.items ≡ end_line reason t accepted repeats) }
{
    expected.bytes.clear();
    Report::new(expected).end(reason, t, accepted, repeats)
}

fn tell_bound(expected: &mut Expected, bound: u32) -> Result<(), Failed>
    ensures few { bound < 2 ^ 32 }
    ensures line { OnOk result (expected.new.bytes.items ≡ bound_line bound) }
{
    expected.bytes.clear();
    Report::new(expected).bound(bound)
}

/// Where the transitions of a report begin: behind the line of the bound, if it stands there.
pub fn begin(
    expected: &mut Expected,
    source: &Accepted,
    readings: &[u16],
    report: &[u8],
) -> Result<Front, Stop>
    requires few { length report.now < 4294967295 }
    requires few_readings { length readings.now < 2 ^ 32 }
    requires names { HasNames source.now.text.items (program_of source.now.checked.source) }
    ensures front { IfOk result (λ f. IsFront (inputs_of source.now readings.now report.now) f
        (first_state (program_of source.now.checked.source)).task (first_state (program_of source.now.checked.source)).shared) }
    ensures stop { IfErr result (StopsBy (inputs_of source.now readings.now report.now)) }
{
    tell_bound(expected, source.allow().cycles)?;
    match stands(report, 0, &expected.bytes) {
        Ok(behind) => Ok(Front::first(behind)),
        Err(_) => Ok(Front::first(0)),
    }
}

/// Takes the lines of a transition on the readings of a span, whose first line stands at the front.
pub fn take_transition(
    expected: &mut Expected,
    source: &Accepted,
    run: &mut SourceRun,
    readings: &[u16],
    report: &[u8],
    front: Front,
    from: u64,
    to: u64,
) -> Result<Front, Stop>
    requires few { length report.now < 4294967295 }
    requires few_readings { length readings.now < 2 ^ 32 }
    requires names { HasNames source.now.text.items (program_of source.now.checked.source) }
    requires task { run.old.task < length (program_of source.now.checked.source).tasks }
    requires shaped { IsShaped (program_of source.now.checked.source) run.old.shared }
    requires front { IsFront (inputs_of source.now readings.now report.now) front run.old.task run.old.shared }
    requires entry { entry_of (fields (first_line (drop front.at report.now))) ≡ Some (entry.Transition from to) }
    ensures task { IfOk result (λ f. run.new.task < length (program_of source.now.checked.source).tasks) }
    ensures shaped { IfOk result (λ f. IsShaped (program_of source.now.checked.source) run.new.shared) }
    ensures onward { IfOk result (λ f. front.at < f.at) }
    ensures front { IfOk result (λ f. IsFront (inputs_of source.now readings.now report.now) f run.new.task run.new.shared) }
    ensures stop { IfErr result (StopsBy (inputs_of source.now readings.now report.now)) }
{
    let Some(done) = attempt(source, run, readings, front.position, from, to) else {
        return Err(Stop::At(front.at));
    };
    let transitions = front.transitions + 1;
    tell_transition(
        expected,
        source,
        run,
        done,
        transitions,
        from as u32,
        to as u32,
    )?;
    match stands(report, front.at, &expected.bytes) {
        Ok(at) => Ok(Front {
            at,
            transitions,
            words: front.words + run.emitted().len() as u64,
            position: to as u32,
        }),
        Err(place) => Err(Stop::At(place)),
    }
}

/// Takes the last line of a report, which stands at the front, and gives the number of transitions.
pub fn take_end(
    expected: &mut Expected,
    source: &Accepted,
    readings: &[u16],
    report: &[u8],
    front: Front,
    reason: Reason,
    accepted: u64,
    repeats: u64,
) -> Result<u64, Stop>
    requires few { length report.now < 4294967295 }
    requires few_readings { length readings.now < 2 ^ 32 }
    requires names { HasNames source.now.text.items (program_of source.now.checked.source) }
    requires front { (task : ℕ) × (shared : List (List ℕ)) × IsFront (inputs_of source.now readings.now report.now) front task shared }
    requires entry { entry_of (fields (first_line (drop front.at report.now))) ≡ Some (entry.End reason accepted repeats) }
    ensures good { IfOk result (IsGood (inputs_of source.now readings.now report.now) report.now) }
    ensures stop { IfErr result (StopsBy (inputs_of source.now readings.now report.now)) }
{
    if accepted < front.words {
        return Err(Stop::At(front.at));
    }
    tell_end(expected, reason, front.transitions, accepted, repeats)?;
    match stands(report, front.at, &expected.bytes) {
        Ok(at) if at == report.len() => Ok(front.transitions),
        Ok(at) => Err(Stop::At(at)),
        Err(place) => Err(Stop::At(place)),
    }
}
