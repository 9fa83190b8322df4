//! Laws of a board's run and its source. The functions do nothing: their contracts are the laws.

ghost use Rattle.source_values.specs.Runs.{State};
ghost use Rattle.crash_rules.specs.Model.{Model};
ghost use Rattle.crash_rules.specs.Runs.{Program};
ghost use Rattle.source_runs.specs.Laws.{ResumedRunsAreTold, RunsAreTold, TracesAreFew};
ghost use Rattle.source_runs.specs.EventLaws.{DonesAreTransitions};

/// The lines of dones that stand for transitions are those that the source's report has for these transitions, on the
/// committed readings of the dones.
pub fn dones_are_transitions()
    ensures { DonesAreTransitions }
{}

/// A compiled source as the law sees it.
pub trait Told {
    /// The source, its runtime, and what FRAM stands for.
    ghost model: { Model State };

    /// Its code.
    ghost program: { Program };
}

/// The report of a run is the source's report on the committed readings of its transitions, behind the bound and before the lines
/// that say what became of its events, of which none is accepted, and how it ended; it never ends at a fault, nor for want of a
/// reading but where the source is short; and each charge of n bounds that is spent has n transitions, as has one that holds the bounds of
/// the next n tasks.
pub fn run_is_told_by_its_source<S: Told>()
    ensures { RunsAreTold S.model S.program }
{}

/// So is the report of a run that goes on from a state that the board has, from that state on; and of one that begins with a pending commit,
/// from the state on that this leaves, behind the commit's own transition, once it's done.
pub fn resumed_run_is_told_by_its_source<S: Told>()
    ensures { ResumedRunsAreTold S.model S.program }
{}

/// The charges of a trace leave words at each power-up, and are so few that no count of a run's transitions comes to its end.
pub fn traces_are_few()
    ensures { TracesAreFew }
{}
