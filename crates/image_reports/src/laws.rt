//! The headline, and the capacities and the stacks of a run. The functions do nothing: their contracts are the laws.

ghost use Rattle.image_reports.specs.Laws.{ImagesAreMapped, ImagesAreTold, ImagesKeepCapacities, ImagesKeepToNeeds, ImagesAnswerInOrder};
ghost use Rattle.image_reports.specs.Laws.{ImagesKeepTheirStacks};
ghost use Rattle.crash_rules.specs.Runs.{Program};
ghost use Rattle.image_reports.specs.CompiledLaws.{CompiledRunsAreTold, ModelsAreOfSources};

/// The code of a compiled source as the laws see it.
pub trait Coded {
    /// Its code.
    ghost program: { Program };
}

/// The tasks of a compiled source's model are the source's transitions.
pub fn models_are_of_sources()
    ensures { ModelsAreOfSources }
{}

/// The report of a run of a compiled source is the source's report on the committed readings of its transitions, given the answers that
/// its `next_event()` had, behind the bound and before the lines that say what became of its events and how it ended; each charge of n
/// bounds, and of 100 for each event that arose in it, that is spent has n transitions, as has one that holds the bounds of the next n tasks.
pub fn compiled_runs_are_told<S: Coded>()
    ensures { CompiledRunsAreTold S.program }
{}

/// The report of the run of an accepted source's image on a trace is the source's report on the committed readings of its
/// transitions, given the answers that its `next_event()` had, behind the bound and before the lines that say what became of the trace's
/// events and how it ended; the run never ends at a fault, and for want of a reading only where the source is short; and each charge of n
/// bounds, and of 100 for each event that arose in it, that is spent has n transitions, as has one that holds the bounds of the next n tasks.
pub fn images_are_told()
    ensures { ImagesAreTold }
{}

/// The answers that are not 0, of the transitions of such a run, joined, are the first of the events that its handler accepted, in order: each is
/// had by one transition, once.
pub fn images_answer_in_order()
    ensures { ImagesAnswerInOrder }
{}

/// The map of an accepted source's image names the source's variables and tasks, in order.
pub fn images_are_mapped()
    ensures { ImagesAreMapped }
{}

/// At each board of such a run the commit list and the emit buffer are within their capacities, and no version word is above VER.
pub fn images_keep_capacities()
    ensures { ImagesKeepCapacities }
{}

/// At each board of such a run that stands in the code of a task, or in that of a function for it, SP is in the task's stack: no lower than the words that the
/// source's stack counts for it, 16 of which are left to handlers, and no higher than where it begins.
pub fn images_keep_their_stacks()
    ensures { ImagesKeepTheirStacks }
{}

/// Each charge of such a run that is spent is less than what the tasks need whose transitions were completed in it, and the one that was to come, by the
/// code that is linked, and 100 cycles for each event that arose in it. So one that holds what the next n tasks need has n transitions.
pub fn images_keep_to_needs()
    ensures { ImagesKeepToNeeds }
{}
