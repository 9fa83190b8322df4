//! Laws of runs that are cut anywhere. The functions do nothing: their contracts are the laws.

ghost use Rattle.std.specs.Prelude.{ℕ};
ghost use Rattle.crash_rules.specs.Model.{Model};
ghost use Rattle.crash_rules.specs.History.{EventsOfInstructions};
ghost use Rattle.crash_rules.specs.Runs.{Program};
ghost use Rattle.crash_rules.specs.Laws.{CrashTheorem, NeverLost, PendingSends, PendingSpansFollow, ProgressLaw, RunsMayBegin, SentOnce, SpansFollow};
ghost use Rattle.crash_rules.specs.Laws.{InstructionsPay, StopsShort, StoresOnly, TasksPay};

/// A compiled program as the laws see it. The type is what a state of its source is.
pub trait Compiled {
    /// The source, its runtime, and what FRAM stands for.
    ghost model: { Model Self };

    /// Its code.
    ghost program: { Program };

    /// Which stores its attempts and commits may make, by address and word.
    ghost may_store: { ℕ → ℕ → Type 0 };
}

/// A run may begin with a world that is undecided at a state of the source, or whose commit is pending.
pub fn runs_may_begin<S: Compiled>()
    ensures { RunsMayBegin S.model }
{}

/// After any charges, each cut behind any number of instructions, from any boards that power-ups leave: the board stands for
/// a run of the source, and the effects since the last boot or done are a prefix of the script there.
pub fn charges_stand_for_runs<S: Compiled>()
    ensures { CrashTheorem S.model S.program }
{}

/// The machine halts for want of a reading alone, and only where the source is short.
pub fn halts_where_the_source_is_short<S: Compiled>()
    ensures { StopsShort S.model S.program }
{}

/// Between a decide and its done no board is undecided, whatever boots stand between.
pub fn nothing_is_lost<S: Compiled>()
    ensures { NeverLost S.model }
{}

/// Words are accepted only between a decide and its done, each once.
pub fn words_are_sent_once<S: Compiled>()
    ensures { SentOnce S.model }
{}

/// While a commit that was pending at the start isn't done, words are accepted that its state has beyond those of the start.
pub fn pending_words_are_sent_once<S: Compiled>()
    ensures { PendingSends S.model S.program }
{}

/// In one charge the committed readings of the transitions follow one another, from the first on.
pub fn one_charge_takes_readings_in_order<S: Compiled>()
    ensures { SpansFollow S.model S.program }
{}

/// In one charge that begins with a pending commit so do those of the transitions behind it.
pub fn one_charge_takes_readings_behind_a_commit<S: Compiled>()
    ensures { PendingSpansFollow S.model S.program }
{}

/// A charge that is spent, of cycles or of instructions, is less than what its transitions cost, each its own task's, and the one that was
/// to come then, and the cycles that its inputs may delay commits by. So one that holds the costs of the next n tasks, whatever is pending
/// at its beginning, has n dones.
pub fn charges_are_spent_on_tasks<S: Compiled>()
    ensures cycles { TasksPay S.model S.program }
    ensures instructions { InstructionsPay S.model S.program }
{}

/// A charge of at least n bounds, and of the cycles that its inputs may delay commits by, that is spent has at least n dones.
pub fn n_bounds_have_n_dones<S: Compiled>()
    ensures { ProgressLaw S.model S.program }
{}

/// A run stores only what attempts and commits store.
pub fn stores_are_the_scripts<S: Compiled>()
    ensures { StoresOnly S.model S.program S.may_store }
{}

/// A history that is read off effects has the positions of one that compares GATE between boards.
pub fn effects_tell_the_events()
    ensures { EventsOfInstructions }
{}
