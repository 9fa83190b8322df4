//! Laws of compiled sources. The functions do nothing: their contracts are the laws.

ghost use Rattle.compiled_laws.specs.Laws.{BoundsPayForTransitions, CodeKeepsTheLaws, CodeStays, OneChargeReadsInOrder, RunsStandForTheSource};
ghost use Rattle.compiled_laws.specs.Laws.{RunsStopWhereTheSourceIsShort, SourcesKeepTheLaws, WordsAreSentOnce};
ghost use Rattle.compiled_laws.specs.Ready.{SourcesAreReady};

/// Each accepted source with its layout keeps what the crash theorem asks for, and its code can run.
pub fn sources_are_ready()
    ensures { SourcesAreReady }
{}

/// An accepted source, its runtime and what FRAM stands for keep what the crash theorem asks of them.
pub fn sources_keep_the_laws()
    ensures { SourcesKeepTheLaws }
{}

/// Its code keeps what the crash theorem asks of code: each attempt and each commit is made, within the bound of its task.
pub fn code_keeps_the_laws()
    ensures { CodeKeepsTheLaws }
{}

/// No run changes the code, nor the reset vector.
pub fn code_stays()
    ensures { CodeStays }
{}

/// After any charges, each cut behind any number of instructions, the board stands for a run of the source, and the effects since
/// the last boot or done are a prefix of the start, the task and the commit there.
pub fn runs_stand_for_the_source()
    ensures { RunsStandForTheSource }
{}

/// A run stops for want of a reading alone, and only where the source is short.
pub fn runs_stop_where_the_source_is_short()
    ensures { RunsStopWhereTheSourceIsShort }
{}

/// Words are accepted only between a decide and its done, each once.
pub fn words_are_sent_once()
    ensures { WordsAreSentOnce }
{}

/// In one charge the committed readings of the transitions follow one another, from the first on.
pub fn one_charge_reads_in_order()
    ensures { OneChargeReadsInOrder }
{}

/// A charge of at least n bounds that is spent has at least n transitions.
pub fn bounds_pay_for_transitions()
    ensures { BoundsPayForTransitions }
{}
