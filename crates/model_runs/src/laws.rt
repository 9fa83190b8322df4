//! Laws of a board's run and a model. The functions do nothing: their contracts are the laws.

ghost use Rattle.model_runs.specs.Laws.{DonesAreFew, FrontsAreLawful, MakesProgress, SpansAreInOrder, SpansPastAreInOrder, StopsWhereShort, TakesWhatIsThere};
ghost use Rattle.model_runs.specs.Laws.{WordsStayWithin};
ghost use Rattle.model_runs.specs.EventLaws.{FirstHistoriesAreTheSame, HistoriesStayTheSame, LinesAreOfDones, ReportIsOfDones, FewWordsHaveLines};

/// What a report's history and a history by effects say as a run begins is the same.
pub fn first_histories_are_the_same()
    ensures { FirstHistoriesAreTheSame }
{}

/// And stays the same over any moments of a run in which no interrupt is accepted and EVENT is left alone.
pub fn histories_stay_the_same()
    ensures { HistoriesStayTheSame }
{}

/// The lines of a run in which no interrupt is accepted and EVENT is left alone are those of its dones, by their numbers, spans and
/// worlds alone; so is its report, but for what became of its events, of which none is accepted, and how it ended.
pub fn lines_are_of_dones()
    ensures lines { LinesAreOfDones }
    ensures report { ReportIsOfDones }
    ensures words { FewWordsHaveLines }
{}

use crash_rules::Compiled;

/// Each board of a run stands for a run of the source, and the effects since the last boot or done follow the script; in one
/// charge the spans follow one another.
pub fn fronts_are_lawful<S: Compiled>()
    ensures lawful { FrontsAreLawful S.model S.program }
    ensures spans { SpansAreInOrder S.model S.program }
    ensures past { SpansPastAreInOrder S.model S.program }
{}

/// A run stops for want of a reading alone, and only where the source is short.
pub fn runs_stop_where_the_source_is_short<S: Compiled>()
    ensures { StopsWhereShort S.model S.program }
{}

/// A charge of at least n bounds that is spent has at least n dones. Each charge that is spent, of cycles or of instructions, is less than
/// what its transitions cost, each its own task's, and the one that was to come then.
pub fn runs_make_progress<S: Compiled>()
    ensures { MakesProgress S.model S.program }
{}

/// Where recoveries, attempts and commits store no word above a most at an address, it never holds more.
pub fn words_stay_within<S: Compiled>()
    ensures { WordsStayWithin S.model S.program S.may_store }
{}

/// A run in which no interrupt is accepted and EVENT is left alone has no more dones than its charges have cycles or instructions, and
/// takes no more readings than there are.
pub fn dones_are_few()
    ensures dones { DonesAreFew }
    ensures readings { TakesWhatIsThere }
{}
