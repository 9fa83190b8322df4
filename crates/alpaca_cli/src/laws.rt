//! Laws of what the program prints. The function does nothing of its own: its contract is the law.

ghost use Rattle.plain_commands.specs.Audited.{MeanReportsAreGood, MeanReportsAreAnsweredYes};
ghost use Rattle.compiler_commands.specs.Audited.{TriedReportsAreGood, TriedReportsAreAnsweredYes};

use plain_commands::texts::accepted_texts_run;

/// What `try` and `mean` print is a report that its source could have told on its trace; and `audit` answers yes of it.
pub fn printed_reports_are_good()
    ensures tried { TriedReportsAreGood }
    ensures meant { MeanReportsAreGood }
    ensures tried_yes { TriedReportsAreAnsweredYes }
    ensures meant_yes { MeanReportsAreAnsweredYes }
{
    accepted_texts_run();
}
