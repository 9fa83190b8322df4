//! Laws of the passes.

ghost use Rattle.source_meaning.specs.Laws.{AcceptedTextsRun, OneAnswer, OneProgram};

use cost_bound::one_answer as one_allowance;
use task_check::one_answer as one_check;
use task_parse::one_answer as one_parse;

/// No text is accepted and refused.
pub fn one_answer()
    ensures { OneAnswer }
{
    one_parse();
    one_check();
    one_allowance();
}

/// An accepted text is one program, with one allowance.
pub fn one_program()
    ensures { OneProgram }
{
    one_parse();
    one_check();
    one_allowance();
}

/// Each accepted text can be run: its numbers are in range, no task emits too many words, and each task comes to a transition.
pub fn accepted_texts_run()
    ensures { AcceptedTextsRun }
{}
