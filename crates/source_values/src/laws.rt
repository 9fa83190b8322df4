//! Laws of the definitions.

ghost use Rattle.source_values.specs.Laws.{AnswersLeftOver, ReadingsLeftOver};
ghost use Rattle.source_values.specs.WorkedCalls.{WorkedCalls};
ghost use Rattle.source_values.specs.WorkedRows.{WorkedRows};

/// A whole task depends on the readings that it takes and on no others.
pub fn readings_left_over()
    ensures { ReadingsLeftOver }
{}

/// A whole task depends on the answers that it takes and on no others.
pub fn answers_left_over()
    ensures { AnswersLeftOver }
{}

/// Examples worked by hand.
pub fn worked_rows()
    ensures { WorkedRows }
{}

/// Examples of calls, worked by hand.
pub fn worked_calls()
    ensures { WorkedCalls }
{}
