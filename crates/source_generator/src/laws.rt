//! Rows of the definitions, as contracts of functions that do nothing.
ghost use Rattle.source_generator.specs.Laws.{RowsOfZero, StatementRows};

/// The first values and statements of the source of 0.
pub fn rows_of_zero()
    ensures { RowsOfZero }
{}

/// One statement of each form, and where the last task goes.
pub fn statement_rows()
    ensures { StatementRows }
{}
