//! Laws of the definitions.

ghost use Rattle.source_report.specs.Laws.{MeanReportIsDetermined};

/// What `write_mean_report` writes is the report of a run of the source on consecutive spans of the readings.
pub fn mean_report_is_determined()
    ensures { MeanReportIsDetermined }
{}
