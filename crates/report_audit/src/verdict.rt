//! What an audit answers.
use std::alloc::AllocError;
use thiserror::Error;

/// What an audit says of a report.
#[derive(Clone, Copy)]
pub enum Verdict {
    /// The source could have told the report, which has `t` transitions.
    Yes { t: u64 },
    /// It couldn't: the lines up to and with `line`, counted from 1, begin no report that it could have told; or the report
    /// ends too soon, and `line` is one past its last.
    No { line: u32 },
}

/// Why there is no verdict.
#[derive(Clone, Copy, Debug, Error)]
pub enum AuditFault {
    /// The source has a `next_event()`, whose answers no report carries; the line of the first, counted from 1.
    #[error("line {line}: a report doesn't carry the answers of `next_event()`")]
    Events { line: u32 },
    /// Memory was refused.
    #[error("out of memory")]
    Memory,
}

impl From<AllocError> for AuditFault {
    ghost use Rattle.std.specs.Prelude.{◌≡◌};
    ghost use Rattle.report_audit.specs.declared.verdict.AuditFault.TheVariants.{Memory};

    ghost from_gives = { λ _ e. e ≡ Memory };

    fn from(_error: AllocError) -> Self {
        AuditFault::Memory
    }
}
