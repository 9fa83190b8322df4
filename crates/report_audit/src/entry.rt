//! What a line of a report says.
ghost use Rattle.std.specs.Prelude.{◌≡◌, Some};
ghost use Rattle.text_parts.specs.Fields.{fields};
ghost use Rattle.report_audit.specs.Entry.{number_in, reason_of, span_of, end_of, entry_of};

use alp_io::Reason;
use alp_text::number;
use text_parts::next_field;

/// What a line says that begins a transition or ends a report, as far as the lines before it leave it open.
#[derive(Clone, Copy)]
pub enum Entry {
    /// A transition on the readings from position `from` up to and without `to`.
    Transition {
        from: u64,
        to: u64,
    },
    /// The end, with the words that were accepted and the repeats.
    End {
        reason: Reason,
        accepted: u64,
        repeats: u64,
    },
}

fn number_in(field: &[u8]) -> Option<u64>
    ensures { result ≡ number_in field.now }
{
    number(field).ok()
}

// The reason that a report may end with.
fn reason_of(field: &[u8]) -> Option<Reason>
    ensures { result ≡ reason_of field.now }
{
    if field == b"charges".as_slice() {
        Some(Reason::Charges)
    } else if field == b"readings".as_slice() {
        Some(Reason::Readings)
    } else if field == b"limit".as_slice() {
        Some(Reason::Limit)
    } else {
        None
    }
}

// What `K TASK NEXT A B` says.
fn span_of(line: &[u8]) -> Option<Entry>
    ensures { result ≡ span_of (fields line.now) }
{
    let (_k, rest) = next_field(line)?;
    let (_task, rest) = next_field(rest)?;
    let (_next, rest) = next_field(rest)?;
    let (from, rest) = next_field(rest)?;
    let (to, _) = next_field(rest)?;
    let from = number_in(from)?;
    let to = number_in(to)?;
    Some(Entry::Transition { from, to })
}

// What `REASON T ACCEPTED REPEATS` says.
fn end_of(line: &[u8]) -> Option<Entry>
    ensures { result ≡ end_of (fields line.now) }
{
    let (reason, rest) = next_field(line)?;
    let (_t, rest) = next_field(rest)?;
    let (accepted, rest) = next_field(rest)?;
    let (repeats, _) = next_field(rest)?;
    let reason = reason_of(reason)?;
    let accepted = number_in(accepted)?;
    let repeats = number_in(repeats)?;
    Some(Entry::End {
        reason,
        accepted,
        repeats,
    })
}

/// What a line says that begins a transition or ends a report; nothing of another line. Whether it is spelled as a report
/// spells it isn't looked at.
pub fn entry_of(line: &[u8]) -> Option<Entry>
    ensures { result ≡ entry_of (fields line.now) }
{
    let (word, rest) = next_field(line)?;
    if word == b"t".as_slice() {
        span_of(rest)
    } else if word == b"end".as_slice() {
        end_of(rest)
    } else {
        None
    }
}
