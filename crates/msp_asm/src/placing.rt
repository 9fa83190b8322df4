//! The words of lines, each put at its place in the FRAM.
ghost use Rattle.std.specs.Prelude.{◌≡◌, ◌≤◌, ◌<◌, ◌+◌, length, vec_len, MatchBool, Some, None, OnOk};
ghost use Rattle.image_text.specs.address_space.Limits.{fram_words};
ghost use Rattle.image_text.specs.Memory.{put_once};
ghost use Rattle.asm_line.specs.LineViews.{statement_meaning, line_meaning};
ghost use Rattle.asm_line.specs.ValueViews.{meaning_of};
ghost use Rattle.msp_asm.specs.Labels.{label_at};
ghost use Rattle.msp_asm.specs.Placing.{is_bad_address, is_bad_org, place, line_into};
ghost use Rattle.msp_asm.specs.Assembled.{Gives};

use crate::fault::AsmFault;
use crate::faults::line_fault;
use crate::labels::Labels;
use crate::words::push_words;
use asm_line::{Line, Statement, Value};
use image_text::address_space::{FRAM_END, FRAM_FIRST};

// Puts words from a place on, and says whether none of the places was taken.
fn put_once(memory: &mut Vec<Option<u16>>, from: usize, words: &[u16]) -> bool
    requires room { from + length words.now ≤ vec_len memory.old }
    ensures fine { MatchBool result
        (put_once from words.now memory.old.items ≡ Some memory.new.items)
        (put_once from words.now memory.old.items ≡ None) }
    ensures same { vec_len memory.new ≡ vec_len memory.old }
{
    let mut i = from;
    for w in words {
        if memory[i].is_some() {
            return false;
        }
        memory[i] = Some(*w);
        i += 1;
    }
    true
}

fn is_bad_address(value: &Value<'_>) -> bool
    ensures { result ≡ is_bad_address (meaning_of value.now) }
{
    match value {
        Value::Number(n) => *n < FRAM_FIRST || *n % 2 == 1,
        _ => false,
    }
}

fn is_bad_org(statement: &Statement<'_>) -> bool
    ensures { result ≡ is_bad_org (statement_meaning statement.now) }
{
    match statement {
        Statement::Org(value) => is_bad_address(value),
        _ => false,
    }
}

fn place(
    memory: &mut Vec<Option<u16>>,
    line: u32,
    address: u16,
    words: &[u16],
) -> Result<(), AsmFault>
    requires { vec_len memory.old ≡ fram_words }
    ensures len { vec_len memory.new ≡ fram_words }
    ensures value { Gives (λ _. memory.new.items) result (place line address words.now memory.old.items) }
{
    let room = (FRAM_END as usize - address as usize) / 2;
    if !words.is_empty() && (address < FRAM_FIRST || words.len() > room) {
        return Err(AsmFault::Outside { line });
    }
    if put_once(
        memory,
        (address as usize).saturating_sub(FRAM_FIRST as usize) / 2,
        words,
    ) {
        Ok(())
    } else {
        Err(AsmFault::Overlap { line })
    }
}

/// Puts the words of a line at its address; `words` is memory that is used again.
#[tactic(auto, unfolding(crate::specs::Placing::line_into))]
pub fn line_into<'a>(
    labels: &Labels<'a>,
    n: u32,
    address: u16,
    line: &Line<'a>,
    words: &mut Vec<u16>,
    memory: &mut Vec<Option<u16>>,
) -> Result<(), AsmFault>
    requires { vec_len memory.old ≡ fram_words }
    ensures len { vec_len memory.new ≡ fram_words }
    ensures value { Gives (λ _. memory.new.items) result
        (line_into (label_at labels.now) n address (line_meaning line.now) memory.old.items) }
{
    if let Some(fault) = line_fault(labels, n, address, line) {
        return Err(fault);
    }
    if is_bad_org(&line.statement) {
        return Err(AsmFault::Outside { line: n });
    }
    words.clear();
    push_words(labels, address, &line.statement, words)?;
    place(memory, n, address, words.as_slice())
}
