//! An old state as one of a new edition of its program.
ghost use Rattle.std.specs.Prelude.{◌≡◌, ◌↔◌, ◌<◌, ◌^◌, ℕ, [], IfOk, IfErr, IfSome, IfNone, IsTrue, Some, length};
ghost use Rattle.task_ast.specs.View.{block_view, program_of};
ghost use Rattle.image_text.specs.address_space.Limits.{fram_words};
ghost use Rattle.image_text.specs.image_map.MapValue.{MapValue};
ghost use Rattle.source_report.specs.source_values.Runs.{task_body};
ghost use Rattle.fram_state.specs.Kept.{shared_names};
ghost use Rattle.fram_state.specs.Suits.{Suits};
ghost use Rattle.war_analysis.specs.Plans as plans;
ghost use Rattle.fram_state.specs.Migrated as spec;
ghost use Rattle.fram_state.specs.Migrated.{IsPendingAt, IsUnsettled, IsStateOf, IsFault, Migrates, IsAnswerFor, edition_with};
ghost use Rattle.fram_state.specs.Editions.{edition_of, HasNumbers, IsEdition, CallsReturn};

use crate::edition::Edition;
use crate::kept::{Numbers, is_in_place, kept_from, numbers_of, task_named};
use crate::laid::migrated_words;
use crate::runtime::word_in;
use alp_text::Span;
use image_text::Image;
use source_meaning::Accepted;
use source_report::spelled;
use state_text::State;
use std::alloc::{AllocError, Global};
use task_ast::{Extent, Stmt, TaskName, VariableName};
use thiserror::Error;

/// Why an old state doesn't go on in a new edition of its program.
#[derive(Clone, Copy, Debug, Error)]
pub enum MigrateFault {
    /// The commit of the state is pending.
    #[error("a commit is pending")]
    Pending,
    /// The new source has no task of the current task's name, which stands here in the old text.
    #[error("the new source has no task of this name")]
    NoTask { name: Span },
    /// The first scalar that is kept, that the old current task writes in place and that the new one doesn't; its name stands here in the new text.
    #[error("the new task may read what a cut attempt left in this scalar")]
    Unsettled { name: Span },
    #[error("out of memory")]
    Memory,
}

impl From<AllocError> for MigrateFault {
    ghost use Rattle.std.specs.Prelude.{◌≡◌};
    ghost use Rattle.fram_state.specs.declared.migration.MigrateFault.TheVariants.{Memory};

    ghost from_gives = { λ _ e. e ≡ Memory };

    fn from(_: AllocError) -> Self {
        MigrateFault::Memory
    }
}

// The number of the task that CUR names.
fn current(edition: &Edition<'_>) -> usize
    requires { IsEdition (edition_of edition.now) }
    ensures number { result ≡ spec.current (edition_of edition.now) }
    ensures word { result < 2 ^ 16 }
{
    edition.map.rules();
    word_in(edition.words, edition.map.words().current_task) as usize
}

fn is_pending(edition: &Edition<'_>) -> bool
    requires { IsEdition (edition_of edition.now) }
    ensures { IsTrue result ↔ IsPendingAt (edition_of edition.now) }
{
    edition.map.rules();
    word_in(edition.words, edition.map.words().gate) == 1
}

fn is_scalar(extent: Extent) -> bool
    ensures { result ≡ plans.is_scalar extent }
{
    match extent {
        Extent::Scalar(_) | Extent::Long(_) => true,
        Extent::Array(_) => false,
    }
}

// Whether the new variable of a number is a scalar that is kept and isn't settled; or no memory is left.
fn is_unsettled<'a>(
    alloc: Global,
    old: &Edition<'a>,
    numbers: &Numbers<'a>,
    new: &Edition<'a>,
    task: usize,
    number: usize,
) -> Result<bool, AllocError>
    requires old { IsEdition (edition_of old.now) }
    requires new { IsEdition (edition_of new.now) }
    requires old_calls { CallsReturn (edition_of old.now).program }
    requires new_calls { CallsReturn (edition_of new.now).program }
    requires names { HasNumbers (shared_names old.now.text.now old.now.source.now.shared.items) numbers.now }
    requires current { spec.current (edition_of old.now) < length old.now.source.now.tasks.items }
    requires task { task < length new.now.source.now.tasks.items }
    requires number { number < length new.now.source.now.shared.items }
    ensures { IfOk result (λ unsettled. IsTrue unsettled ↔ IsUnsettled (edition_of old.now) (edition_of new.now) task number) }
{
    let declaration = &new.source.shared[number];
    let name = spelled(new.text, declaration.name);
    let shared = old.source.shared.as_slice();
    let Some(from) = kept_from(old.text, shared, numbers, name, declaration) else {
        return Ok(false);
    };
    if !is_scalar(declaration.extent) || !is_in_place(alloc, old.source, current(old), from)? {
        return Ok(false);
    }
    Ok(!is_in_place(alloc, new.source, task, number)?)
}

// The number of the first scalar that isn't settled; or no memory is left.
fn first_unsettled<'a>(
    alloc: Global,
    old: &Edition<'a>,
    numbers: &Numbers<'a>,
    new: &Edition<'a>,
    task: usize,
) -> Result<Option<usize>, AllocError>
    requires old { IsEdition (edition_of old.now) }
    requires new { IsEdition (edition_of new.now) }
    requires old_calls { CallsReturn (edition_of old.now).program }
    requires new_calls { CallsReturn (edition_of new.now).program }
    requires names { HasNumbers (shared_names old.now.text.now old.now.source.now.shared.items) numbers.now }
    requires current { spec.current (edition_of old.now) < length old.now.source.now.tasks.items }
    requires task { task < length new.now.source.now.tasks.items }
    ensures some { IfOk result (λ found. IfSome found (IsUnsettled (edition_of old.now) (edition_of new.now) task)) }
    ensures first { IfOk result (λ found. IfSome found (λ n. (i : ℕ) → i < n → IsUnsettled (edition_of old.now) (edition_of new.now) task i → ⊥)) }
    ensures inside { IfOk result (λ found. IfSome found (λ n. n < length new.now.source.now.shared.items)) }
    ensures none { IfOk result (λ found. IfNone found ((i : ℕ) → IsUnsettled (edition_of old.now) (edition_of new.now) task i → ⊥)) }
{
    for i in 0..new.source.shared.len() {
        if is_unsettled(alloc, old, numbers, new, task, i)? {
            return Ok(Some(i));
        }
    }
    Ok(None)
}

// The words of the migrated FRAM, or what speaks against it.
fn words_behind<'a>(
    alloc: Global,
    old: &Edition<'a>,
    new: &Edition<'a>,
) -> Result<Vec<u16>, MigrateFault>
    requires old { IsEdition (edition_of old.now) }
    requires new { IsEdition (edition_of new.now) }
    requires old_calls { CallsReturn (edition_of old.now).program }
    requires new_calls { CallsReturn (edition_of new.now).program }
    requires current { spec.current (edition_of old.now) < length old.now.source.now.tasks.items }
    ensures words { IfOk result (λ v. Migrates (edition_of old.now) (edition_of new.now) v.items) }
    ensures len { IfOk result (λ v. length v.items ≡ fram_words) }
    ensures fault { IfErr result (IsFault (edition_of old.now) (edition_of new.now)) }
{
    if is_pending(old) {
        return Err(MigrateFault::Pending);
    }
    let name = old.source.tasks[current(old)].name;
    let tasks = new.source.tasks.as_slice();
    let Some(task) = task_named(new.text, tasks, spelled(old.text, name)) else {
        return Err(MigrateFault::NoTask { name });
    };
    let numbers = numbers_of(alloc, old.text, &old.source.shared)?;
    if let Some(number) = first_unsettled(alloc, old, &numbers, new, task)? {
        let name = new.source.shared[number].name;
        return Err(MigrateFault::Unsettled { name });
    }
    Ok(migrated_words(alloc, old, &numbers, new, task)?)
}

/// The state of a new edition of a program that goes on in place of an old state: each shared variable of the new source has the words of the old
/// one of its name, kind, type and length, if there is one, or else those that it begins with; CUR is the task of the same name; BASE, the
/// receiver's number and, where both maps have a ring, its HEAD, TAIL and slots are kept; and the rest is the new image's.
///
/// # Errors
/// `Pending` where the commit of the state is pending; then `NoTask` with the name of the current task, where the new source has none of this
/// name; then `Unsettled` with the first scalar that is kept, that the old current task writes in place and that the new one doesn't. `Memory`
/// where memory was refused. The image is given up then.
pub fn migrate(
    alloc: Global,
    old: &Accepted,
    state: &State,
    new: &Accepted,
    image: Image,
) -> Result<State, MigrateFault>
    requires old { IsStateOf old.now.text.items (program_of old.now.checked.source) state.now }
    requires new { Suits new.now.text.items (program_of new.now.checked.source) image }
    ensures answer { (m n : MapValue) → state.now.image.map ≡ Some m → image.map ≡ Some n
        → IsAnswerFor (edition_with old.now.text.items (program_of old.now.checked.source) m state.now.image.words)
        (edition_with new.now.text.items (program_of new.now.checked.source) n image.words) state.now.receiver result }
{
    let mut image = image;
    let Some(old_map) = state.image.map() else {
        unreachable!()
    };
    let Some(new_map) = image.map() else {
        unreachable!()
    };
    old_map.rules();
    let words = words_behind(
        alloc,
        &Edition {
            text: old.source(),
            source: old.checked().source(),
            map: old_map,
            words: state.image.words(),
        },
        &Edition {
            text: new.source(),
            source: new.checked().source(),
            map: new_map,
            words: image.words(),
        },
    )?;
    image.set_words(&words);
    Ok(State {
        image,
        receiver: state.receiver,
    })
}
