//! `migrate SRC IMAGE STATE NEWSRC NEWIMAGE NEWSTATE`: a saved state as one of a new edition of its program, put as a state text.
ghost use Rattle.std.specs.Prelude.{◌≡◌, ◌≤◌, IfOk, IfErr, IfSome, Some, option_map};
ghost use Rattle.plain_commands.specs.alp_io.Shelf.{NeverFall};
ghost use Rattle.plain_commands.specs.source_report.task_ast.View.{program_of};
ghost use Rattle.fram_state.specs.declared.migration.MigrateFault.{MigrateFault};
ghost use Rattle.fram_state.specs.Suits.{Suits};
ghost use Rattle.fram_state.specs.Migrated.{IsStateOf, IsMigrated, IsFault};
ghost use Rattle.plain_commands.specs.state_text.image_map.Kept.{IsMap};
ghost use Rattle.plain_commands.specs.command_answers.CommandAnswers.{CommandAnswers, IsWhole, TextAnswers};
ghost use Rattle.plain_commands.specs.command_answers.Ending.{well};
ghost use Rattle.plain_commands.specs.command_answers.InputFiles.{AreHeld, IsUnread};
ghost use Rattle.state_commands.specs.Migrated as told;
ghost use Rattle.state_commands.specs.Migrated.{Migrates, MigrateRefuses, other_source, MigratesWords};
ghost use Rattle.state_commands.specs.Saved.{IsOfWords};
ghost use Rattle.state_commands.specs.Migrating.{AreOldRead, AreRead, AreShort, FailsAt, OfEditions, migration_of, editions_in, editions_of, read_by, texts_of};
ghost use Rattle.plain_commands.specs.command_answers.Outcomes.{FailsBy, FailsRefused};
ghost use Rattle.plain_commands.specs.command_answers.Outside.{WhereSilent};
ghost use Rattle.plain_commands.specs.command_answers.Views.{refusal_of};

use crate::resume::check_belongs;
use crate::state_words::{has_ruled_map, is_of_words};
use fram_state::{MigrateFault, SuitFault, migrate, suits};
use plain_commands::answers::{
    Failure, Refusal, Status, Unread, answer_failure, answer_unread, named, plain, put_file,
    read_file, refused_plainly,
};
use plain_commands::outside::{Shelf, Sink};
use plain_commands::texts::{Accepted, Image, State, image_of, print_state, source_of, state_of};
use std::alloc::Global;

/// The names of the files of `migrate SRC IMAGE STATE NEWSRC NEWIMAGE NEWSTATE`.
#[derive(Clone, Copy)]
pub struct MigrateNames<'n> {
    /// The file of the old source.
    pub source: &'n str,
    /// The file of its image.
    pub image: &'n str,
    /// The file of the old state.
    pub state: &'n str,
    /// The file of the new source.
    pub new_source: &'n str,
    /// The file of its image.
    pub new_image: &'n str,
    /// The file that is to hold the new state.
    pub new_state: &'n str,
}

/// The bytes of the files that a migration reads.
#[derive(Drop)]
pub struct FiveTexts {
    pub source: Vec<u8>,
    pub image: Vec<u8>,
    pub state: Vec<u8>,
    pub new_source: Vec<u8>,
    pub new_image: Vec<u8>,
}

/// The texts of a migration.
#[derive(Clone, Copy)]
pub struct EditionTexts<'t> {
    pub source: &'t [u8],
    pub image: &'t [u8],
    pub state: &'t [u8],
    pub new_source: &'t [u8],
    pub new_image: &'t [u8],
}

/// What they say.
#[derive(Drop)]
pub struct Said {
    pub source: Accepted,
    pub image: Image,
    pub state: State,
    pub new_source: Accepted,
    pub new_image: Image,
}

/// What those of the old edition say.
#[derive(Drop)]
pub struct OldSaid {
    pub source: Accepted,
    pub image: Image,
    pub state: State,
}

// What the texts of the old edition say; or the first of them that is refused.
fn old_said_by<'t>(
    alloc: Global,
    names: MigrateNames<'t>,
    texts: EditionTexts<'t>,
) -> Result<OldSaid, Failure<'t>>
    requires { AreShort (editions_of texts) }
    ensures said { IfOk result (AreOldRead (editions_of texts.entry)) }
    ensures refused { IfErr result (FailsAt (read_by names.entry) (MigrateRefuses (editions_of texts.entry))) }
{
    let source = source_of(alloc, names.source, texts.source)?;
    let image = image_of(alloc, names.image, texts.image)?;
    let state = state_of(alloc, names.state, texts.state)?;
    Ok(OldSaid {
        source,
        image,
        state,
    })
}

// What the texts say; or the first that is refused.
fn said_by<'t>(
    alloc: Global,
    names: MigrateNames<'t>,
    texts: EditionTexts<'t>,
) -> Result<Said, Failure<'t>>
    requires { AreShort (editions_of texts) }
    ensures said { IfOk result (AreRead (editions_of texts.entry)) }
    ensures refused { IfErr result (FailsAt (read_by names.entry) (MigrateRefuses (editions_of texts.entry))) }
{
    let old_said = old_said_by(alloc, names, texts)?;
    let new_source = source_of(alloc, names.new_source, texts.new_source)?;
    let new_image = image_of(alloc, names.new_image, texts.new_image)?;
    let OldSaid {
        source,
        image,
        state,
    } = old_said;
    Ok(Said {
        source,
        image,
        state,
        new_source,
        new_image,
    })
}

// Asks whether the image of a named file suits a source.
//
// Errors: `Refused` where it doesn't; `Memory` where memory was refused.
fn check_suits<'t>(
    alloc: Global,
    file: &'t str,
    source: &Accepted,
    image: &Image,
) -> Result<(), Failure<'t>>
    ensures suits { IfOk result (λ _. Suits source.now.text.items (program_of source.now.checked.source) image.now) }
    ensures refused { IfErr result (FailsRefused file.now (λ r. (r ≡ other_source)
        × (Suits source.now.text.items (program_of source.now.checked.source) image.now → ⊥))) }
{
    match suits(alloc, source, image) {
        Ok(()) => Ok(()),
        Err(SuitFault::OtherSource) => Err(refused_plainly(file, 0, "OtherSource")),
        Err(SuitFault::Memory) => Err(Failure::Memory),
    }
}

fn migrate_refusal<'t>(texts: EditionTexts<'t>, fault: MigrateFault) -> Option<Refusal<'t>>
    ensures { option_map refusal_of result ≡ told.migrate_refusal (editions_of texts.entry) fault }
{
    match fault {
        MigrateFault::Pending => Some(plain(0, "Pending")),
        MigrateFault::NoTask { name } => Some(named(texts.source, 0, "NoTask", name)),
        MigrateFault::Unsettled { name } => Some(named(texts.new_source, 0, "Unsettled", name)),
        MigrateFault::Memory => None,
    }
}

fn failure_of<'t>(file: &'t str, texts: EditionTexts<'t>, fault: MigrateFault) -> Failure<'t>
    ensures { FailsRefused file.now (λ r. told.migrate_refusal (editions_of texts.entry) fault ≡ Some r) result }
{
    match migrate_refusal(texts, fault) {
        Some(refusal) => Failure::Refused { file, refusal },
        None => Failure::Memory,
    }
}

// The state of the new edition; or why the state of the named file doesn't go on in it.
fn migrated_of<'t>(
    alloc: Global,
    file: &'t str,
    texts: EditionTexts<'t>,
    said: Said,
) -> Result<State, Failure<'t>>
    requires old { IsStateOf said.source.text.items (program_of said.source.checked.source) said.state }
    requires new { Suits said.new_source.text.items (program_of said.new_source.checked.source) said.new_image }
    ensures migrated { IfOk result (λ s. OfEditions said (λ old new. IsMigrated old new said.state.receiver s)) }
    ensures words { IfOk result (λ s. IsOfWords said.state × IfSome said.state.image.map IsMap × IsOfWords s) }
    ensures refused { IfErr result (FailsRefused file.now (λ r. (f : MigrateFault) × OfEditions said (λ old new. IsFault old new f)
        × (told.migrate_refusal (editions_of texts.entry) f ≡ Some r))) }
{
    let Said {
        source,
        image: _,
        state,
        new_source,
        new_image,
    } = said;
    match migrate(alloc, &source, &state, &new_source, new_image) {
        Ok(migrated) => {
            is_of_words(&state);
            has_ruled_map(&state);
            is_of_words(&migrated);
            Ok(migrated)
        }
        Err(fault) => Err(failure_of(file, texts, fault)),
    }
}

// The text of the state of the new edition; or the first text that is refused.
fn migrated_text<'t>(
    alloc: Global,
    names: MigrateNames<'t>,
    texts: EditionTexts<'t>,
) -> Result<Vec<u8>, Failure<'t>>
    requires { AreShort (editions_of texts) }
    ensures migrates { IfOk result (λ v. Migrates MigratesWords (editions_of texts.entry) v.items) }
    ensures refused { IfErr result (FailsAt (read_by names.entry) (MigrateRefuses (editions_of texts.entry))) }
{
    let said = said_by(alloc, names, texts)?;
    check_suits(alloc, names.image, &said.source, &said.image)?;
    check_suits(alloc, names.new_image, &said.new_source, &said.new_image)?;
    check_belongs(names.state, &said.image, &said.state)?;
    let state = migrated_of(alloc, names.state, texts, said)?;
    let text = print_state(alloc, &state)?;
    Ok(text)
}

/// Puts the state of the new edition that goes on in place of the old state. All memory but that of the put is taken before it.
///
/// # Errors
/// `Refused` for the first text that is refused; then for an image that doesn't suit its
/// source, a state that doesn't belong to its image, and one that doesn't go on in the new edition. `Memory` where memory was refused; no file is
/// changed then. `Put` where the put failed, and the file of the new state may hold anything or be absent.
pub fn migrate_texts<'t, H: Shelf>(
    alloc: Global,
    names: MigrateNames<'t>,
    texts: EditionTexts<'t>,
    shelf: &mut H,
) -> Result<(), Failure<'t>>
    requires { AreShort (editions_of texts) }
    ensures counts { NeverFall (H.counts shelf.old) (H.counts shelf.new) }
    ensures whole { IfOk result (λ _. WhereSilent (IsWhole (migration_of names.entry) (texts_of (editions_of texts.entry)) well
        (record { old = H.files shelf.old; new = H.files shelf.new; counts_old = H.counts shelf.old; counts_new = H.counts shelf.new }))) }
    ensures failure { IfErr result (λ e. WhereSilent (FailsBy e (migration_of names.entry) (texts_of (editions_of texts.entry))
        (record { old = H.files shelf.old; new = H.files shelf.new; counts_old = H.counts shelf.old; counts_new = H.counts shelf.new }))) }
{
    let text = migrated_text(alloc, names, texts)?;
    put_file(alloc, shelf, names.new_state, text.as_slice())
}

fn migrate_of<H: Shelf, E: Sink>(
    alloc: Global,
    names: MigrateNames<'_>,
    texts: EditionTexts<'_>,
    shelf: &mut H,
    err: &mut E,
) -> Status
    requires { AreShort (editions_of texts) }
    ensures counts { NeverFall (H.counts shelf.old) (H.counts shelf.new) }
    ensures err_faults { E.faults err.old ≤ E.faults err.new }
    ensures answers { WhereSilent (λ out. TextAnswers result (migration_of names.entry) (texts_of (editions_of texts.entry))
        (record { old = H.files shelf.old; new = H.files shelf.new; counts_old = H.counts shelf.old; counts_new = H.counts shelf.new }) out
        (record { old = E.contents err.old; new = E.contents err.new; faults_old = E.faults err.old; faults_new = E.faults err.new })) }
{
    match migrate_texts(alloc, names, texts, shelf) {
        Ok(()) => Status::Done,
        Err(failure) => answer_failure(err, failure),
    }
}

// Reads the five files, in order, of at most 1,048,576 bytes each.
//
// Errors: `Unreadable` or `TooLong` with the name of the first that gave no bytes; `Memory` where memory was refused.
fn read_five_texts<'n, H: Shelf>(
    alloc: Global,
    shelf: &mut H,
    names: MigrateNames<'n>,
) -> Result<FiveTexts, Unread<'n>>
    ensures same { H.files shelf.new ≡ H.files shelf.old }
    ensures counts { NeverFall (H.counts shelf.old) (H.counts shelf.new) }
    ensures held { IfOk result (λ t. IfSome (H.files shelf.old) (λ f. AreHeld f (read_by names.entry) (texts_of (editions_in t)))) }
    ensures short { IfOk result (λ t. AreShort (editions_in t)) }
    ensures unread { IfErr result (λ e. IsUnread e (H.files shelf.old) (read_by names.entry) (H.counts shelf.old) (H.counts shelf.new)) }
{
    let source = read_file(alloc, shelf, names.source)?;
    let image = read_file(alloc, shelf, names.image)?;
    let state = read_file(alloc, shelf, names.state)?;
    let new_source = read_file(alloc, shelf, names.new_source)?;
    let new_image = read_file(alloc, shelf, names.new_image)?;
    Ok(FiveTexts {
        source,
        image,
        state,
        new_source,
        new_image,
    })
}

// The texts that were read.
fn lent<'t>(texts: &'t FiveTexts) -> EditionTexts<'t>
    ensures { editions_of result ≡ editions_in texts.now }
{
    EditionTexts {
        source: texts.source.as_slice(),
        image: texts.image.as_slice(),
        state: texts.state.as_slice(),
        new_source: texts.new_source.as_slice(),
        new_image: texts.new_image.as_slice(),
    }
}

/// The answer to `migrate SRC IMAGE STATE NEWSRC NEWIMAGE NEWSTATE`, which writes nothing to the output.
pub fn answer_migrate<H: Shelf, E: Sink>(
    alloc: Global,
    names: MigrateNames<'_>,
    shelf: &mut H,
    err: &mut E,
) -> Status
    ensures counts { NeverFall (H.counts shelf.old) (H.counts shelf.new) }
    ensures err_faults { E.faults err.old ≤ E.faults err.new }
    ensures answers { WhereSilent (λ out. CommandAnswers result (migration_of names.entry)
        (record { old = H.files shelf.old; new = H.files shelf.new; counts_old = H.counts shelf.old; counts_new = H.counts shelf.new }) out
        (record { old = E.contents err.old; new = E.contents err.new; faults_old = E.faults err.old; faults_new = E.faults err.new })) }
{
    match read_five_texts(alloc, shelf, names) {
        Ok(texts) => migrate_of(alloc, names, lent(&texts), shelf, err),
        Err(unread) => answer_unread(err, unread),
    }
}
