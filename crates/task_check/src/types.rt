//! The types of names, as far as the uses of a source ask for them.

ghost use Rattle.std.specs.Prelude.{◌≡◌, IfOk};
ghost use Rattle.task_check.specs.Tables.{HasTypes};
ghost use Rattle.task_check.specs.Typed.{HasSharedTypes, types_of};

use crate::table::{Table, empty, get, set};
use crate::text::text_of;
use alp_text::Span;
use std::alloc::{AllocError, Global};
use task_ast::{SharedDeclaration, WordType};

/// The shared variables of a source, and a table of their types by their names.
#[derive(Drop)]
pub struct SharedTypes<'a> {
    pub source: &'a [u8],
    pub shared: &'a [SharedDeclaration],
    pub table: Table<'a, WordType>,
}

// The type of the first shared variable of each name. Fails where memory does.
fn table_of<'a>(
    alloc: Global,
    source: &'a [u8],
    shared: &[SharedDeclaration],
) -> Result<Table<'a, WordType>, AllocError>
    ensures { IfOk result (HasTypes source.now shared.now) }
{
    let mut table = empty(alloc);
    for i in (0..shared.len()).rev() {
        let declared = shared[i];
        set(
            &mut table,
            text_of(source, declared.name),
            declared.word_type,
        )?;
    }
    Ok(table)
}

/// The types of a source's shared variables. Fails where memory does.
#[tactic(auto, unfolding(crate::specs::Typed::HasSharedTypes))]
pub fn shared_types<'a>(
    alloc: Global,
    source: &'a [u8],
    shared: &'a [SharedDeclaration],
) -> Result<SharedTypes<'a>, AllocError>
    ensures source { IfOk result (λ types. types.source.now ≡ source.now) }
    ensures shared { IfOk result (λ types. types.shared.now ≡ shared.now) }
    ensures types { IfOk result HasSharedTypes }
{
    Ok(SharedTypes {
        source,
        shared,
        table: table_of(alloc, source, shared)?,
    })
}

/// The type of a name.
pub fn name_type(types: &SharedTypes<'_>, name: Span) -> WordType
    requires { HasSharedTypes types.now }
    ensures { result ≡ types_of types.now name }
{
    get(&types.table, text_of(types.source, name)).unwrap_or(WordType::Unsigned)
}
