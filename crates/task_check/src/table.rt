//! Tables from names to what they stand for.

ghost use Rattle.std.specs.Prelude.{◌≡◌, ℕ, List, IfOk, Some, None};
ghost use Rattle.std.specs.Option.{option_or};
ghost use Rattle.std.specs.Ordering.{nat_cmp};
ghost use Rattle.std.specs.Str.{bytes_eq};
ghost use Rattle.std.specs.Cmp.Lexicographic.{slice_cmp};
ghost use Rattle.task_check.specs.Tables.{found};
ghost use Rattle.task_check.specs.Scope.{if_named};

use std::alloc::{AllocError, Global};
use std::collections::BTreeMap;

/// A table by the bytes of names.
pub type Table<'a, T> = BTreeMap<&'a [u8], T>;

/// A table without names.
pub fn empty<'a, T: Copy + Drop>(alloc: Global) -> Table<'a, T>
    ensures { (q : List ℕ) → found result q ≡ None }
{
    Table::new(alloc)
}

/// What a name stands for.
pub fn get<'a, T: Copy>(table: &Table<'a, T>, name: &'a [u8]) -> Option<T>
    ensures { result ≡ found table.now name.now }
{
    table.get(&name).copied()
}

/// The name stands for the value, in place of what it stood for. Fails where memory does.
pub fn set<'a, T: Copy + Drop>(
    table: &mut Table<'a, T>,
    name: &'a [u8],
    value: T,
) -> Result<(), AllocError>
    ensures { IfOk result (λ _. (q : List ℕ) → found table.new q ≡ option_or (if_named (bytes_eq name.now q) (Some value)) (found table.old q)) }
{
    table.insert(name, value)?;
    Ok(())
}

/// The name stands for the value, unless it stands for one already. Fails where memory does.
pub fn set_first<'a, T: Copy + Drop>(
    table: &mut Table<'a, T>,
    name: &'a [u8],
    value: T,
) -> Result<(), AllocError>
    ensures { IfOk result (λ _. (q : List ℕ) → found table.new q ≡ option_or (found table.old q) (if_named (bytes_eq name.now q) (Some value))) }
{
    if get(table, name).is_some() {
        return Ok(());
    }
    set(table, name, value)
}
