//! Sums over the shared variables.
ghost use Rattle.std.specs.Prelude.{◌≡◌, ◌≤◌, ◌<◌, ◌^◌, length, false, slice_index, slice_index_or};
ghost use Rattle.cost_bound.specs.Allowance.{shared_sum, scalar_part, list_part, version_part, place_part};

use crate::SHARED;
use task_ast::{Extent, SharedDeclaration};

fn scalar_part(assigned: bool, extent: Extent) -> u64
    ensures value { result ≡ scalar_part assigned extent }
    ensures low { result ≤ 2 }
{
    match extent {
        Extent::Scalar(_) => if assigned { 1 } else { 0 },
        Extent::Long(_) => if assigned { 2 } else { 0 },
        Extent::Array(_) => 0,
    }
}

/// How many shared scalars are marked, a long as two.
pub fn scalars(shared: &[SharedDeclaration], assigned: &[bool; SHARED]) -> u64
    requires few { length shared.now ≤ 256 }
    ensures value { result ≡ shared_sum (λ i extent. scalar_part (slice_index_or assigned.now i false) extent) shared.now }
    ensures low { result ≤ 512 }
{
    let mut n = 0u64;
    for i in (0..shared.len()).rev() {
        n += scalar_part(assigned[i], shared[i].extent);
    }
    n
}

fn list_part(stores: u64, extent: Extent) -> u64
    ensures value { result ≡ list_part stores extent }
    ensures low { result ≤ 65535 }
{
    match extent {
        Extent::Scalar(_) | Extent::Long(_) => 0,
        Extent::Array(length) => stores.min(length as u64),
    }
}

/// The list entries for arrays that are stored to so often.
pub fn array_entries(shared: &[SharedDeclaration], stores: &[u64; SHARED]) -> u64
    requires few { length shared.now ≤ 256 }
    ensures value { result ≡ shared_sum (λ i extent. list_part (slice_index stores.now i) extent) shared.now }
    ensures low { result < 2 ^ 32 }
{
    let mut n = 0u64;
    for i in (0..shared.len()).rev() {
        n += list_part(stores[i], shared[i].extent);
    }
    n
}

fn version_part(written: bool, extent: Extent) -> u64
    ensures value { result ≡ version_part written extent }
    ensures low { result ≤ 65535 }
{
    match extent {
        Extent::Scalar(_) | Extent::Long(_) => 0,
        Extent::Array(length) => if written { length as u64 } else { 0 },
    }
}

/// The version words, where the written arrays are marked.
pub fn versions(shared: &[SharedDeclaration], written: &[bool; SHARED]) -> u64
    requires few { length shared.now ≤ 256 }
    ensures value { result ≡ shared_sum (λ i extent. version_part (slice_index_or written.now i false) extent) shared.now }
    ensures low { result < 2 ^ 32 }
{
    let mut n = 0u64;
    for i in (0..shared.len()).rev() {
        n += version_part(written[i], shared[i].extent);
    }
    n
}

fn place_part(written: bool, extent: Extent) -> u64
    ensures value { result ≡ place_part written extent }
    ensures low { result ≤ 196605 }
{
    match extent {
        Extent::Scalar(_) => 2,
        Extent::Long(_) => 4,
        Extent::Array(length) => if written {
            3 * length as u64
        } else {
            length as u64
        },
    }
}

/// The words of all shared variables, where the written arrays are marked.
pub fn places(shared: &[SharedDeclaration], written: &[bool; SHARED]) -> u64
    requires few { length shared.now ≤ 256 }
    ensures value { result ≡ shared_sum (λ i extent. place_part (slice_index_or written.now i false) extent) shared.now }
    ensures low { result < 2 ^ 32 }
{
    let mut n = 0u64;
    for i in (0..shared.len()).rev() {
        n += place_part(written[i], shared[i].extent);
    }
    n
}
