//! The places of the shared variables.
ghost use Rattle.std.specs.Prelude.{◌≡◌, ◌+◌, ◌*◌, ◌≤◌, ◌<◌, IfOk, length};
ghost use Rattle.cost_bound.specs.Allowance.{version_part};
ghost use Rattle.privatise.specs.Sizes.{home_part, copy_part};
ghost use Rattle.privatise.specs.Placing.{copies_where, scalar_at, place_at, IsRoom, ArePlaced};

use crate::sizes::{copy_part, home_part, version_part};
use cost_bound::SHARED;
use memory_map::{ArrayCopies, ScalarWidth, VariablePlace};
use std::alloc::{AllocError, Global};
use task_ast::{Extent, SharedDeclaration};

/// The addresses that the next variable takes: for its words, for their copies and for their versions.
#[derive(Clone, Copy)]
pub struct Free {
    pub home: u16,
    pub copy: u16,
    pub version: u16,
}

/// The address behind so many words.
pub fn address_behind(address: u16, words: u32) -> u16
    requires { address + 2 * words < 65536 }
    ensures { result ≡ address + 2 * words }
{
    address + (2 * words) as u16
}

fn copies_at(written: bool, free: Free) -> Option<ArrayCopies>
    ensures { result ≡ copies_where written free }
{
    if written {
        Some(ArrayCopies {
            copies: free.copy,
            versions: free.version,
        })
    } else {
        None
    }
}

fn scalar_at(width: ScalarWidth, free: Free) -> VariablePlace
    ensures { result ≡ scalar_at width free }
{
    VariablePlace::Scalar {
        home: free.home,
        copy: free.copy,
        width,
    }
}

// The place of a variable at the free addresses.
fn place_at(extent: Extent, written: bool, free: Free) -> VariablePlace
    ensures { result ≡ place_at written extent free }
{
    match extent {
        Extent::Scalar(_) => scalar_at(ScalarWidth::OneWord, free),
        Extent::Long(_) => scalar_at(ScalarWidth::TwoWords, free),
        Extent::Array(length) => VariablePlace::Array {
            elements: free.home,
            length,
            copies: copies_at(written, free),
        },
    }
}

fn free_behind(extent: Extent, written: bool, free: Free) -> Free
    requires home { free.home + 2 * home_part extent < 65536 }
    requires copy { free.copy + 2 * copy_part written extent < 65536 }
    requires version { free.version + 2 * version_part written extent < 65536 }
    ensures home { result.home ≡ free.home + 2 * home_part extent }
    ensures copy { result.copy ≡ free.copy + 2 * copy_part written extent }
    ensures version { result.version ≡ free.version + 2 * version_part written extent }
{
    Free {
        home: address_behind(free.home, home_part(extent)),
        copy: address_behind(free.copy, copy_part(written, extent)),
        version: address_behind(free.version, version_part(written, extent)),
    }
}

/// The place of each shared variable, from the free addresses on, where the written arrays are marked.
pub fn place_variables(
    alloc: Global,
    shared: &[SharedDeclaration],
    written: &[bool; SHARED],
    free: Free,
) -> Result<Vec<VariablePlace>, AllocError>
    requires few { length shared.now ≤ 256 }
    requires room { IsRoom shared.now written.now free }
    ensures { IfOk result (λ v. ArePlaced shared.now written.now free v.items) }
{
    let mut places = Vec::new(alloc);
    let mut next = free;
    for i in 0..shared.len() {
        let (extent, is_written) = (shared[i].extent, written[i]);
        places.push(place_at(extent, is_written, next))?;
        next = free_behind(extent, is_written, next);
    }
    Ok(places)
}
