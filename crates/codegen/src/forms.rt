//! What numbers and locals are in forms of instructions.

ghost use Rattle.std.specs.Prelude.{◌≡◌, ◌+◌, ◌<◌};
ghost use Rattle.word_code.specs.Code as place;

use word_code::forms::{Konst, Source, Target, WorkRegister};

/// A number as a source: some take no word of their own.
pub fn number_source(number: u16) -> Source
    ensures { result ≡ place.number_source number }
{
    match number {
        0 => Source::Constant(Konst::Zero),
        1 => Source::Constant(Konst::One),
        2 => Source::Constant(Konst::Two),
        4 => Source::Constant(Konst::Four),
        8 => Source::Constant(Konst::Eight),
        0xffff => Source::Constant(Konst::MinusOne),
        number => Source::Number(number),
    }
}

/// The register of a local below 8.
pub fn local_register(n: u16) -> WorkRegister
    ensures { result ≡ place.local_register n }
{
    match n {
        0 => WorkRegister::R8,
        1 => WorkRegister::R9,
        2 => WorkRegister::R10,
        3 => WorkRegister::R11,
        4 => WorkRegister::R12,
        5 => WorkRegister::R13,
        6 => WorkRegister::R14,
        _ => WorkRegister::R15,
    }
}

/// Where any other local stands in RAM.
pub fn local_address(n: u16) -> u16
    requires { n < 0x1207 }
    ensures { result ≡ place.local_address n }
{
    0x240e - 2 * n
}

/// A local as what MOV writes.
pub fn local_target(n: u16) -> Target
    requires { n < 0x1207 }
    ensures { result ≡ place.local_target n }
{
    if n < 8 {
        Target::ToRegister(local_register(n))
    } else {
        Target::ToRam(local_address(n))
    }
}

/// The register of the local so far behind another, where it has one.
#[tactic(auto, using(crate::proofs::Behind::register_of_more))]
pub fn register_behind(first: u16, n: u16) -> WorkRegister
    ensures { result ≡ place.local_register (first + n) }
{
    match first.checked_add(n) {
        Some(local) => local_register(local),
        None => WorkRegister::R15,
    }
}

/// That local as what MOV writes.
#[tactic(auto, using(crate::proofs::Behind::target_of_more))]
pub fn target_behind(first: u16, n: u16) -> Target
    ensures { result ≡ place.local_target (first + n) }
{
    match first.checked_add(n) {
        Some(local) if local < 0x1207 => local_target(local),
        _ => Target::ToRam(0),
    }
}
