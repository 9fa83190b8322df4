//! The choices of a way.

ghost use Rattle.std.specs.Prelude.{◌≡◌, ◌++◌, ◌∷◌, [], IfOk, map};
ghost use Rattle.code_ways.specs.Choices.{taken_of, turned};

use std::alloc::{AllocError, Global};
use std::rc::Rc;

/// The choices that a way takes, in their order; ways share what they have in common.
#[derive(Drop)]
pub enum Choices {
    /// The choice of a number, and whether its test holds.
    One { number: u32, holds: bool },
    /// Those of one way and of another behind it.
    Behind(Rc<Choices>, Rc<Choices>),
    /// Those of so many turns of one way.
    Turns(u32, Rc<Choices>),
}

/// Those of one way and of another behind it, where `None` is a way without choices.
pub fn behind(
    alloc: Global,
    first: &Option<Rc<Choices>>,
    second: &Option<Rc<Choices>>,
) -> Result<Option<Rc<Choices>>, AllocError>
    ensures { IfOk result (λ r. taken_of r ≡ taken_of first.now ++ taken_of second.now) }
{
    match first {
        None => shared(second),
        Some(one) => match second {
            None => shared(first),
            Some(other) => {
                let both = Choices::Behind(one.clone()?, other.clone()?);
                Ok(Some(Rc::new(alloc, both)?))
            }
        },
    }
}

/// The same choices.
pub fn shared(choices: &Option<Rc<Choices>>) -> Result<Option<Rc<Choices>>, AllocError>
    ensures { IfOk result (λ r. taken_of r ≡ taken_of choices.now) }
{
    match choices {
        None => Ok(None),
        Some(some) => Ok(Some(some.clone()?)),
    }
}

/// Those of so many turns of a way.
pub fn turns(
    alloc: Global,
    count: u32,
    turn: &Option<Rc<Choices>>,
) -> Result<Option<Rc<Choices>>, AllocError>
    ensures { IfOk result (λ r. taken_of r ≡ map (turned count) (taken_of turn.now)) }
{
    match turn {
        None => Ok(None),
        Some(some) => Ok(Some(Rc::new(alloc, Choices::Turns(count, some.clone()?))?)),
    }
}

/// One choice.
pub fn one(alloc: Global, number: u32, holds: bool) -> Result<Option<Rc<Choices>>, AllocError>
    ensures { IfOk result (λ r. taken_of r ≡ record { number = number; holds = holds; times = 1 } ∷ []) }
{
    Ok(Some(Rc::new(alloc, Choices::One { number, holds })?))
}
