//! What is called costs so much, by where its code begins.

ghost use Rattle.std.specs.Prelude.{◌≡◌};
ghost use Rattle.dearest_ways.specs.Calls.{cost_at};

/// What the code of a function costs at most that begins at an address.
#[derive(Clone, Copy)]
pub struct CallCost {
    /// Where the code begins.
    pub entry: u16,
    /// Its cycles; 2^64 - 1 where they are more.
    pub cycles: u64,
}

/// What the code that begins at an address costs, by the first that begins there; nothing where there is none.
pub fn cost_at(calls: &[CallCost], entry: u16) -> u64
    ensures { result ≡ cost_at calls.now entry }
{
    for call in calls {
        if call.entry == entry {
            return call.cycles;
        }
    }
    0
}
