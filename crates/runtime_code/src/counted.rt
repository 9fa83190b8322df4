//! How loops that count down are written.

ghost use Rattle.std.specs.Prelude.{◌≡◌, ◌<◌, ℕ};
ghost use Rattle.runtime_code.specs.Counted.{loop_begin, loop_end};

use code_forms::Form::{Calculate, Move};
use code_forms::Source::{Constant, Number};
use code_forms::Target::ToRegister;
use code_forms::WorkRegister::{R4, R5};
use code_forms::{Condition, Form, Konst, TwoOp, jump};

/// The beginning of a loop: where R4 is 0 it leads over so many words, else R5 becomes the address.
pub fn loop_begin(address: u16, over: u16) -> [Form; 3]
    requires { over < 0x400 }
    ensures { result ≡ loop_begin address over }
{
    [
        Calculate(TwoOp::Cmp, Constant(Konst::Zero), R4),
        jump(Condition::Equal, over),
        Move(Number(address), ToRegister(R5)),
    ]
}

/// Its end: R4 is counted down, and where a turn is left it leads back, by the ten bits of its offset.
pub fn loop_end(back: u16) -> [Form; 2]
    requires { back < 0x400 }
    ensures { result ≡ loop_end back }
{
    [
        Calculate(TwoOp::Sub, Constant(Konst::One), R4),
        jump(Condition::NotEqual, back),
    ]
}
