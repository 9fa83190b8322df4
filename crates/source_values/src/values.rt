//! What a value leaves, and the steps of one that evaluate no other.

ghost use Rattle.std.specs.Prelude.{◌≡◌, IfSome};
ghost use Rattle.std.specs.Option.{option_map};
ghost use Rattle.source_values.specs.Values.{Attempt, evaluated, reading_of, truth_word, is_settled};
ghost use Rattle.source_values.specs.Numbers.{number_type, number_value};
ghost use Rattle.task_ast.specs.declared.WordType.TheVariants as WordType;

use crate::numbers::Number;
use task_ast::ShortCircuitOperator;

/// The value of an expression, and the readings that are left behind it.
#[derive(Clone, Copy)]
pub struct Value<'r> {
    pub number: Number,
    pub left: &'r [u16],
}

/// Whether the left side of `&&` or `||` settles it: the right side is then not evaluated.
pub fn is_settled(op: ShortCircuitOperator, number: Number) -> bool
    ensures { result ≡ is_settled op (number_value number) }
{
    match op {
        ShortCircuitOperator::And => !number.holds(),
        ShortCircuitOperator::Or => number.holds(),
    }
}

/// The next reading. None where there is none.
pub fn sense(readings: &[u16]) -> Option<Value<'_>>
    ensures value { (s : Attempt) → option_map (λ x. evaluated (number_value x.number) (record s { left = x.left.now })) result ≡ reading_of readings.now s }
    ensures word_type { IfSome result (λ x. number_type x.number ≡ WordType.Unsigned) }
{
    let (first, left) = readings.split_first()?;
    Some(Value {
        number: Number::Unsigned(*first),
        left,
    })
}

/// 1 where the value isn't 0, else 0.
pub fn truth(x: Value<'_>) -> Value<'_>
    ensures word { number_value result.number ≡ truth_word (number_value x.entry.number) }
    ensures word_type { number_type result.number ≡ WordType.Int }
    ensures left { result.left.now ≡ x.entry.left.now }
{
    Value {
        number: Number::Int(u16::from(x.number.holds())),
        left: x.left,
    }
}
