//! The shared numbers of a map, one after another.
ghost use Rattle.std.specs.Prelude.{◌≡◌, ◌+◌, ◌*◌, ◌<◌, ◌∷◌, [], All, MatchOption, length};
ghost use Rattle.image_text.specs.image_map.MapValue.{IsVariable};
ghost use Rattle.board_run.specs.State.{placed, numbers_left, HasIndex, StandsInFram};

use image_text::Variable;

/// A shared number, which is a word or a long: the name of its variable, its index in an array, and the address of its only or its low word.
#[derive(Clone, Copy)]
pub struct PlacedNumber<'a> {
    pub name: &'a [u8],
    pub index: Option<u16>,
    pub address: u16,
    pub is_long: bool,
}

/// The shared number at an index of the first variable, and behind it the variables and the index of the next one.
pub fn cut_number(variables: &[Variable], i: u16) -> Option<(PlacedNumber<'_>, &[Variable], u16)>
    requires variables { All IsVariable variables.now }
    requires index { HasIndex variables.now i }
    ensures cut { MatchOption result (numbers_left variables.now i ≡ []) (λ cut.
        numbers_left variables.now i ≡ placed cut.0 ∷ numbers_left cut.1.now cut.2) }
    ensures next { MatchOption result (variables.now ≡ []) (λ cut.
        All IsVariable cut.1.now × HasIndex cut.1.now cut.2 × StandsInFram (placed cut.0)) }
{
    let [v, behind @ ..] = variables else {
        return None;
    };
    let name = v.name.as_bytes();
    match v.length {
        None => {
            let number = PlacedNumber {
                name,
                index: None,
                address: v.address,
                is_long: v.value_type.is_long(),
            };
            Some((number, behind, 0))
        }
        Some(n) => {
            let number = PlacedNumber {
                name,
                index: Some(i),
                address: v.address + 2 * i,
                is_long: false,
            };
            if i + 1 < n {
                Some((number, variables, i + 1))
            } else {
                Some((number, behind, 0))
            }
        }
    }
}

/// The number of a low and a high word.
pub fn long_of(low: u16, high: u16) -> u32
    ensures { result ≡ low + 65536 * high }
{
    low as u32 + 65536 * high as u32
}
