ghost use Rattle.std.specs.Prelude.{◌≡◌, ◌<◌, ◌^◌, pos};
ghost use Rattle.int_types.specs.Ranges.{InRange, wrapped};
ghost use Rattle.int_types.specs.Operators.{word};

use crate::range::{size, wrap};
use soda_words::Ty;

// The two's complement of the type's width.
pub(crate) fn word(ty: Ty, v: i128) -> u128
    ensures value { result ≡ word ty v }
    ensures bound { result < 2 ^ 64 }
{
    v.rem_euclid(size(ty)) as u128
}

// The number of the type that has this two's complement.
pub(crate) fn with_word(ty: Ty, word: u128) -> i128
    requires { word < 2 ^ 64 }
    ensures value { result ≡ wrapped ty (pos word) }
    ensures in_range { InRange ty result }
{
    wrap(ty, word as i128)
}
