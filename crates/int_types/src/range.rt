ghost use Rattle.std.specs.Prelude.{◌≡◌, ◌↔◌, IsTrue, ℤ, pos, ◌^◌};
ghost use Rattle.soda_words.specs.IntType.{IntType, IsType};
ghost use Rattle.int_types.specs.Ranges.{least, past, InRange, IsWrapOf, wrapped};

use soda_words::Ty;

// The least number of the type.
fn least(ty: Ty) -> i128
    ensures { result ≡ least ty }
{
    if ty.signed() {
        -(1i128 << (ty.bits() - 1))
    } else {
        0
    }
}

// One more than the greatest number of the type.
fn past(ty: Ty) -> i128
    ensures { result ≡ past ty }
{
    if ty.signed() {
        1i128 << (ty.bits() - 1)
    } else {
        1i128 << ty.bits()
    }
}

// How many numbers the type has.
pub(crate) fn size(ty: Ty) -> i128
    ensures value { result ≡ pos (2 ^ ty.bits) }
    ensures valid { IsType ty }
{
    1i128 << ty.bits()
}

/// Whether `v` is a number of the type: from -2^(bits - 1) to 2^(bits - 1) - 1 if it is signed, else from 0 to 2^bits
/// - 1.
pub fn in_range(ty: Ty, v: i128) -> bool
    ensures { IsTrue result ↔ InRange ty v }
{
    least(ty) <= v && v < past(ty)
}

// The wrap of `v`, known by its relation alone.
fn wrap_by_remainder(ty: Ty, v: i128) -> i128
    ensures { IsWrapOf ty v result }
{
    let size = size(ty);
    let rest = v.rem_euclid(size);
    if rest < past(ty) { rest } else { rest - size }
}

/// The one number of the type's range that differs from `v` by a multiple of 2^bits. It is `v` itself where `v` is in
/// range.
#[tactic(auto, using(crate::proofs::Wrapped::wrapped_is, crate::proofs::Wrapped::own_wrap))]
pub fn wrap(ty: Ty, v: i128) -> i128
    ensures relation { IsWrapOf ty v result }
    ensures value { result ≡ wrapped ty v }
{
    let _bits = ty.bits();
    if in_range(ty, v) {
        v
    } else {
        wrap_by_remainder(ty, v)
    }
}
