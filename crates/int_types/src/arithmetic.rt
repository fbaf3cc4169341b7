ghost use Rattle.std.specs.Prelude.{◌≤◌, ◌-◌, ◌*◌, ◌^◌, true, false, ◌≡◌, ℤ, ◌+ℤ◌, ◌-ℤ◌, ◌*ℤ◌, ◌≢◌, pos, int_div};
ghost use Rattle.soda_words.specs.IntType.{IntType};
ghost use Rattle.int_types.specs.Ranges.{InRange, IsWrapOf, wrapped};
ghost use Rattle.int_types.specs.Operators.{quotient, remainder};

use crate::range::{size, wrap};
use soda_words::Ty;

// The sum of two numbers of one type, not wrapped.
pub(crate) fn sum(ty: Ty, x: i128, y: i128) -> i128
    requires left { InRange ty x }
    requires right { InRange ty y }
    ensures { result ≡ x +ℤ y }
{
    let _bits = ty.bits();
    x + y
}

// Their difference, not wrapped.
pub(crate) fn difference(ty: Ty, x: i128, y: i128) -> i128
    requires left { InRange ty x }
    requires right { InRange ty y }
    ensures { result ≡ x -ℤ y }
{
    let _bits = ty.bits();
    x - y
}

// Their product, wrapped: that of two unsigned numbers of 64 bits passes `i128`.
#[tactic(auto, using(crate::proofs::Wrapped::wrapped_is))]
pub(crate) fn product(ty: Ty, x: i128, y: i128) -> i128
    requires left { InRange ty x }
    requires right { InRange ty y }
    ensures value { result ≡ wrapped ty (x *ℤ y) }
    ensures in_range { InRange ty result }
{
    if ty.signed() {
        wrap(ty, signed_product(ty, x, y))
    } else {
        unsigned_product(ty, x, y)
    }
}

fn signed_product(ty: Ty, x: i128, y: i128) -> i128
    requires signed { ty.signed ≡ true }
    requires left { InRange ty x }
    requires right { InRange ty y }
    ensures { result ≡ x *ℤ y }
{
    let _bits = ty.bits();
    x * y
}

fn unsigned_product(ty: Ty, x: i128, y: i128) -> i128
    requires signed { ty.signed ≡ false }
    requires left { InRange ty x }
    requires right { InRange ty y }
    ensures { IsWrapOf ty (x *ℤ y) result }
{
    low_bits_of_product(ty, x as u128, y as u128)
}

fn low_bits_of_product(ty: Ty, x: u128, y: u128) -> i128
    requires signed { ty.signed ≡ false }
    requires left { x ≤ 2 ^ 64 - 1 }
    requires right { y ≤ 2 ^ 64 - 1 }
    ensures { IsWrapOf ty (pos (x * y)) result }
{
    (x * y % size(ty) as u128) as i128
}

// The quotient truncated toward zero, wrapped, and 0 where the divisor is 0.
pub(crate) fn quotient(ty: Ty, x: i128, y: i128) -> i128
    requires left { InRange ty x }
    requires right { InRange ty y }
    ensures value { result ≡ quotient ty x y }
    ensures in_range { InRange ty result }
{
    if y == 0 {
        0
    } else {
        wrap(ty, truncated_quotient(ty, x, y))
    }
}

fn truncated_quotient(ty: Ty, x: i128, y: i128) -> i128
    requires left { InRange ty x }
    requires right { InRange ty y }
    requires nonzero { y ≢ pos 0 }
    ensures { result ≡ int_div x y }
{
    let _bits = ty.bits();
    x / y
}

// What the truncated quotient leaves of the dividend, and the dividend where the divisor is 0.
pub(crate) fn remainder(ty: Ty, x: i128, y: i128) -> i128
    requires left { InRange ty x }
    requires right { InRange ty y }
    ensures value { result ≡ remainder x y }
    ensures in_range { InRange ty result }
{
    if y == 0 {
        x
    } else {
        truncated_remainder(ty, x, y)
    }
}

fn truncated_remainder(ty: Ty, x: i128, y: i128) -> i128
    requires left { InRange ty x }
    requires right { InRange ty y }
    requires nonzero { y ≢ pos 0 }
    ensures value { result ≡ x -ℤ (y *ℤ int_div x y) }
    ensures in_range { InRange ty result }
{
    let _bits = ty.bits();
    x % y
}
