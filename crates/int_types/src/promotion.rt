ghost use Rattle.std.specs.Prelude.{◌≡◌, ◌⊎◌};
ghost use Rattle.int_types.specs.Operators.{promoted, wider, common_of, PromotesInto, literal_of};

use soda_words::{Ty, int32, int64, uint64};

/// The type in which an operator computes on operands of this type: a width below 32 bits gives int32, and any other
/// type stays.
pub fn promote(ty: Ty) -> Ty
    ensures { result ≡ promoted ty }
{
    if ty.bits() < 32 { int32() } else { ty }
}

// The wider of two types, and at equal widths the unsigned one, if either is unsigned.
fn wider(a: Ty, b: Ty) -> Ty
    ensures { result ≡ wider a b }
{
    if a.bits() < b.bits() {
        b
    } else if b.bits() < a.bits() {
        a
    } else if a.signed() {
        b
    } else {
        a
    }
}

/// The common type of two operands: the wider of the two promoted types, and at equal widths the unsigned one, if
/// either is unsigned. The order of the two doesn't matter.
pub fn common(a: Ty, b: Ty) -> Ty
    ensures value { result ≡ common_of a b }
    ensures symmetric { result ≡ common_of b a }
    ensures left { PromotesInto a result }
    ensures right { PromotesInto b result }
    ensures one { (result ≡ promoted a) ⊎ (result ≡ promoted b) }
{
    wider(promote(a), promote(b))
}

/// The type of a literal: int32 below 2^31, int64 below 2^63, else uint64.
pub fn literal_type(v: u64) -> Ty
    ensures { result ≡ literal_of v }
{
    if v < 1 << 31 {
        int32()
    } else if v < 1 << 63 {
        int64()
    } else {
        uint64()
    }
}
