ghost use Rattle.std.specs.Prelude.{◌≡◌, ◌↔◌, IsSome, IfSome};
ghost use Rattle.soda_words.specs.IntType.{IntType, IsType, IsCellSize, int32, int64, uint64};

use std::marker::Model;

/// An integer type: `intN` with N from 2 to 64, or `uintN` with N from 1 to 64.
#[derive(Clone, Copy, Debug, PartialEq, Eq)]
pub struct Ty {
    signed: bool,
    bits: u8,
}

impl Model for Ty {
    ghost use Rattle.soda_words.specs.IntType.{IntType, IsType};

    ghost Value = { IntType };

    ghost view = { λ t. record { signed = t.signed; bits = t.bits } };

    ghost invariant = { λ t. IsType (record { signed = t.signed; bits = t.bits }) };

    ghost inverse = { λ t. record { signed = t.signed; bits = t.bits } };
}

impl Ty {
    /// The type of this sign and this width in bits. `None` exactly where `bits` is 0, is above 64, or is 1 with
    /// `signed`.
    pub fn new(signed: bool, bits: u8) -> Option<Ty>
        ensures some { IsSome result ↔ IsType (record { signed = signed; bits = bits }) }
        ensures value { IfSome result (λ t. t ≡ record { signed = signed; bits = bits }) }
    {
        if bits == 0 || bits > 64 || signed && bits == 1 {
            None
        } else {
            Some(Ty { signed, bits })
        }
    }

    /// Whether the type has numbers below 0.
    pub fn signed(self) -> bool
        ensures value { result ≡ self.signed }
        ensures valid { IsType self }
    {
        self.signed
    }

    /// The width, from 1 to 64 bits.
    pub fn bits(self) -> u8
        ensures value { result ≡ self.bits }
        ensures valid { IsType self }
    {
        self.bits
    }
}

/// The signed type of 32 bits.
pub fn int32() -> Ty
    ensures { result ≡ int32 }
{
    Ty {
        signed: true,
        bits: 32,
    }
}

/// The signed type of 64 bits.
pub fn int64() -> Ty
    ensures { result ≡ int64 }
{
    Ty {
        signed: true,
        bits: 64,
    }
}

/// The unsigned type of 64 bits.
pub fn uint64() -> Ty
    ensures { result ≡ uint64 }
{
    Ty {
        signed: false,
        bits: 64,
    }
}

/// The bytes of a cell of this type: the least of 1, 2, 4 and 8 that holds the width.
pub fn cell_bytes(ty: Ty) -> u8
    ensures { IsCellSize ty result }
{
    let bits = ty.bits();
    if bits <= 8 {
        1
    } else if bits <= 16 {
        2
    } else if bits <= 32 {
        4
    } else {
        8
    }
}
