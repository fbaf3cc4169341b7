ghost use Rattle.std.specs.Prelude.{◌≡◌, ℤ, pos};
ghost use Rattle.soda_words.specs.IntType.{int32};
ghost use Rattle.int_types.specs.Ranges.{wrapped};

/// How an array keeps its numbers, each of which stands for a number of 32 bits with a sign.
pub trait Cell: Copy {
    ghost number: { Self → ℤ };

    /// The number, as a word.
    fn word(self) -> i32
        ensures { result ≡ number self };
}

impl Cell for i32 {
    ghost number = { λ x. x };

    #[inline]
    fn word(self) -> i32 {
        self
    }
}

impl Cell for i16 {
    ghost number = { λ x. x };

    #[inline]
    fn word(self) -> i32 {
        i32::from(self)
    }
}

impl Cell for i8 {
    ghost number = { λ x. x };

    #[inline]
    fn word(self) -> i32 {
        i32::from(self)
    }
}

impl Cell for u16 {
    ghost number = { λ x. pos x };

    #[inline]
    fn word(self) -> i32 {
        i32::from(self)
    }
}

impl Cell for u8 {
    ghost number = { λ x. pos x };

    #[inline]
    fn word(self) -> i32 {
        i32::from(self)
    }
}

/// A wide number stands for its wrap to int32, which is the number itself where it is one of int32.
impl Cell for i128 {
    ghost number = { λ x. wrapped int32 x };

    #[inline]
    fn word(self) -> i32 {
        low_word(self)
    }
}

// The word of a wide number's low bits.
#[inline]
fn low_word(x: i128) -> i32
    ensures { result ≡ wrapped int32 x }
{
    ((x.cast_unsigned() & 0xffff_ffff) as u32).cast_signed()
}
