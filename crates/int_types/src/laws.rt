ghost use Rattle.std.specs.Prelude.{◌+◌, ◌%◌, min, max, ℕ};
ghost use Rattle.soda_words.specs.declared.operators.BinOp.TheVariants.{BitOr, BitXor, BitAnd};
ghost use Rattle.int_types.specs.Laws.{WrapIsThere, WrapIsOne, WrapKeepsRange, IsBitByBit, QuotientIsTruncated, UnaryIsInRange, BinaryIsInRange, SelectIsInRange};

/// There is exactly one number of a type's range that differs from a given number by a multiple of the type's size,
/// and a number in range is its own.
pub fn wrap_is_unique()
    ensures there { WrapIsThere }
    ensures one { WrapIsOne }
    ensures keeps_range { WrapKeepsRange }
{}

/// The bitwise operators act on each bit of the two's complement by itself.
pub fn bitwise_is_bit_by_bit()
    ensures and { IsBitByBit BitAnd min }
    ensures or { IsBitByBit BitOr max }
    ensures xor { IsBitByBit BitXor (λ a b. (a + b) % 2) }
{}

/// The quotient of any number by one that isn't 0 is truncated toward zero.
pub fn quotient_is_truncated()
    ensures { QuotientIsTruncated }
{}

/// Each operator's value is in the range of its type, whatever the operands are.
pub fn results_are_in_range()
    ensures unary { UnaryIsInRange }
    ensures binary { BinaryIsInRange }
    ensures select { SelectIsInRange }
{}
