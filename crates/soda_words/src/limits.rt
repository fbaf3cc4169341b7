//! The limits of the language, each by its one name.

/// The most bytes of a name.
pub const MOST_NAME: usize = 64;

/// The most tokens of a formula, without the minus signs of offsets.
pub const MOST_TOKENS: u32 = 1_500;

/// The most brackets open at once in a formula.
pub const MOST_BRACKETS: u32 = 64;

/// The greatest unroll factor.
pub const MOST_UNROLL: u64 = 64;

/// The most iterations.
pub const MOST_ITERATE: u64 = 64;

/// The most dimensions.
pub const MOST_DIMS: usize = 4;

/// The greatest product of the fixed extents.
pub const MOST_TILE: u64 = 16_777_216;

/// The greatest magnitude of a component of an offset.
pub const MOST_OFFSET: u64 = 32_768;

/// The most inputs, locals and outputs.
pub const MOST_TENSORS: usize = 512;

/// The most values of all params together.
pub const MOST_VALUES: u64 = 65_536;

/// The most sizes of a param.
pub const MOST_SIZES: usize = 2;

/// The most live staged tensors.
pub const MOST_LIVE: u64 = 512;

/// The most reads of the staged program.
pub const MOST_READS: u64 = 16_384;

/// The least burst width in bits.
pub const LEAST_BURST: u64 = 8;

/// The greatest burst width in bits.
pub const MOST_BURST: u64 = 8_192;

/// The most bytes of a program text.
pub const MOST_TEXT: u32 = 1_048_576;

/// The most bytes of a canonical text.
pub const MOST_CANONICAL: u32 = 67_108_864;

/// The most cells of an array.
pub const MOST_CELLS: u64 = 16_777_216;

/// The most cells of the arrays of all tensors together.
pub const MOST_TOTAL: u64 = 67_108_864;
