use array_bytes::Form;

/// How the arrays of a job stand in their files.
#[derive(Clone, Copy, Debug)]
pub struct Layout {
    /// In text or as bytes.
    pub form: Form,
    /// The width of a burst, in bits.
    pub burst: u64,
    /// How many cells an array has.
    pub cells: u64,
    /// How many cells a line of a text has.
    pub run: u64,
}
