/// What a program text must have.
#[derive(Clone, Copy, Debug, PartialEq, Eq)]
pub enum Need {
    /// The name of the program.
    Kernel,
    /// The width of a burst.
    BurstWidth,
    /// How many cells are made in a cycle.
    UnrollFactor,
    /// At least one input.
    Input,
    /// At least one output.
    Output,
}
