/// What a program must not have too many of.
#[derive(Clone, Copy, Debug, PartialEq, Eq)]
pub enum LimitKind {
    /// The unroll factor.
    Unroll,
    /// The number of iterations.
    Iterate,
    /// The number of dimensions.
    Dims,
    /// The product of the fixed extents.
    Tile,
    /// The magnitude of an offset's component.
    Offset,
    /// The number of inputs, locals and outputs.
    Tensors,
    /// The number of values of all params together.
    Params,
    /// The number of live staged tensors.
    Live,
    /// The number of reads of the staged program.
    Reads,
    /// The greatest delay.
    Delay,
    /// The storage of all tensors together, in cells.
    Reuse,
    /// The number of modules of the network.
    Modules,
    /// The number of cells of an array.
    Cells,
    /// The number of cells of all tensors together.
    Total,
}
