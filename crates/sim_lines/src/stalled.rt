/// A module is the end of a tensor: the source of an input, or the sink of an output.
#[derive(Clone, Copy)]
pub(crate) struct ModuleEnd {
    /// The number of the tensor among the tensors of the program.
    pub tensor: u32,
    /// The number of the module in firing order.
    pub number: usize,
}

/// A module is stalled in a cycle.
#[derive(Clone, Copy)]
pub(crate) struct StalledModule {
    /// The number of the cycle, from 0.
    pub cycle: u64,
    /// The number of the module in firing order.
    pub number: usize,
}
