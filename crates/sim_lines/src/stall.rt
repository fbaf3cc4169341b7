/// An input or output stands still in a cycle: the source that reads it, or the sink that writes it, does no firing.
#[derive(Clone, Copy, Debug, PartialEq, Eq)]
pub struct Stall {
    /// The number of the cycle, from 0.
    pub cycle: u64,
    /// The number of the tensor among the tensors of the program.
    pub tensor: u32,
}
