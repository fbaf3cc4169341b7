/// What a staged tensor is in a network.
#[derive(Clone, Copy)]
pub enum Kind {
    /// An input of the first iteration, which a source sends.
    Input,
    /// A tensor that is computed, and goes to no sink.
    Inner,
    /// An output of the last iteration: it is computed, and goes to a sink.
    Output,
}
