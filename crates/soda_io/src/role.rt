/// What a file is for in a job.
#[derive(Clone, Copy, Debug, PartialEq, Eq)]
pub enum FileRole {
    /// The text of a program.
    Program,
    /// The text of a network's modules.
    Modules,
    /// The values of the params.
    Params,
    /// The list of stalls.
    Stall,
    /// The cells of the input with this number, from 0.
    Input(u32),
    /// The cells of the output with this number, from 0.
    Output(u32),
}
