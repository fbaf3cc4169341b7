//! The edge of a network: source modules, which read the cells of an input from its file firing by firing, and sink
//! modules, which write those of an output into its file.
#![tactic(auto)]

mod laws;
mod sink;
mod source;
mod span;

pub use bursts::{CellFault, CellReader, CellWriter, Form};
pub use laws::firings_hand_on_the_array;
pub use sink::SinkModule;
pub use source::SourceModule;
