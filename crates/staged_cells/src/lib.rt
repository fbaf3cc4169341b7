//! The regions and cells of staged tensors: what a computing module sends, from what its ports hold; and the streams of
//! a program's network, which its queues carry; and what a computing module has to be.
#![tactic(auto)]

mod laws;
mod module;
mod ports;
mod region;
mod unit;

pub use laws::{
    formulas_read_ports, inputs_are_staged_first, items_are_by_module, lists_are_streams,
    lists_go_as_far, lists_go_on, modules_send_streams, ports_are_of_reads, sinks_take_arrays,
    stage_cells_are_in_range, stages_have_dimensions,
};
pub use module::{cell_of, is_output, output_number};
pub use ports::port_of;
pub use region::in_region;
pub use unit::Unit;
