//! The network of a design, run cycle by cycle over files.
#![tactic(auto)]

mod closing;
mod laws;
mod making;
mod path;
mod running;
mod simulation;
mod stationing;
mod stations;
mod stop;

pub use laws::{
    cells_of_a_run_are_in_range, modules_of_a_run_are_apart, modules_of_a_run_have_ends,
    modules_of_a_run_send, queues_of_a_run_have_room, sinks_of_a_run_take,
    sources_of_a_run_stand_in_order,
};
pub use path::FilePath;
pub use simulation::Simulation;
pub use staged_cells::Unit;
pub use stop::Stop;
