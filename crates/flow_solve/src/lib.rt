//! Longest walks in graphs with cycles, and the delays of least storage.
#![tactic(auto)]

mod arc;
mod cycle;
mod laws;
mod limits;
mod proposal;
mod residual;
mod round;
mod search;
mod solver;
mod start;
mod steps;
mod trace;
mod unit;
mod walks;

pub use arc::{Arc, Longest};
pub use laws::{least_plans_meet, plans_exist};
pub use limits::{MOST_ARC_LENGTH, MOST_ARCS, MOST_NODES};
pub use solver::solve;
pub use walks::longest;
